// A capture of packets is read in pieces, and its rows come piece by piece.
ghost use Rattle.std.specs.Prelude.{◌≡◌, ◌≤◌, ◌<◌, ◌^◌, ◌+◌, ◌++◌, ℕ, List, Option, [], length, take, false, All, IfOk, OnErr, OnOk, IsTrue, Err};
ghost use Rattle.cf_outside.specs.Causes.{HasCause};
ghost use Rattle.cf_pcap.specs.Capture.{FrameValue};
ghost use Rattle.cf_row.specs.Row.{Fits, RowValue};
ghost use Rattle.cf_row.specs.Schema6.{attrs_by};
ghost use Rattle.cf_intake.specs.Devices.{TakesUpTo, TakesAtMost};
ghost use Rattle.cf_intake.specs.Causes.{HasHaltCause, HasStopCause};
ghost use Rattle.cf_intake.specs.Reading.{AddsFew, Feeds, HasMore, IfReadOn, IfReaderAt, IsLast, IsReadOn, ReadsOn, StopsOn, TakesPackets, pieces_left, reads_blocks, reads_scope};
ghost use Rattle.cf_intake.specs.Parts.{captured, first_of};
ghost use Rattle.cf_intake.specs.Rows.{links_by, packet_rows};
ghost use Rattle.cf_intake.specs.declared.refusal.Halt.TheVariants.{Stopped};
ghost use Rattle.cf_intake.specs.declared.refusal.Stop.TheVariants as stops;

use crate::reader::Reader;
use crate::refusal::{Halt, Stop};
use crate::rows::{Captured, rows_of};
use cf_outside::{Failed, Shelf};
use cf_pcap::{LinkSet, Scope};
use cf_row::{Memory, PacketSchema, Row};
use std::alloc::Global;

/// The bytes of a piece.
const PIECE: usize = 65536;

/// A capture has no more pieces.
const PIECES: usize = 65536;

// Reads the next piece of the opened file: as many bytes as the buffer has room for, or all up to the end.
fn read_piece<F: Shelf>(shelf: &mut F, buf: &mut [u8]) -> Result<usize, Failed>
    ensures files { F.files shelf.new ≡ F.files shelf.old }
    ensures size { length buf.new ≡ length buf.old }
    ensures within { IfOk result (λ count. count ≤ length buf.old) }
    ensures taken { IfOk result (λ count. TakesUpTo (F.rest shelf.old) (F.rest shelf.new) (length buf.old) (take count buf.new)) }
    ensures stopped { OnErr result (TakesAtMost (F.rest shelf.old) (F.rest shelf.new) (length buf.old)) }
    ensures cause { HasCause (F.faults shelf.old) (F.faults shelf.new) result }
{
    let mut filled = 0;
    while filled < buf.len() {
        let count = shelf.read(&mut buf[filled..])?;
        if count == 0 {
            return Ok(filled);
        }
        filled += count;
    }
    Ok(filled)
}

/// The links that are read under a schema of packets.
pub(crate) fn links_of(schema: PacketSchema) -> LinkSet
    ensures { result ≡ links_by schema }
{
    match schema {
        PacketSchema::Packet => LinkSet::Basic,
        PacketSchema::Packet6 => LinkSet::All,
    }
}

// Feeds a piece, and gives the rows of the frames that end in it.
pub(crate) fn feed_rows(
    alloc: Global,
    reader: &mut Reader,
    piece: &[u8],
    schema: PacketSchema,
) -> Result<Vec<Row>, Memory>
    ensures blocks { reads_blocks reader.new ≡ reads_blocks reader.old }
    ensures scope { reads_scope reader.new ≡ reads_scope reader.old }
    ensures fed { IfOk result (λ rows. (given : List FrameValue) × (rows.items ≡ packet_rows schema given)
        × Feeds reader.old reader.new piece.now given) }
    ensures few { IfOk result (λ rows. IfReaderAt reader.old (AddsFew piece.now [] rows.items)) }
    ensures fit { IfOk result (λ rows. All (Fits (attrs_by schema)) rows.items) }
{
    let mut frames = Vec::new(alloc);
    reader.feed(piece, &mut frames)?;
    rows_of(alloc, &frames, schema)
}

/// The opened capture of packets, which is read piece by piece.
#[derive(Drop)]
pub struct Pieces {
    // By which the rows are made.
    schema: PacketSchema,
    reader: Reader,
    buf: Vec<u8>,
    // The bytes of the last piece. It fills the buffer, unless the file ended before.
    count: usize,
    // How many pieces were read.
    number: usize,
}

// Reads the first piece into the buffer, and gives its rows.
fn first_piece<F: Shelf>(
    alloc: Global,
    shelf: &mut F,
    schema: PacketSchema,
    mut buf: Vec<u8>,
) -> Result<(Pieces, Vec<Row>), Stop>
    requires { length buf.items ≡ 65536 }
    ensures files { F.files shelf.new ≡ F.files shelf.old }
    ensures read { IfOk result (λ begun. IsReadOn begun.0 (F.rest shelf.old) (F.rest shelf.new) begun.1.items) }
    ensures schema { IfOk result (λ begun. begun.0.schema ≡ schema) }
    ensures few { IfOk result (λ begun. length begun.1.items ≤ 4096) }
    ensures fit { IfOk result (λ begun. All (Fits (attrs_by schema)) begun.1.items) }
    ensures stopped { OnErr result (TakesAtMost (F.rest shelf.old) (F.rest shelf.new) (2 ^ 32)) }
    ensures cause { HasStopCause (F.faults shelf.old) (F.faults shelf.new) result }
{
    let count = read_piece(shelf, &mut buf)?;
    let scope = Scope::limited(links_of(schema));
    let mut reader = Reader::of(alloc, &buf[..count], scope)?;
    let rows = feed_rows(alloc, &mut reader, &buf[..count], schema)?;
    let pieces = Pieces {
        schema,
        reader,
        buf,
        count,
        number: 1,
    };
    Ok((pieces, rows))
}

impl Pieces {
    /// Reads the first piece, and gives its rows by that schema.
    pub fn begin<F: Shelf>(
        alloc: Global,
        shelf: &mut F,
        schema: PacketSchema,
    ) -> Result<(Pieces, Vec<Row>), Stop>
        ensures files { F.files shelf.new ≡ F.files shelf.old }
        ensures read { IfOk result (λ begun. IsReadOn begun.0 (F.rest shelf.old) (F.rest shelf.new) begun.1.items) }
        ensures schema { IfOk result (λ begun. begun.0.schema ≡ schema) }
        ensures few { IfOk result (λ begun. length begun.1.items ≤ 4096) }
        ensures fit { IfOk result (λ begun. All (Fits (attrs_by schema)) begun.1.items) }
        ensures stopped { OnErr result (TakesAtMost (F.rest shelf.old) (F.rest shelf.new) (2 ^ 32)) }
        ensures cause { HasStopCause (F.faults shelf.old) (F.faults shelf.new) result }
    {
        let buf = vec![in alloc; 0u8; PIECE]?;
        first_piece(alloc, shelf, schema, buf)
    }

    /// Whether there may be more pieces.
    pub fn has_more(&self) -> bool
        ensures more { IsTrue result → HasMore self.now }
        ensures last { result ≡ false → IsLast self.now }
    {
        self.count == PIECE && self.number < PIECES
    }

    /// Reads the next piece, and gives its rows.
    pub(crate) fn next<F: Shelf>(&mut self, alloc: Global, shelf: &mut F) -> Result<Vec<Row>, Stop>
        requires more { HasMore self.old }
        ensures files { F.files shelf.new ≡ F.files shelf.old }
        ensures schema { self.new.schema ≡ self.old.schema }
        ensures number { IfOk result (λ _. self.new.number ≡ self.old.number + 1) }
        ensures few { IfOk result (λ given. IfReadOn self.old (F.rest shelf.old) (length given.items ≤ 4096)) }
        ensures read { IfOk result (λ given. ReadsOn self.old self.new (F.rest shelf.old) (F.rest shelf.new) given.items) }
        ensures fit { IfOk result (λ given. All (Fits (attrs_by self.old.schema)) given.items) }
        ensures stopped { OnErr result (StopsOn self.old (F.rest shelf.old) (F.rest shelf.new)) }
        ensures cause { HasStopCause (F.faults shelf.old) (F.faults shelf.new) result }
    {
        let count = read_piece(shelf, &mut self.buf)?;
        let rows = feed_rows(alloc, &mut self.reader, &self.buf[..count], self.schema)?;
        self.count = count;
        self.number += 1;
        Ok(rows)
    }

    /// Reads on until at least so many rows came, or all pieces, and gives their rows.
    pub fn next_rows<F: Shelf>(
        &mut self,
        alloc: Global,
        shelf: &mut F,
        wanted: usize,
    ) -> Result<Vec<Row>, Stop>
        requires more { HasMore self.old }
        requires some { 0 < wanted }
        ensures files { F.files shelf.new ≡ F.files shelf.old }
        ensures schema { self.new.schema ≡ self.old.schema }
        ensures left { IfOk result (λ _. pieces_left self.new < pieces_left self.old) }
        ensures few { IfOk result (λ given. IfReadOn self.old (F.rest shelf.old) (length given.items < wanted + 4096)) }
        ensures read { IfOk result (λ given. ReadsOn self.old self.new (F.rest shelf.old) (F.rest shelf.new) given.items) }
        ensures fit { IfOk result (λ given. All (Fits (attrs_by self.old.schema)) given.items) }
        ensures stopped { OnErr result (StopsOn self.old (F.rest shelf.old) (F.rest shelf.new)) }
        ensures cause { HasStopCause (F.faults shelf.old) (F.faults shelf.new) result }
    {
        let mut given = self.next(alloc, shelf)?;
        while given.len() < wanted && self.has_more() {
            let mut more = self.next(alloc, shelf)?;
            given.append(&mut more)?;
        }
        Ok(given)
    }

    /// What the end says: the rows that came are those of the capture, or it has a fault. One that may be truncated says within which
    /// record it ends, if it does.
    pub fn finish(self, truncated: bool) -> Result<Option<u64>, Halt>
        requires last { IsLast self }
        ensures taken { (before now : Option (List ℕ)) (rows : List RowValue) → IsReadOn self before now rows
            → TakesPackets self.schema truncated (λ cut what. what ≡ record { rows = rows; cut = cut }) before now result }
        ensures unfailed { (now : Option (List ℕ)) → IfReadOn self now (result ≡ Err (Stopped stops.ReadFault) → ⊥) }
    {
        let Pieces { reader, .. } = self;
        reader.finish(truncated)
    }
}

// Keeps more rows behind the first ones, so many at most in all.
fn keep_first(kept: &mut Vec<Row>, mut more: Vec<Row>, most: usize) -> Result<(), Memory>
    ensures { OnOk result ((all : List RowValue) → kept.old.items ≡ take most all → kept.new.items ≡ take most (all ++ more.items)) }
{
    more.truncate(most.saturating_sub(kept.len()));
    kept.append(&mut more)?;
    Ok(())
}

/// The first rows of the opened capture by that schema, so many at most. It is read to its end, or until 2^32 bytes were taken.
pub(crate) fn first_packets<F: Shelf>(
    alloc: Global,
    shelf: &mut F,
    schema: PacketSchema,
    truncated: bool,
    most: usize,
) -> Result<Captured, Halt>
    ensures files { F.files shelf.new ≡ F.files shelf.old }
    ensures taken { TakesPackets schema truncated (λ kept what. captured kept ≡ first_of most what) (F.rest shelf.old) (F.rest shelf.new) result }
    ensures fit { IfOk result (λ kept. All (Fits (attrs_by schema)) kept.rows.items) }
    ensures cause { HasHaltCause (F.faults shelf.old) (F.faults shelf.new) result }
{
    let (mut pieces, mut rows) = Pieces::begin(alloc, shelf, schema)?;
    rows.truncate(most);
    while pieces.has_more() {
        let given = pieces.next(alloc, shelf)?;
        keep_first(&mut rows, given, most)?;
    }
    let cut = pieces.finish(truncated)?;
    Ok(Captured { rows, cut })
}

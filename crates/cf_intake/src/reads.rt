// A capture of packets is read by single reads, and its rows come read by read.
ghost use Rattle.std.specs.Prelude.{◌≡◌, ◌≤◌, ◌<◌, ◌+◌, ◌*◌, ℕ, List, [], ◌++◌, None, Err, All, IfOk, IfSome, IsNone, length, option_map};
ghost use Rattle.cf_row.specs.Row.{Fits, RowValue};
ghost use Rattle.cf_row.specs.Schema6.{attrs_by};
ghost use Rattle.cf_intake.specs.Causes.{HasStopCause};
ghost use Rattle.cf_intake.specs.declared.refusal.Stop.TheVariants as stops;
ghost use Rattle.cf_intake.specs.Reading.{AddsFew, Feeds, IfReaderAt, reads_blocks, reads_scope};
ghost use Rattle.cf_intake.specs.Rows.{packet_rows};
ghost use Rattle.cf_intake.specs.Reads.{AreNumberedFrom, AreReadBy, FailsToRead, HasBroken, HasEndedAs, HasNext, HasNextFrom, HasNotBroken, HaveRead, IsUnderWay, MovesPiece, WhileReading, most_moved, view_by};

use crate::pieces::{feed_rows, links_of};
use crate::reader::Reader;
use crate::refusal::{Halt, Refusal, Stop};
use crate::rows::{numbered_rows, rows_of};
use cf_outside::Shelf;
use cf_pcap::{Frame, Scope};
use cf_row::{Memory, PacketSchema, Row};
use std::alloc::Global;

/// The most bytes that a read moves of a capture that is followed while it comes.
pub const PIECE: usize = 65536;

/// So many bytes tell the format of a capture.
const FORMAT: usize = 4;

/// The opened capture of packets, which is read by single reads: the rows of the records that a read ends come with it.
#[derive(Drop)]
pub struct Reads {
    // By which the rows are made.
    schema: PacketSchema,
    // Once the format is known.
    reader: Option<Reader>,
    // The bytes that came before.
    held: Vec<u8>,
    buf: Vec<u8>,
}

// A reader of the format that the bytes tell, which has taken them, and the frames that end in them.
fn begin_reader(
    alloc: Global,
    schema: PacketSchema,
    held: &[u8],
) -> Result<(Reader, Vec<Frame>), Memory>
    requires { 4 ≤ length held.now }
    ensures begun { IfOk result (λ begun. IsUnderWay schema begun.0 held.now (packet_rows schema begun.1.items)) }
    ensures few { IfOk result (λ begun. 16 * length begun.1.items ≤ length held.now) }
{
    let mut reader = Reader::of(alloc, held, Scope::unlimited(links_of(schema)))?;
    let mut frames = Vec::new(alloc);
    reader.feed(held, &mut frames)?;
    Ok((reader, frames))
}

// The frames that a piece ends while the format is not known before it.
fn first_frames(
    alloc: Global,
    schema: PacketSchema,
    reader: &mut Option<Reader>,
    held: &mut Vec<u8>,
    piece: &[u8],
) -> Result<Vec<Frame>, Memory>
    requires { reader.old ≡ None }
    ensures read { IfOk result (λ given. (bytes : List ℕ) (rows : List RowValue) → AreReadBy schema None held.old.items bytes rows
        → AreReadBy schema reader.new held.new.items (bytes ++ piece.now) (rows ++ packet_rows schema given.items)) }
    ensures few { IfOk result (λ given. (bytes : List ℕ) (rows : List RowValue) → AreReadBy schema None held.old.items bytes rows
        → 16 * length given.items ≤ length piece.now + 15) }
{
    held.extend_from_slice(piece)?;
    if held.len() < FORMAT {
        return Ok(Vec::new(alloc));
    }
    let (begun, frames) = begin_reader(alloc, schema, held)?;
    *reader = Some(begun);
    Ok(frames)
}

// The frames that a piece ends, after some reader's.
fn feed_frames(alloc: Global, reader: &mut Reader, piece: &[u8]) -> Result<Vec<Frame>, Memory>
    ensures blocks { reads_blocks reader.new ≡ reads_blocks reader.old }
    ensures scope { reads_scope reader.new ≡ reads_scope reader.old }
    ensures fed { IfOk result (λ frames. Feeds reader.old reader.new piece.now frames.items) }
    ensures few { IfOk result (λ frames. IfReaderAt reader.old (AddsFew piece.now [] frames.items)) }
{
    let mut frames = Vec::new(alloc);
    reader.feed(piece, &mut frames)?;
    Ok(frames)
}

// The frames that a piece ends.
fn next_frames(
    alloc: Global,
    schema: PacketSchema,
    reader: &mut Option<Reader>,
    held: &mut Vec<u8>,
    piece: &[u8],
) -> Result<Vec<Frame>, Memory>
    ensures read { IfOk result (λ given. (bytes : List ℕ) (rows : List RowValue) → AreReadBy schema reader.old held.old.items bytes rows
        → AreReadBy schema reader.new held.new.items (bytes ++ piece.now) (rows ++ packet_rows schema given.items)) }
    ensures few { IfOk result (λ given. (bytes : List ℕ) (rows : List RowValue) → AreReadBy schema reader.old held.old.items bytes rows
        → 16 * length given.items ≤ length piece.now + 15) }
{
    match reader {
        Some(reader) => feed_frames(alloc, reader, piece),
        None => first_frames(alloc, schema, reader, held, piece),
    }
}

impl Reads {
    /// Nothing of the opened capture was read, of which rows come by that schema. One read moves so many bytes at most.
    pub fn begin(alloc: Global, schema: PacketSchema, most: usize) -> Result<Reads, Memory>
        requires some { 0 < most }
        ensures begun { IfOk result (λ reads. HaveRead reads [] []) }
        ensures schema { IfOk result (λ reads. reads.schema ≡ schema) }
        ensures size { IfOk result (λ reads. most_moved reads ≡ most) }
    {
        Ok(Reads {
            schema,
            reader: None,
            held: Vec::new(alloc),
            buf: vec![in alloc; 0u8; most]?,
        })
    }

    // Reads once, and gives the frames of the records that the read ended, or nothing at the end.
    fn next_frames<F: Shelf>(
        &mut self,
        alloc: Global,
        shelf: &mut F,
    ) -> Result<Option<Vec<Frame>>, Stop>
        ensures files { F.files shelf.new ≡ F.files shelf.old }
        ensures read { IfOk result (λ given. HasNext self.old self.new (view_by (F.rest shelf.old) (F.moved shelf.old))
            (view_by (F.rest shelf.new) (F.moved shelf.new)) (option_map (λ frames. packet_rows self.old.schema frames.items) given)) }
        ensures few { IfOk result (λ given. IfSome given (λ frames. WhileReading self.old (16 * length frames.items ≤ most_moved self.old + 15))) }
        ensures schema { self.new.schema ≡ self.old.schema }
        ensures stopped { result ≡ Err stops.Memory → WhileReading self.old ((piece : List ℕ) × MovesPiece (most_moved self.old) (view_by (F.rest shelf.old) (F.moved shelf.old))
            (view_by (F.rest shelf.new) (F.moved shelf.new)) piece) }
        ensures failed { result ≡ Err stops.ReadFault → FailsToRead (view_by (F.rest shelf.old) (F.moved shelf.old))
            (view_by (F.rest shelf.new) (F.moved shelf.new)) }
        ensures cause { HasStopCause (F.faults shelf.old) (F.faults shelf.new) result }
    {
        let count = shelf.read(&mut self.buf)?;
        if count == 0 {
            return Ok(None);
        }
        let frames = next_frames(
            alloc,
            self.schema,
            &mut self.reader,
            &mut self.held,
            &self.buf[..count],
        )?;
        Ok(Some(frames))
    }

    /// Reads once, and gives the rows of the records that the read ended, or nothing at the end. After an error there is nothing more
    /// to be read.
    pub fn next<F: Shelf>(&mut self, alloc: Global, shelf: &mut F) -> Result<Option<Vec<Row>>, Stop>
        ensures files { F.files shelf.new ≡ F.files shelf.old }
        ensures read { IfOk result (λ given. HasNext self.old self.new (view_by (F.rest shelf.old) (F.moved shelf.old))
            (view_by (F.rest shelf.new) (F.moved shelf.new)) (option_map (λ rows. rows.items) given)) }
        ensures few { IfOk result (λ given. IfSome given (λ rows. WhileReading self.old (16 * length rows.items ≤ most_moved self.old + 15))) }
        ensures fit { IfOk result (λ given. IfSome given (λ rows. All (Fits (attrs_by self.old.schema)) rows.items)) }
        ensures schema { self.new.schema ≡ self.old.schema }
        ensures numbered { IfOk result (λ given. IfSome given (λ rows. (bytes : List ℕ) (before : List RowValue) → HaveRead self.old bytes before
            → AreNumberedFrom (length before) rows.items)) }
        ensures stopped { result ≡ Err stops.Memory → WhileReading self.old ((piece : List ℕ) × MovesPiece (most_moved self.old) (view_by (F.rest shelf.old) (F.moved shelf.old))
            (view_by (F.rest shelf.new) (F.moved shelf.new)) piece) }
        ensures failed { result ≡ Err stops.ReadFault → FailsToRead (view_by (F.rest shelf.old) (F.moved shelf.old))
            (view_by (F.rest shelf.new) (F.moved shelf.new)) }
        ensures cause { HasStopCause (F.faults shelf.old) (F.faults shelf.new) result }
    {
        match self.next_frames(alloc, shelf)? {
            Some(frames) => Ok(Some(rows_of(alloc, &frames, self.schema)?)),
            None => Ok(None),
        }
    }

    /// The same with rows that are numbered from this number on, up to 2^32 - 1.
    pub(crate) fn next_from<F: Shelf>(
        &mut self,
        alloc: Global,
        shelf: &mut F,
        first: u32,
    ) -> Result<Option<Vec<Row>>, Stop>
        ensures files { F.files shelf.new ≡ F.files shelf.old }
        ensures read { IfOk result (λ given. HasNextFrom first self.old self.new (view_by (F.rest shelf.old) (F.moved shelf.old))
            (view_by (F.rest shelf.new) (F.moved shelf.new)) (option_map (λ rows. rows.items) given)) }
        ensures few { IfOk result (λ given. IfSome given (λ rows. WhileReading self.old (16 * length rows.items ≤ most_moved self.old + 15))) }
        ensures fit { IfOk result (λ given. IfSome given (λ rows. All (Fits (attrs_by self.old.schema)) rows.items)) }
        ensures schema { self.new.schema ≡ self.old.schema }
        ensures cause { HasStopCause (F.faults shelf.old) (F.faults shelf.new) result }
    {
        match self.next_frames(alloc, shelf)? {
            Some(frames) => Ok(Some(numbered_rows(alloc, frames, self.schema, first)?)),
            None => Ok(None),
        }
    }

    /// Why the capture is refused, whatever follows, if what was read shows its fault.
    pub fn fault(&self) -> Option<Refusal>
        ensures found { IfSome result (HasBroken self.now) }
        ensures none { IsNone result → HasNotBroken self.now }
    {
        match &self.reader {
            Some(reader) => reader.fault(),
            None => None,
        }
    }

    /// What the end says: the rows that came are those of the capture, or it has a fault. One that may be truncated says within which
    /// record it ends, if it does.
    pub fn finish(self, alloc: Global, truncated: bool) -> Result<Option<u64>, Halt>
        ensures { HasEndedAs truncated self result }
    {
        let Reads {
            schema,
            reader,
            held,
            ..
        } = self;
        match reader {
            Some(reader) => reader.finish(truncated),
            None => {
                let mut reader = Reader::of(alloc, &held, Scope::unlimited(links_of(schema)))?;
                feed_rows(alloc, &mut reader, &held, schema)?;
                reader.finish(truncated)
            }
        }
    }
}

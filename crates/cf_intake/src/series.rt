// Captures of packets, of any length, are read one after another.
ghost use Rattle.std.specs.Prelude.{◌≡◌, ◌<◌, ◌≤◌, ℕ, List, [], None, Some, Err, All, IfOk, IfSome, MatchResult, length, Option};
ghost use Rattle.cf_outside.specs.Files.{File};
ghost use Rattle.cf_row.specs.Schema6.{attrs_by};
ghost use Rattle.cf_row.specs.Row.{Fits, RowValue};
ghost use Rattle.cf_intake.specs.Causes.{HasHaltCause};
ghost use Rattle.cf_intake.specs.Files.{HasLeft};
ghost use Rattle.cf_intake.specs.Reads.{WhileReading};
ghost use Rattle.cf_intake.specs.declared.refusal.Halt.TheVariants.{Stopped};
ghost use Rattle.cf_intake.specs.declared.refusal.Stop.TheVariants as stops;
ghost use Rattle.cf_intake.specs.Series.{HasCome, IsSeriesAt, IsUnopened, KeepsSeries, SeriesComesTo, reading, result_rows};

use crate::devices::ReadError;
use crate::reads::Reads;
use crate::refusal::{Halt, Stop};
use cf_outside::Shelf;
use cf_row::{PacketSchema, Row};
use std::alloc::Global;

/// The most bytes that a read moves.
const PIECE: usize = 262_144;

/// Captures of packets, of any length, that are read one after another by single reads: each is opened when the one before has been read to its
/// end. Their rows are numbered one by one over all captures, up to 2^32 - 1.
#[derive(Drop)]
pub struct Series<'a> {
    names: &'a [&'a str],
    // By which the rows are made.
    schema: PacketSchema,
    // A capture that ends within a record has the records before it.
    truncated: bool,
    // How many captures were read to their ends.
    place: usize,
    // Of the next one, if it is open.
    reads: Option<Reads>,
    // How many records came.
    count: u64,
    // Within which record each of the captures ends that were read, if it does.
    cuts: Vec<Option<u64>>,
}

// Opens the capture of that name.
fn open_capture<F: Shelf>(shelf: &mut F, name: &str) -> Result<(), Halt>
    ensures files { F.files shelf.new ≡ F.files shelf.old }
    ensures opened { MatchResult result (λ _. HasCome (F.files shelf.old) name.now [] (F.rest shelf.new))
        (IsUnopened (F.files shelf.old) name.now (F.rest shelf.old) (F.rest shelf.new)) }
    ensures cause { HasHaltCause (F.faults shelf.old) (F.faults shelf.new) result }
{
    match shelf.open(name) {
        Ok(()) => Ok(()),
        Err(fault) => Err(Halt::from(ReadError::from(fault))),
    }
}

impl<'a> Series<'a> {
    /// None of the captures of these names is open, of which rows come by that schema. They may be truncated or not.
    pub fn begin(
        alloc: Global,
        names: &'a [&'a str],
        schema: PacketSchema,
        truncated: bool,
    ) -> Series<'a>
        ensures names { result.names.now ≡ names.now }
        ensures schema { result.schema ≡ schema }
        ensures truncated { result.truncated ≡ truncated }
        ensures begun { (told : Option (List File)) (now : Option (List ℕ)) → HasLeft told now (Some []) → IsSeriesAt result told now [] }
    {
        Series {
            names,
            schema,
            truncated,
            place: 0,
            reads: None,
            count: 0,
            cuts: Vec::new(alloc),
        }
    }

    /// How many captures were read to their ends.
    pub fn place(&self) -> usize
        ensures { result ≡ self.now.place }
    {
        self.place
    }

    /// How many records came, or 2^64 - 1 if more did.
    pub fn count(&self) -> u64
        ensures { result ≡ self.now.count }
    {
        self.count
    }

    /// Within which record each of the captures ends that were read, if it does.
    pub fn into_cuts(self) -> Vec<Option<u64>>
        ensures { result ≡ self.entry.cuts }
    {
        self.cuts
    }

    // Opens the next capture.
    fn open<F: Shelf>(&mut self, alloc: Global, shelf: &mut F) -> Result<Option<Vec<Row>>, Halt>
        requires none { self.old.reads ≡ None }
        requires more { self.old.place < length self.old.names.now }
        ensures keeps { KeepsSeries self.old self.new }
        ensures files { F.files shelf.new ≡ F.files shelf.old }
        ensures read { (rows : List RowValue) → IsSeriesAt self.old (F.files shelf.old) (F.rest shelf.old) rows
            → SeriesComesTo self.new (F.files shelf.old) (F.rest shelf.new) rows (result_rows result) }
        ensures none_given { IfOk result (λ given. IfSome given (λ rows. rows.items ≡ [])) }
        ensures cause { HasHaltCause (F.faults shelf.old) (F.faults shelf.new) result }
    {
        open_capture(shelf, self.names[self.place])?;
        self.reads = Some(Reads::begin(alloc, self.schema, PIECE)?);
        Ok(Some(Vec::new(alloc)))
    }

    // The capture that is open has been read to its end.
    fn close(&mut self, alloc: Global, reads: Reads) -> Result<Option<Vec<Row>>, Halt>
        requires none { self.old.reads ≡ None }
        requires more { self.old.place < length self.old.names.now }
        ensures keeps { KeepsSeries self.old self.new }
        ensures read { (told : Option (List File)) (now : Option (List ℕ)) (rows : List RowValue) → IsSeriesAt (reading self.old reads) told now rows
            → HasLeft told now (Some []) → SeriesComesTo self.new told now rows (result_rows result) }
        ensures none_given { IfOk result (λ given. IfSome given (λ rows. rows.items ≡ [])) }
        ensures unfailed { WhileReading reads (result ≡ Err (Stopped stops.ReadFault) → ⊥) }
    {
        let cut = reads.finish(alloc, self.truncated)?;
        match self.cuts.push(cut) {
            Ok(()) => {}
            Err(_) => return Err(Halt::Stopped(Stop::Memory)),
        }
        self.place += 1;
        Ok(Some(Vec::new(alloc)))
    }

    // Reads once in the capture that is open.
    fn read<F: Shelf>(
        &mut self,
        alloc: Global,
        shelf: &mut F,
        mut reads: Reads,
    ) -> Result<Option<Vec<Row>>, Halt>
        requires none { self.old.reads ≡ None }
        requires more { self.old.place < length self.old.names.now }
        requires begun { (rows : List RowValue) × IsSeriesAt (reading self.old reads) (F.files shelf.old) (F.rest shelf.old) rows }
        ensures keeps { KeepsSeries self.old self.new }
        ensures files { F.files shelf.new ≡ F.files shelf.old }
        ensures read { (rows : List RowValue) → IsSeriesAt (reading self.old reads) (F.files shelf.old) (F.rest shelf.old) rows
            → SeriesComesTo self.new (F.files shelf.old) (F.rest shelf.new) rows (result_rows result) }
        ensures few { IfOk result (λ given. IfSome given (λ rows. length rows.items ≤ 16384)) }
        ensures fit { IfOk result (λ given. IfSome given (λ rows. All (Fits (attrs_by reads.schema)) rows.items)) }
        ensures cause { HasHaltCause (F.faults shelf.old) (F.faults shelf.new) result }
    {
        let first = self.count.min(u64::from(u32::MAX)) as u32;
        match reads.next_from(alloc, shelf, first)? {
            Some(rows) => {
                self.count = self.count.saturating_add(rows.len() as u64);
                self.reads = Some(reads);
                Ok(Some(rows))
            }
            None => self.close(alloc, reads),
        }
    }

    /// Opens the next capture, or reads once, and gives the rows of the records that the read ended, or nothing after the last capture. After an
    /// error there is nothing more to be read; if the capture that is next is refused for it, `place` captures are before that.
    pub fn next<F: Shelf>(&mut self, alloc: Global, shelf: &mut F) -> Result<Option<Vec<Row>>, Halt>
        requires begun { (rows : List RowValue) × IsSeriesAt self.old (F.files shelf.old) (F.rest shelf.old) rows }
        ensures keeps { KeepsSeries self.old self.new }
        ensures files { F.files shelf.new ≡ F.files shelf.old }
        ensures read { (rows : List RowValue) → IsSeriesAt self.old (F.files shelf.old) (F.rest shelf.old) rows
            → SeriesComesTo self.new (F.files shelf.old) (F.rest shelf.new) rows (result_rows result) }
        ensures few { IfOk result (λ given. IfSome given (λ rows. length rows.items ≤ 16384)) }
        ensures fit { IfOk result (λ given. IfSome given (λ rows. All (Fits (attrs_by self.old.schema)) rows.items)) }
        ensures cause { HasHaltCause (F.faults shelf.old) (F.faults shelf.new) result }
    {
        if let Some(reads) = self.reads.take() {
            return self.read(alloc, shelf, reads);
        }
        if self.place < self.names.len() {
            return self.open(alloc, shelf);
        }
        Ok(None)
    }
}

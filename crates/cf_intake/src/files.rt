// The setup and the rows of the files that the words name.
ghost use Rattle.std.specs.Prelude.{◌≡◌, Bool, false, All, Ok, IfOk, MatchResult};
ghost use Rattle.cf_outside.specs.Files.{Opens};
ghost use Rattle.cf_row.specs.Row.{Fits};
ghost use Rattle.cf_row.specs.Schema6.{attrs_by};
ghost use Rattle.cf_setup.specs.declared.source.Source.TheVariants.{Packets, Records};
ghost use Rattle.cf_row.specs.declared.packet6.PacketSchema.{PacketSchema};
ghost use Rattle.cf_intake.specs.Files.{setups, captures, IsReadAs, Halts};
ghost use Rattle.cf_intake.specs.Causes.{HasHaltCause};
ghost use Rattle.cf_intake.specs.Parts.{HasFirst, IsFirstOf, IsSetupRead, captured, captures_by, attrs_in};

use crate::devices::{ReadError, read_file};
use crate::pieces::first_packets;
use crate::refusal::Halt;
use crate::rows::{Captured, Format, Manner, first_records_of};
use cf_outside::Shelf;
use cf_row::{Row, Schema};
use cf_setup::{Setup, parse_setup};
use std::alloc::Global;

/// A setup of more bytes is no setup.
const SETUP_LIMIT: usize = 65537;

/// A file of records is shorter.
const RECORDS_LIMIT: usize = 1 << 24;

/// The setup in the file of that name.
pub fn read_setup<F: Shelf>(alloc: Global, shelf: &mut F, name: &str) -> Result<Setup, Halt>
    ensures files { F.files shelf.new ≡ F.files shelf.old }
    ensures read { MatchResult result (IsReadAs setups (F.files shelf.old) name.now (F.rest shelf.new))
        (Halts setups (F.files shelf.old) name.now (F.rest shelf.old) (F.rest shelf.new)) }
    ensures cause { HasHaltCause (F.faults shelf.old) (F.faults shelf.new) result }
    ensures lawful { IfOk result IsSetupRead }
{
    let bytes = read_file(alloc, shelf, name, SETUP_LIMIT)?;
    Ok(parse_setup(alloc, &bytes)?)
}

/// Opens the capture of packets of that name.
pub fn open_packets<F: Shelf>(shelf: &mut F, name: &str) -> Result<(), Halt>
    ensures files { F.files shelf.new ≡ F.files shelf.old }
    ensures opened { MatchResult result (λ done. Opens (F.files shelf.old) name.now (F.rest shelf.old) (F.rest shelf.new) (Ok done))
        (λ halt. (schema : PacketSchema) (truncated : Bool) → Halts (captures (Packets schema) truncated (attrs_by schema)) (F.files shelf.old) name.now (F.rest shelf.old) (F.rest shelf.new) halt) }
    ensures cause { HasHaltCause (F.faults shelf.old) (F.faults shelf.new) result }
{
    match shelf.open(name) {
        Ok(()) => Ok(()),
        Err(fault) => Err(Halt::from(ReadError::from(fault))),
    }
}

/// The first rows of the file of records of that name, so many at most. It is read whole, and each record is judged.
pub fn first_lines<F: Shelf>(
    alloc: Global,
    shelf: &mut F,
    name: &str,
    schema: &Schema,
    most: usize,
) -> Result<Vec<Row>, Halt>
    ensures files { F.files shelf.new ≡ F.files shelf.old }
    ensures read { MatchResult result (λ rows. HasFirst schema.now (F.files shelf.old) name.now (F.rest shelf.new) most rows.items)
        (Halts (captures Records false schema.now) (F.files shelf.old) name.now (F.rest shelf.old) (F.rest shelf.new)) }
    ensures fit { IfOk result (λ rows. All (Fits schema.now) rows.items) }
    ensures cause { HasHaltCause (F.faults shelf.old) (F.faults shelf.new) result }
{
    let bytes = read_file(alloc, shelf, name, RECORDS_LIMIT)?;
    first_records_of(alloc, schema, &bytes, most)
}

/// The first rows of the capture of that name, so many at most. It is read to its end, and each record is judged.
pub fn first_rows<F: Shelf>(
    alloc: Global,
    shelf: &mut F,
    name: &str,
    manner: Manner,
    most: usize,
) -> Result<Captured, Halt>
    ensures files { F.files shelf.new ≡ F.files shelf.old }
    ensures read { MatchResult result (λ kept. IsFirstOf (captures_by manner.entry) (F.files shelf.old) name.now (F.rest shelf.new) most (captured kept))
        (Halts (captures_by manner.entry) (F.files shelf.old) name.now (F.rest shelf.old) (F.rest shelf.new)) }
    ensures fit { IfOk result (λ kept. All (Fits (attrs_in manner.entry.format)) kept.rows.items) }
    ensures cause { HasHaltCause (F.faults shelf.old) (F.faults shelf.new) result }
{
    match manner.format {
        Format::Packets(schema) => {
            open_packets(shelf, name)?;
            first_packets(alloc, shelf, schema, manner.truncated, most)
        }
        Format::Records(schema) => {
            let rows = first_lines(alloc, shelf, name, schema, most)?;
            Ok(Captured { rows, cut: None })
        }
    }
}

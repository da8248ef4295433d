// A log is filled from the shelf: rows are taken as they come.
ghost use Rattle.std.specs.Prelude.{◌≡◌, ◌≤◌, ◌<◌, ◌+◌, [], length, true, All, IfOk, OnErr};
ghost use Rattle.std.specs.Thread.{IsSync};
ghost use Rattle.cf_row.specs.Row.{Fits};
ghost use Rattle.cf_row.specs.Schema6.{attrs_by};
ghost use Rattle.cf_intake.specs.Causes.{HasHaltCause, HasStopCause};
ghost use Rattle.cf_intake.specs.Parts.{source_in, attrs_in};
ghost use Rattle.cf_intake.specs.Reading.{HasMore, IfReadOn, ReadsOn, ReadsRows, StopsOn, TakesPackets, pieces_left};
ghost use Rattle.cf_fill.specs.Filling.{Fills, IsFilled, IsFilling, KeepsLog, WaitFew, most_waiting};
ghost use Rattle.cf_fill.specs.Taking.{GivesBoth};

use crate::context::Context;
use crate::filling::Filling;
use cf_intake::{Format, Halt, Manner, Pieces, Stop, first_lines, open_packets};
use cf_outside::{Gate, Shelf};
use cf_row::{Memory, PacketSchema, Row};
use std::thread::{Threads, join_mut};

// The rows at hand go into the log, in a thread of its own where one can be made, while this one reads on, until there are as many
// as end the next batch.
fn take_beside<R: Threads + Sync, F: Shelf, G: Gate>(
    context: &Context<'_, R, G>,
    shelf: &mut F,
    filling: &mut Filling,
    rows: &mut Vec<Row>,
    pieces: &mut Pieces,
) -> (Result<(), Memory>, Result<Vec<Row>, Stop>)
    requires fit { All (Fits filling.old.segments.shape.schema) rows.old.items }
    requires filled { IsFilling filling.old }
    requires more { HasMore pieces.old }
    requires few { length filling.old.waiting + length rows.old.items ≤ most_waiting }
    ensures keeps { KeepsLog filling.old filling.new }
    ensures filled { IfOk result.0 (λ _. Fills filling.old filling.new rows.old.items) }
    ensures stops { filling.old.loader.stopped ≡ true → filling.new.loader.stopped ≡ true }
    // While the batch that is at hand is loaded, few rows wait.
    ensures few { IfOk result.1 (λ given. IfReadOn pieces.old (F.rest shelf.old)
        (WaitFew filling.old.loader.plan (length filling.old.waiting + length rows.old.items) (length given.items))) }
    ensures files { F.files shelf.new ≡ F.files shelf.old }
    ensures schema { pieces.new.schema ≡ pieces.old.schema }
    ensures left { IfOk result.1 (λ _. pieces_left pieces.new < pieces_left pieces.old) }
    ensures read { IfOk result.1 (λ given. ReadsOn pieces.old pieces.new (F.rest shelf.old) (F.rest shelf.new) given.items) }
    ensures fit { IfOk result.1 (λ given. All (Fits (attrs_by pieces.old.schema)) given.items) }
    ensures stopped { OnErr result.1 (StopsOn pieces.old (F.rest shelf.old) (F.rest shelf.new)) }
    ensures cause { HasStopCause (F.faults shelf.old) (F.faults shelf.new) result.1 }
{
    let Context { rt, alloc, gate } = *context;
    let wanted = filling.wanted(rows.len());
    let mut take = || -> Result<(), Memory>
        requires { IsSync R.row × IsSync G.row × All (Fits filling.now.segments.shape.schema) rows.now.items × IsFilling filling.now }
        ensures keeps { KeepsLog filling.entry.now filling.exit.now }
        ensures filled { IfOk result (λ _. Fills filling.entry.now filling.exit.now rows.entry.now.items) }
        ensures stops { filling.entry.now.loader.stopped ≡ true → filling.exit.now.loader.stopped ≡ true }
    {
        let alloc = filling.alloc();
        filling.take_rows(&Context { rt, alloc, gate }, rows)
    };
    let mut read = || -> Result<Vec<Row>, Stop>
        requires { HasMore pieces.now × (0 < wanted) }
        ensures files { F.files shelf.exit.now ≡ F.files shelf.entry.now }
        ensures left { IfOk result (λ _. pieces_left pieces.exit.now < pieces_left pieces.entry.now) }
        ensures few { IfOk result (λ given. IfReadOn pieces.entry.now (F.rest shelf.entry.now) (length given.items < wanted + 4096)) }
        ensures read { IfOk result (λ given. ReadsOn pieces.entry.now pieces.exit.now (F.rest shelf.entry.now) (F.rest shelf.exit.now) given.items) }
        ensures schema { pieces.exit.now.schema ≡ pieces.entry.now.schema }
        ensures fit { IfOk result (λ given. All (Fits (attrs_by pieces.entry.now.schema)) given.items) }
        ensures stopped { OnErr result (StopsOn pieces.entry.now (F.rest shelf.entry.now) (F.rest shelf.exit.now)) }
        ensures cause { HasStopCause (F.faults shelf.entry.now) (F.faults shelf.exit.now) result }
    { pieces.next_rows(alloc, shelf, wanted) };
    join_mut(rt, &mut take, &mut read)
}

// What was read, once the rows before it are taken. A fault of the shelf goes before want of memory in the log.
fn both(taken: Result<(), Memory>, given: Result<Vec<Row>, Stop>) -> Result<Vec<Row>, Halt>
    ensures { GivesBoth taken given result }
{
    let rows = given?;
    taken?;
    Ok(rows)
}

/// Fills the log with the rows of the opened capture by that schema as they come. It is read to its end, or until 2^32 bytes were taken. One that may
/// be truncated says within which record it ends, if it does.
pub(crate) fn fill_packets<R: Threads + Sync, F: Shelf, G: Gate>(
    context: &Context<'_, R, G>,
    shelf: &mut F,
    schema: PacketSchema,
    truncated: bool,
    filling: &mut Filling,
) -> Result<Option<u64>, Halt>
    requires attrs { filling.old.segments.shape.schema ≡ attrs_by schema }
    requires none { IsFilled filling.old [] }
    ensures keeps { KeepsLog filling.old filling.new }
    ensures files { F.files shelf.new ≡ F.files shelf.old }
    ensures taken { TakesPackets schema truncated (λ cut what. (what.cut ≡ cut) × IsFilled filling.new what.rows) (F.rest shelf.old) (F.rest shelf.new) result }
    ensures cause { HasHaltCause (F.faults shelf.old) (F.faults shelf.new) result }
{
    let (mut pieces, mut rows) = Pieces::begin(context.alloc, shelf, schema)?;
    while pieces.has_more() {
        let (taken, given) = take_beside(context, shelf, filling, &mut rows, &mut pieces);
        rows = both(taken, given)?;
    }
    filling.take_rows(context, &mut rows)?;
    pieces.finish(truncated)
}

/// Fills the log with the rows of the capture of that name, and says within which record it ends, if it is truncated. Those of packets
/// are loaded while the rest is still to be read.
pub fn fill_rows<R: Threads + Sync, F: Shelf, G: Gate>(
    context: &Context<'_, R, G>,
    shelf: &mut F,
    name: &str,
    manner: Manner,
    filling: &mut Filling,
) -> Result<Option<u64>, Halt>
    requires attrs { filling.old.segments.shape.schema ≡ attrs_in manner.format }
    requires none { IsFilled filling.old [] }
    ensures keeps { KeepsLog filling.old filling.new }
    ensures files { F.files shelf.new ≡ F.files shelf.old }
    ensures read { ReadsRows (source_in manner.entry.format) manner.entry.truncated (attrs_in manner.entry.format)
        (IsFilled filling.new) (F.files shelf.old) name.now (F.rest shelf.old) (F.rest shelf.new) result }
    ensures cause { HasHaltCause (F.faults shelf.old) (F.faults shelf.new) result }
{
    match manner.format {
        Format::Packets(schema) => {
            open_packets(shelf, name)?;
            fill_packets(context, shelf, schema, manner.truncated, filling)
        }
        Format::Records(schema) => {
            // One row more than there is room for shows that there are more.
            let most = filling.room() as usize + 1;
            let mut rows = first_lines(context.alloc, shelf, name, schema, most)?;
            filling.take_rows(context, &mut rows)?;
            Ok(None)
        }
    }
}

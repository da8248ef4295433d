// The answers about captures of any length, end to end.
ghost use Rattle.std.specs.Prelude.{◌≡◌, ◌<◌, ◌≤◌, ◌-◌, ◌^◌, ◌++◌, ℕ, List, Option, Some, IfOk, OnOk, MatchResult, length, min, string_bytes};
ghost use Rattle.cf_command.specs.Call.{IsLongInRange, long_by};
ghost use Rattle.cf_command.specs.Call.Call.{long};
ghost use Rattle.cf_intake.specs.Causes.{HasHaltCause, HasStopCause};
ghost use Rattle.cf_intake.specs.declared.refusal.Stop.TheVariants as stops;
ghost use Rattle.cf_run.specs.Lengths.{are_several as are_several_in, cut_line, cut_lines, line_among};
ghost use Rattle.cf_intake.specs.Several.{names_in};
ghost use Rattle.cf_run.specs.Parts.{IsLongBegun, IsPrepared, IsRefusedBy, IsTold, LongBegins};

use crate::reply::{WorkReply, refused};
use crate::watched::packets_of;
use cf_command::{LogSizes, LongCommand};
use cf_fill::Context;
use cf_follow::push_truncated;
use cf_intake::{Halt, Refusal, Series, Stop, read_setup};
use cf_long::{KeptLong, long_of, series_report};
use cf_outside::{Gate, Shelf};
use cf_row::{Memory, PacketSchema};
use cf_setup::Setup;
use std::alloc::Global;
use std::fmt::Write;
use std::thread::Threads;

// What is asked of the records of captures, by which schema these are read, and the log that they go into.
#[derive(Drop)]
struct LongWork {
    setup: Setup,
    schema: PacketSchema,
    long: KeptLong,
}

// Reads the setup, which must be over packets, and opens a log for it.
fn begin<F: Shelf>(alloc: Global, command: &LongCommand, shelf: &mut F) -> Result<LongWork, Halt>
    requires { IsLongInRange command.now }
    ensures files { F.files shelf.new ≡ F.files shelf.old }
    ensures begins { LongBegins (F.files shelf.old) (long_by command.now) (F.rest shelf.old) (F.rest shelf.new) result }
    ensures cause { HasHaltCause (F.faults shelf.old) (F.faults shelf.new) result }
{
    let setup = read_setup(alloc, shelf, command.setup)?;
    let schema = packets_of(&setup)?;
    let LogSizes {
        writers,
        capacity,
        nodes,
        ..
    } = command.sizes;
    let long = long_of(alloc, &setup, capacity, writers, nodes)?;
    Ok(LongWork {
        setup,
        schema,
        long,
    })
}

// Whether more captures than one are named.
fn are_several(names: &[&str]) -> bool
    ensures { result ≡ are_several_in (names_in names.now) }
{
    if names.len() == 1 {
        return false;
    }
    true
}

// The line of the capture behind so many others, if it ends within that record. Where several are named, it says which.
fn push_cut(text: &mut String, several: bool, place: usize, cut: Option<u64>) -> Result<(), Memory>
    requires { place < 4096 }
    ensures { OnOk result (string_bytes text.new ≡ string_bytes text.old ++ cut_line several place cut) }
{
    if !several {
        return push_truncated(text, cut);
    }
    let Some(record) = cut else {
        return Ok(());
    };
    let capture = place + 1;
    write!(text, "truncated: capture {capture} record {record}\n")
}

// A text about captures, with the lines of those that end within records behind it.
fn with_cuts(
    alloc: Global,
    mut text: Vec<u8>,
    several: bool,
    cuts: &[Option<u64>],
) -> Result<WorkReply, Memory>
    requires { length cuts.now ≤ 4096 }
    ensures { IfOk result (λ reply. IsTold reply (text.items ++ cut_lines several cuts.now)) }
{
    let mut lines = String::new(alloc);
    for place in 0..cuts.len() {
        push_cut(&mut lines, several, place, cuts[place])?;
    }
    text.extend_from_slice(lines.as_bytes())?;
    let seals = Vec::new(alloc);
    Ok(WorkReply::Done { text, seals })
}

// The line of what refuses the capture behind so many others, of which there are few. Where several are named, it says which.
fn refused_among(
    alloc: Global,
    several: bool,
    place: usize,
    refusal: Refusal,
) -> Result<WorkReply, Stop>
    ensures { MatchResult result (IsRefusedBy refusal (line_among several (min place (2 ^ 32 - 2)) refusal)) (λ stop. stop ≡ stops.Memory) }
{
    if !several {
        return refused(alloc, refusal);
    }
    let place = place.min(u32::MAX as usize - 1) as u32 + 1;
    let text = refusal.line_at(alloc, place)?.into_bytes();
    Ok(WorkReply::Refused { refusal, text })
}

// Reads the captures and answers about all their records.
fn read_long<R: Threads + Sync, F: Shelf, G: Gate>(
    context: &Context<'_, R, G>,
    command: &LongCommand,
    shelf: &mut F,
    work: LongWork,
) -> Result<WorkReply, Stop>
    requires range { IsLongInRange command.now }
    requires begun { IsLongBegun (F.files shelf.old) (long_by command.now) (F.rest shelf.old) work }
    ensures files { F.files shelf.new ≡ F.files shelf.old }
    ensures prepared { (before : Option (List ℕ)) → IsPrepared (F.files shelf.old) (Some (long (long_by command.now))) before (F.rest shelf.new) result }
    ensures cause { HasStopCause (F.faults shelf.old) (F.faults shelf.new) result }
{
    let LongWork {
        setup,
        schema,
        long,
    } = work;
    let alloc = context.alloc;
    let several = are_several(&command.captures);
    let mut series = Series::begin(alloc, &command.captures, schema, command.truncated);
    match series_report(context, shelf, &setup, &mut series, long) {
        Ok(text) => Ok(with_cuts(alloc, text, several, &series.into_cuts())?),
        Err(Halt::Refused(why)) => refused_among(alloc, several, series.place(), why),
        Err(Halt::Stopped(stop)) => Err(stop),
    }
}

/// The reply to a command over captures of any length, or why nothing is written: the final part of the setup's report over all their
/// records, end to end, and the lines of those that end within records; or the line of a refusal.
pub(crate) fn prepare_long<R: Threads + Sync, F: Shelf, G: Gate>(
    context: &Context<'_, R, G>,
    command: &LongCommand,
    shelf: &mut F,
) -> Result<WorkReply, Stop>
    requires { IsLongInRange command.now }
    ensures files { F.files shelf.new ≡ F.files shelf.old }
    ensures prepared { IsPrepared (F.files shelf.old) (Some (long (long_by command.now))) (F.rest shelf.old) (F.rest shelf.new) result }
    ensures cause { HasStopCause (F.faults shelf.old) (F.faults shelf.new) result }
{
    match begin(context.alloc, command, shelf) {
        Ok(work) => read_long(context, command, shelf, work),
        Err(Halt::Refused(refusal)) => refused(context.alloc, refusal),
        Err(Halt::Stopped(stop)) => Err(stop),
    }
}

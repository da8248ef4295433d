// A command's work, up to the text to write.
ghost use Rattle.std.specs.Prelude.{◌≡◌, ◌≤◌, ◌^◌, Some, None, IfSome, option_map};
ghost use Rattle.cf_command.specs.Call.{AreSizes, IsInRange, IsSnapshotInRange, call_by, run_by, synth_by, dump_by, snapshot_by};
ghost use Rattle.cf_command.specs.Call.Call.{run, synth, dump, snapshot};
ghost use Rattle.cf_intake.specs.Causes.{HasHaltCause, HasStopCause};
ghost use Rattle.cf_run.specs.Parts.{EndsWith, IsPrepared};
ghost use Rattle.cf_run.specs.Watched.{HasProduct, IsNoWatch};
ghost use Rattle.cf_fill.specs.Work.{draws as draws_from};

use crate::listed::list_rows;
use crate::long_run::prepare_long;
use crate::reply::{WorkReply, refused};
use crate::snapshot::{is_some_full, snapshot_text};
use crate::truncated::with_truncated;
use cf_command::{Command, DumpCommand, RunCommand, SnapshotCommand, SynthCommand};
use cf_fill::{Context, Product, fill_drawn, fill_rows, final_of, opened, report_of};
use cf_intake::{Halt, Manner, Refusal, Stop, format_of, read_hosts, read_setup};
use cf_outside::{Gate, Shelf};
use cf_report::Listing;
use cf_row::PacketSchema;
use cf_setup::Source;
use cf_snapshot::Untaken;
use std::alloc::Global;
use std::thread::Threads;

// The report of a run.
fn run_report<R: Threads + Sync, F: Shelf, G: Gate>(
    context: &Context<'_, R, G>,
    command: &RunCommand,
    shelf: &mut F,
) -> Result<Product, Halt>
    requires { AreSizes command.now.sizes }
    ensures files { F.files shelf.new ≡ F.files shelf.old }
    ensures ends { EndsWith (F.files shelf.old) (Some (run (run_by command.now))) (F.rest shelf.old) (F.rest shelf.new) result }
    ensures cause { HasHaltCause (F.faults shelf.old) (F.faults shelf.new) result }
{
    let alloc = context.alloc;
    let setup = read_setup(alloc, shelf, command.setup)?;
    let sizes = command.sizes;
    let mut filling = opened(alloc, &setup, sizes, command.rounds)?;
    let manner = Manner {
        format: format_of(&setup),
        truncated: command.truncated,
    };
    let cut = fill_rows(context, shelf, command.capture, manner, &mut filling)?;
    if filling.is_full() {
        let most = sizes.most() as u64;
        return Err(Halt::Refused(Refusal::Full { most }));
    }
    match report_of(context, &setup, filling) {
        Ok(Product { text: body, seals }) => {
            let text = with_truncated(alloc, body, cut)?;
            Ok(Product { text, seals })
        }
        Err(why) => Err(why.halt(sizes.nodes)),
    }
}

// Whether a synth can draw rows for a setup over this.
fn draws(source: Source) -> bool
    ensures { result ≡ draws_from source }
{
    matches!(source, Source::Packets(PacketSchema::Packet))
}

// The answers of a synth.
fn synth_answers<R: Threads + Sync, F: Shelf, G: Gate>(
    context: &Context<'_, R, G>,
    command: &SynthCommand,
    shelf: &mut F,
) -> Result<Product, Halt>
    requires sizes { AreSizes command.now.sizes }
    requires few { command.now.count ≤ 2 ^ 20 }
    ensures files { F.files shelf.new ≡ F.files shelf.old }
    ensures ends { EndsWith (F.files shelf.old) (Some (synth (synth_by command.now))) (F.rest shelf.old) (F.rest shelf.new) result }
    ensures cause { HasHaltCause (F.faults shelf.old) (F.faults shelf.new) result }
{
    let alloc = context.alloc;
    let setup = read_setup(alloc, shelf, command.setup)?;
    if !draws(setup.source()) {
        let line = setup.schema_line();
        return Err(Halt::Refused(Refusal::Setup { line, code: 4 }));
    }
    let sizes = command.sizes;
    let most = sizes.most();
    // Each packet is a row.
    if command.count > most {
        let most = most as u64;
        return Err(Halt::Refused(Refusal::Full { most }));
    }
    let mut filling = opened(alloc, &setup, sizes, 0)?;
    fill_drawn(context, command.seed, command.count, &mut filling)?;
    match final_of(context, &setup, filling) {
        Ok(product) => Ok(product),
        Err(why) => Err(why.halt(sizes.nodes)),
    }
}

// The lines of a dump.
fn dump_listing<F: Shelf>(
    alloc: Global,
    command: &DumpCommand,
    shelf: &mut F,
) -> Result<Product, Halt>
    ensures files { F.files shelf.new ≡ F.files shelf.old }
    ensures ends { EndsWith (F.files shelf.old) (Some (dump (dump_by command.now))) (F.rest shelf.old) (F.rest shelf.new) result }
    ensures cause { HasHaltCause (F.faults shelf.old) (F.faults shelf.new) result }
{
    let mut listing = Listing::new(alloc);
    let DumpCommand {
        capture,
        schema,
        truncated,
    } = *command;
    let cut = list_rows(alloc, shelf, capture, schema, truncated, &mut listing)?;
    let text = with_truncated(alloc, listing.into_text(alloc)?, cut)?;
    let seals = Vec::new(alloc);
    Ok(Product { text, seals })
}

// The answers of a snapshot, at its cut.
fn snapshot_answers<F: Shelf>(
    alloc: Global,
    command: &SnapshotCommand,
    shelf: &mut F,
) -> Result<Product, Halt>
    requires { IsSnapshotInRange command.now }
    ensures files { F.files shelf.new ≡ F.files shelf.old }
    ensures ends { EndsWith (F.files shelf.old) (Some (snapshot (snapshot_by command.now))) (F.rest shelf.old) (F.rest shelf.new) result }
    ensures cause { HasHaltCause (F.faults shelf.old) (F.faults shelf.new) result }
{
    let setup = read_setup(alloc, shelf, command.setup)?;
    let manner = Manner {
        format: format_of(&setup),
        truncated: command.truncated,
    };
    let sizes = command.sizes;
    // One row more than there is room for shows that there are more.
    let most = sizes.capacity as usize + 1;
    let captures = read_hosts(alloc, shelf, &command.captures, manner, most)?;
    if is_some_full(&captures, sizes.capacity) {
        let most = sizes.capacity as u64;
        return Err(Halt::Refused(Refusal::Full { most }));
    }
    match snapshot_text(alloc, command, &setup, captures) {
        Ok(text) => {
            let seals = Vec::new(alloc);
            Ok(Product { text, seals })
        }
        Err(Untaken::Nodes) => Err(Halt::Refused(Refusal::Nodes { nodes: sizes.nodes })),
        Err(Untaken::Memory) => Err(Halt::Stopped(Stop::Memory)),
    }
}

// The product of a command that has one: it is no watch and no run over captures of any length. No command means that the words are none.
fn product_of<R: Threads + Sync, F: Shelf, G: Gate>(
    context: &Context<'_, R, G>,
    command: Option<Command>,
    shelf: &mut F,
) -> Result<Product, Halt>
    requires range { IfSome command IsInRange }
    requires whole { HasProduct (option_map call_by command) }
    ensures files { F.files shelf.new ≡ F.files shelf.old }
    ensures ends { EndsWith (F.files shelf.old) (option_map call_by command.entry) (F.rest shelf.old) (F.rest shelf.new) result }
    ensures cause { HasHaltCause (F.faults shelf.old) (F.faults shelf.new) result }
    ensures no_words { option_map call_by command.entry ≡ None → shelf.new ≡ shelf.old }
{
    match command {
        Some(Command::Run(command)) => run_report(context, &command, shelf),
        Some(Command::Synth(command)) => synth_answers(context, &command, shelf),
        Some(Command::Dump(command)) => dump_listing(context.alloc, &command, shelf),
        Some(Command::Snapshot(command)) => snapshot_answers(context.alloc, &command, shelf),
        // These two have no product.
        Some(Command::Watch(_)) => unreachable!(),
        Some(Command::Long(_)) => unreachable!(),
        None => Err(Halt::Refused(Refusal::Words)),
    }
}

// The reply to a command that has a product, or why nothing is written.
fn prepare_product<R: Threads + Sync, F: Shelf, G: Gate>(
    context: &Context<'_, R, G>,
    command: Option<Command>,
    shelf: &mut F,
) -> Result<WorkReply, Stop>
    requires range { IfSome command IsInRange }
    requires whole { HasProduct (option_map call_by command) }
    ensures files { F.files shelf.new ≡ F.files shelf.old }
    ensures prepared { IsPrepared (F.files shelf.old) (option_map call_by command.entry) (F.rest shelf.old) (F.rest shelf.new) result }
    ensures cause { HasStopCause (F.faults shelf.old) (F.faults shelf.new) result }
    ensures no_words { option_map call_by command.entry ≡ None → shelf.new ≡ shelf.old }
{
    match product_of(context, command, shelf) {
        Ok(Product { text, seals }) => Ok(WorkReply::Done { text, seals }),
        Err(Halt::Refused(refusal)) => refused(context.alloc, refusal),
        Err(Halt::Stopped(stop)) => Err(stop),
    }
}

/// The reply to a command, which is no watch, or why nothing is written. No command means that the words are none.
pub(crate) fn prepare<R: Threads + Sync, F: Shelf, G: Gate>(
    context: &Context<'_, R, G>,
    command: Option<Command>,
    shelf: &mut F,
) -> Result<WorkReply, Stop>
    requires range { IfSome command IsInRange }
    requires whole { IsNoWatch (option_map call_by command) }
    ensures files { F.files shelf.new ≡ F.files shelf.old }
    ensures prepared { IsPrepared (F.files shelf.old) (option_map call_by command.entry) (F.rest shelf.old) (F.rest shelf.new) result }
    ensures cause { HasStopCause (F.faults shelf.old) (F.faults shelf.new) result }
    ensures no_words { option_map call_by command.entry ≡ None → shelf.new ≡ shelf.old }
{
    match command {
        Some(Command::Long(command)) => prepare_long(context, &command, shelf),
        _ => prepare_product(context, command, shelf),
    }
}

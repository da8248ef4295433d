// A capture is watched.
ghost use Rattle.std.specs.Prelude.{◌≡◌, ◌⊎◌, ◌≤◌, ℕ, List, [], Option, Some, Ok, Err, IfSome, MatchResult};
ghost use Rattle.std.specs.Io.KnownBytes.{Keeps};
ghost use Rattle.cf_command.specs.Call.{AreWindowSizes, watch_by};
ghost use Rattle.cf_command.specs.Call.Call.{watch};
ghost use Rattle.cf_outside.specs.Causes.{Rose};
ghost use Rattle.cf_intake.specs.Causes.{HasHaltCause};
ghost use Rattle.cf_run.specs.Answers.{IsByCall, IsDecided, RunAnswers, Yields};
ghost use Rattle.cf_run.specs.Due.{IsLawful};
ghost use Rattle.cf_run.specs.Parts.{WatchBegins, IsUnopened, Refuses, packets_from};
ghost use Rattle.cf_run.specs.Watched.{IsOpened};

use crate::Status;
use cf_command::WatchCommand;
use cf_follow::{Intervals, Watch, follow};
use cf_intake::{Halt, Refusal, Stop, read_setup, write_all};
use cf_outside::{OpenFault, Shelf, Sink};
use cf_row::PacketSchema;
use cf_setup::{Setup, Source};
use std::alloc::Global;
use std::thread::Threads;

/// The schema of the packets that a setup is over.
pub(crate) fn packets_of(setup: &Setup) -> Result<PacketSchema, Halt>
    ensures { result ≡ packets_from setup.now.source setup.now.schema_line }
{
    match setup.source() {
        Source::Packets(schema) => Ok(schema),
        Source::Records => {
            let line = setup.schema_line();
            Err(Halt::Refused(Refusal::Setup { line, code: 4 }))
        }
    }
}

// Opens the capture of that name.
fn open_capture<F: Shelf>(shelf: &mut F, name: &str) -> Result<(), Halt>
    ensures files { F.files shelf.new ≡ F.files shelf.old }
    ensures opened { MatchResult result (λ _. IsOpened (F.files shelf.old) name.now (F.rest shelf.new)) (IsUnopened (F.files shelf.old) name.now (F.rest shelf.old) (F.rest shelf.new)) }
    ensures cause { HasHaltCause (F.faults shelf.old) (F.faults shelf.new) result }
{
    match shelf.open(name) {
        Ok(()) => Ok(()),
        Err(OpenFault::Missing) => Err(Halt::Refused(Refusal::NoFile)),
        Err(OpenFault::Failed) => Err(Halt::Stopped(Stop::ReadFault)),
        Err(OpenFault::Memory) => Err(Halt::Stopped(Stop::Memory)),
    }
}

// Reads the setup, opens the capture, and prepares to follow it.
fn begin<F: Shelf>(alloc: Global, command: &WatchCommand, shelf: &mut F) -> Result<Watch, Halt>
    requires { AreWindowSizes command.now.sizes }
    ensures files { F.files shelf.new ≡ F.files shelf.old }
    ensures begins { WatchBegins (F.files shelf.old) (watch_by command.now) (F.rest shelf.old) (F.rest shelf.new) result }
    ensures cause { HasHaltCause (F.faults shelf.old) (F.faults shelf.new) result }
{
    let setup = read_setup(alloc, shelf, command.setup)?;
    let schema = packets_of(&setup)?;
    open_capture(shelf, command.capture)?;
    let WatchCommand {
        sizes,
        every,
        beat,
        truncated,
        ..
    } = *command;
    let intervals = Intervals { lives: every, beat };
    let watching = Watch::begin(alloc, setup, sizes, intervals, truncated, schema)?;
    Ok(watching)
}

// The line of a refusal is written.
fn refuse<K: Sink>(alloc: Global, why: Refusal, sink: &mut K) -> Status
    ensures refuses { Refuses why (K.held sink.old) (K.held sink.new) result }
    ensures later { K.faults sink.old ≤ K.faults sink.new }
    ensures cause { result ≡ Status.WriteFault → Rose (K.faults sink.old) (K.faults sink.new) }
{
    let line = match why.line(alloc) {
        Ok(line) => line,
        Err(_) => return Status::Memory,
    };
    match write_all(sink, line.as_bytes()) {
        Ok(()) => Status::from(why),
        Err(_) => Status::WriteFault,
    }
}

/// Watches a capture: reads the setup, opens the capture, and writes what the rounds of its records say, read by read. A missing file, a
/// faulty setup and a setup that is not over packets are refused before anything is read from the capture.
pub(crate) fn watch<R: Threads, F: Shelf, K: Sink>(
    rt: &R,
    alloc: Global,
    command: &WatchCommand,
    shelf: &mut F,
    sink: &mut K,
) -> Status
    requires { AreWindowSizes command.now.sizes }
    ensures files { F.files shelf.new ≡ F.files shelf.old }
    ensures written { RunAnswers (F.files shelf.old) (Some (watch (watch_by command.now))) result []
        (K.held sink.old) (K.held sink.new) (F.rest shelf.old) (F.rest shelf.new) }
    ensures by_command { IsByCall (Some (watch (watch_by command.now))) result [] }
    ensures decided { IfSome (F.files shelf.old) (λ files. IsDecided files (Some (watch (watch_by command.now))) result) }
    ensures complete { IfSome (F.files shelf.old) (λ files. IsLawful (Some files) (Some (watch (watch_by command.now)))
        → (result ≡ Status.Done) ⊎ Yields result) }
    ensures read_fault { result ≡ Status.ReadFault → Rose (F.faults shelf.old) (F.faults shelf.new) }
    ensures write_fault { result ≡ Status.WriteFault → Rose (K.faults sink.old) (K.faults sink.new) }
    ensures shelf_count { F.faults shelf.old ≤ F.faults shelf.new }
    ensures sink_count { K.faults sink.old ≤ K.faults sink.new }
{
    match begin(alloc, command, shelf) {
        Ok(watching) => Status::from(follow(rt, alloc, watching, shelf, sink)),
        Err(Halt::Refused(why)) => refuse(alloc, why, sink),
        Err(Halt::Stopped(stop)) => Status::from(stop),
    }
}

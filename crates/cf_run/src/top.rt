// The top call.
ghost use Rattle.std.specs.Prelude.{◌≡◌, ◌⊎◌, ◌≤◌, ℕ, List, [], Some, None, IfSome, option_map};
ghost use Rattle.std.specs.Io.KnownBytes.{Appends};
ghost use Rattle.cf_command.specs.Call.{IsInRange, call_by, call_said, texts};
ghost use Rattle.cf_outside.specs.Causes.{Rose};
ghost use Rattle.cf_run.specs.Answers.{RunAnswers, Yields, IsDecided, IsByCall};
ghost use Rattle.cf_intake.specs.Devices.{WritesFront};
ghost use Rattle.cf_run.specs.Due.{IsLawful};
ghost use Rattle.cf_run.specs.Watched.{IsNoWatch};
ghost use Rattle.cf_intake.specs.Refusals.{line_of};
ghost use Rattle.cf_intake.specs.declared.refusal.Refusal.TheVariants as refusals;

use crate::prepare::prepare;
use crate::watched::watch;
use crate::{Outcome, Status};
use cf_command::{Command, command_of};
use cf_fill::Context;
use cf_intake::write_all;
use cf_outside::{Gate, Shelf, Sink, SteadyShelf, SteadySink};
use std::alloc::Global;
use std::thread::Threads;

// The end of work that has no log.
fn unsealed(alloc: Global, status: Status) -> Outcome
    ensures status { result.status ≡ status }
    ensures none { result.seals.items ≡ [] }
{
    Outcome {
        status,
        seals: Vec::new(alloc),
    }
}

// Does the work of a command that is no watch, or tells that the words are none: all text is made before the first write.
fn report<R: Threads + Sync, F: Shelf, K: Sink, G: Gate>(
    context: &Context<'_, R, G>,
    command: Option<Command>,
    shelf: &mut F,
    sink: &mut K,
) -> Outcome
    requires range { IfSome command IsInRange }
    requires whole { IsNoWatch (option_map call_by command) }
    ensures written { RunAnswers (F.files shelf.old) (option_map call_by command.entry) result.status result.seals.items
        (K.held sink.old) (K.held sink.new) (F.rest shelf.old) (F.rest shelf.new) }
    ensures by_command { IsByCall (option_map call_by command.entry) result.status result.seals.items }
    ensures no_seals { (result.status ≡ Status.Done → ⊥) → result.seals.items ≡ [] }
    ensures decided { IfSome (F.files shelf.old) (λ files. IsDecided files (option_map call_by command.entry) result.status) }
    ensures complete { IfSome (F.files shelf.old) (λ files. IsLawful (Some files) (option_map call_by command.entry)
        → (result.status ≡ Status.Done) ⊎ Yields result.status) }
    ensures words { result.status ≡ Status.Words → (option_map call_by command.entry ≡ None) × Appends (K.held sink.old) (K.held sink.new) (line_of refusals.Words) }
    ensures no_words_front { option_map call_by command.entry ≡ None → result.status ≡ Status.WriteFault
        → WritesFront (K.held sink.old) (K.held sink.new) (line_of refusals.Words) }
    ensures no_words_no_file { option_map call_by command.entry ≡ None → shelf.new ≡ shelf.old }
    ensures files { F.files shelf.new ≡ F.files shelf.old }
    ensures no_memory_no_write { result.status ≡ Status.Memory → sink.new ≡ sink.old }
    ensures no_read_no_write { result.status ≡ Status.ReadFault → sink.new ≡ sink.old }
    ensures read_fault { result.status ≡ Status.ReadFault → Rose (F.faults shelf.old) (F.faults shelf.new) }
    ensures write_fault { result.status ≡ Status.WriteFault → Rose (K.faults sink.old) (K.faults sink.new) }
    ensures shelf_count { F.faults shelf.old ≤ F.faults shelf.new }
    ensures sink_count { K.faults sink.old ≤ K.faults sink.new }
{
    let alloc = context.alloc;
    let reply = match prepare(context, command, shelf) {
        Ok(reply) => reply,
        Err(stop) => return unsealed(alloc, Status::from(stop)),
    };
    match write_all(sink, reply.text()) {
        Ok(()) => Outcome {
            status: reply.status(),
            seals: reply.into_seals(alloc),
        },
        Err(_) => unsealed(alloc, Status::WriteFault),
    }
}

/// Does the work that the words ask for: reads the setup and the captures from the shelf, or draws packets, and writes the
/// report, the final part of it, also over captures of any length end to end, a dump, or the answers of several hosts at a cut, or what
/// the rounds of a watched capture say, or the line of a refusal, to the sink.
///
/// Of several causes of refusal the first of these decides: words that are no command, the file and then the text of the setup, the
/// file and then the bytes of each capture in its order, more records than there is room for, and a lack of nodes.
pub fn run<R: Threads + Sync, F: Shelf, K: Sink, G: Gate>(
    rt: &R,
    alloc: Global,
    words: &[&str],
    shelf: &mut F,
    sink: &mut K,
    gate: &G,
) -> Outcome
    // What was written is what the words and the files call for, with the seals of the log that it tells of; or a front of it, after
    // all was read; or nothing, where the work was stopped; or, of a capture that was followed, what its rounds say. Where the shelf
    // tells its files, they are its files, and else there are some such files.
    ensures written { RunAnswers (F.files shelf.old) (call_said (texts words.now)) result.status result.seals.items
        (K.held sink.old) (K.held sink.new) (F.rest shelf.old) (F.rest shelf.new) }

    // Which statuses a run, a synth, a dump, a snapshot and a watch can come to, and how many seals they have, whatever the shelf tells.
    ensures by_command { IsByCall (call_said (texts words.now)) result.status result.seals.items }

    // Only work that was done has seals.
    ensures no_seals { (result.status ≡ Status.Done → ⊥) → result.seals.items ≡ [] }

    // What they call for comes, unless memory ran out or a device failed.
    ensures decided { IfSome (F.files shelf.old) (λ files. IsDecided files (call_said (texts words.now)) result.status) }
    ensures complete { IfSome (F.files shelf.old) (λ files. IsLawful (Some files) (call_said (texts words.now))
        → (result.status ≡ Status.Done) ⊎ Yields result.status) }

    // Words that are no command, whatever the shelf tells: no file is opened, and their line is written, or a front of it.
    ensures words { result.status ≡ Status.Words → (call_said (texts words.now) ≡ None) × Appends (K.held sink.old) (K.held sink.new) (line_of refusals.Words) }
    ensures no_words_front { call_said (texts words.now) ≡ None → result.status ≡ Status.WriteFault
        → WritesFront (K.held sink.old) (K.held sink.new) (line_of refusals.Words) }
    ensures no_words_no_file { call_said (texts words.now) ≡ None → shelf.new ≡ shelf.old }

    // No call changes the files.
    ensures files { F.files shelf.new ≡ F.files shelf.old }

    // All text is made before the first write, but of a watch.
    ensures no_memory_no_write { IsNoWatch (call_said (texts words.now)) → result.status ≡ Status.Memory → sink.new ≡ sink.old }
    ensures no_read_no_write { IsNoWatch (call_said (texts words.now)) → result.status ≡ Status.ReadFault → sink.new ≡ sink.old }

    // A device's fault comes only where its count rose, and no count falls.
    ensures read_fault { result.status ≡ Status.ReadFault → Rose (F.faults shelf.old) (F.faults shelf.new) }
    ensures write_fault { result.status ≡ Status.WriteFault → Rose (K.faults sink.old) (K.faults sink.new) }
    ensures shelf_count { F.faults shelf.old ≤ F.faults shelf.new }
    ensures sink_count { K.faults sink.old ≤ K.faults sink.new }
{
    let command = match command_of(alloc, words) {
        Ok(command) => command,
        Err(_) => return unsealed(alloc, Status::Memory),
    };
    match command {
        Some(Command::Watch(command)) => unsealed(alloc, watch(rt, alloc, &command, shelf, sink)),
        _ => report(&Context { rt, alloc, gate }, command, shelf, sink),
    }
}

/// The same over devices that never fail: lawful words and files give `Done`, or want of memory.
pub fn run_steadily<R: Threads + Sync, G: Gate>(
    rt: &R,
    alloc: Global,
    words: &[&str],
    shelf: &mut SteadyShelf,
    sink: &mut SteadySink,
    gate: &G,
) -> Outcome
    ensures written { RunAnswers (Some shelf.old.files) (call_said (texts words.now))
        result.status result.seals.items None None (Some shelf.old.rest) (Some shelf.new.rest) }
    ensures by_command { IsByCall (call_said (texts words.now)) result.status result.seals.items }
    ensures words { result.status ≡ Status.Words → call_said (texts words.now) ≡ None }
    ensures no_seals { (result.status ≡ Status.Done → ⊥) → result.seals.items ≡ [] }
    ensures decided { IsDecided shelf.old.files (call_said (texts words.now)) result.status }
    ensures complete { IsLawful (Some shelf.old.files) (call_said (texts words.now)) → (result.status ≡ Status.Done) ⊎ (result.status ≡ Status.Memory) }
    ensures files { Some shelf.new.files ≡ Some shelf.old.files }
    ensures no_read_fault { result.status ≡ Status.ReadFault → ⊥ }
    ensures no_write_fault { result.status ≡ Status.WriteFault → ⊥ }
{
    run(rt, alloc, words, shelf, sink, gate)
}

// The program over the real devices.
ghost use Rattle.std.specs.Prelude.{◌≡◌, ◌⊎◌, ◌≤◌, ℕ, List, [], None, IfOk, MatchResult, drop, map, string_bytes};
ghost use Rattle.std.specs.Process.{exit_status};
ghost use Rattle.std.specs.Vec.Iter.{into_iter_items};
ghost use Rattle.cf_command.specs.Call.{call_said, texts as texts_of};
ghost use Rattle.cf_outside.specs.Causes.{Rose};
ghost use Rattle.cf_run.specs.Ending.{EndsBy, HasExited};
ghost use Rattle.cf_run.specs.Watched.{IsNoWatch};

use crate::{Status, run};
use cf_outside::{FileShelf, FreeGate, Gate, Shelf, Sink, StdSink};
use cf_row::Memory;
use std::alloc::{AllocError, Global};
use std::env::Args;
use std::io::ErrorKind;
use std::process::ExitCode;
use std::rt::{Env, Files};
use std::thread::Threads;
use std::{env, io};

// Does the work that the words ask for, and gives the exit code of its status. What `run` says of its outcome, it says of one whose
// status has that number.
fn run_to_code<R: Threads + Sync, F: Shelf, K: Sink, G: Gate>(
    rt: &R,
    alloc: Global,
    words: &[&str],
    shelf: &mut F,
    sink: &mut K,
    gate: &G,
) -> ExitCode
    ensures ended { HasExited (F.files shelf.old) (call_said (texts_of words.now))
        (K.held sink.old) (K.held sink.new) (F.rest shelf.old) (F.rest shelf.new) (exit_status result) }

    ensures no_words_no_file { call_said (texts_of words.now) ≡ None → shelf.new ≡ shelf.old }
    ensures files { F.files shelf.new ≡ F.files shelf.old }

    // 8 is the number of `Memory`, 4 of `ReadFault` and 5 of `WriteFault`.
    ensures no_memory_no_write { IsNoWatch (call_said (texts_of words.now)) → exit_status result ≡ 8 → sink.new ≡ sink.old }
    ensures no_read_no_write { IsNoWatch (call_said (texts_of words.now)) → exit_status result ≡ 4 → sink.new ≡ sink.old }
    ensures read_fault { exit_status result ≡ 4 → Rose (F.faults shelf.old) (F.faults shelf.new) }
    ensures write_fault { exit_status result ≡ 5 → Rose (K.faults sink.old) (K.faults sink.new) }
    ensures shelf_count { F.faults shelf.old ≤ F.faults shelf.new }
    ensures sink_count { K.faults sink.old ≤ K.faults sink.new }
{
    let outcome = run(rt, alloc, words, shelf, sink, gate);
    ExitCode::from(outcome.status.number())
}

// Runs over the files of the system and standard output.
fn run_words<R: Files + Print + Threads + Sync>(rt: &R, alloc: Global, words: &[&str]) -> ExitCode
    ensures by_command { EndsBy (call_said (texts_of words.now)) (exit_status result) }
    ensures words { exit_status result ≡ 1 → call_said (texts_of words.now) ≡ None }
    ensures no_words { call_said (texts_of words.now) ≡ None
        → (exit_status result ≡ 1) ⊎ (exit_status result ≡ 8) ⊎ (exit_status result ≡ 5) }
{
    let mut shelf = FileShelf::new(rt);
    let mut sink = StdSink::new(io::writer(rt));
    run_to_code(rt, alloc, words, &mut shelf, &mut sink, &FreeGate)
}

// The words as they came.
fn texts(alloc: Global, owned: &[String]) -> Result<Vec<&str>, Memory>
    ensures { IfOk result (λ words. texts_of words.items ≡ map string_bytes owned.now) }
{
    let mut words = Vec::with_capacity(alloc, owned.len())?;
    for word in owned {
        words.push(word.as_str())?;
    }
    Ok(words)
}

// All words behind the first, which is the program's name.
fn words_after(alloc: Global, mut args: Args) -> Result<Vec<String>, Memory>
    ensures { IfOk result (λ words. words.items ≡ drop 1 (into_iter_items args)) }
{
    let _program = args.next();
    let mut words = Vec::with_capacity(alloc, args.len())?;
    for word in args {
        words.push(word)?;
    }
    Ok(words)
}

// The words where the system's were not read. Words that are no text are no command, as no words are.
fn words_unread(alloc: Global, kind: ErrorKind) -> Result<Vec<String>, Memory>
    ensures { MatchResult result (λ words. (words.items ≡ []) × (kind ≡ ErrorKind.OutOfMemory → ⊥)) (λ _. kind ≡ ErrorKind.OutOfMemory) }
{
    if kind == ErrorKind::OutOfMemory {
        Err(AllocError)
    } else {
        Ok(Vec::new(alloc))
    }
}

// Does the work that the words after the program's name ask for. Of the system's words no contract says what they are, so it is said
// that there are some by which the program ends.
fn run_args<R: Files + Print + Env + Threads + Sync + AllocGlobal>(
    rt: &R,
) -> Result<ExitCode, Memory>
    ensures { IfOk result (λ code. (words : List (List ℕ)) × EndsBy (call_said words) (exit_status code)) }
{
    let owned = match env::args(rt) {
        Ok(args) => words_after(rt.alloc(), args)?,
        Err(error) => words_unread(rt.alloc(), error.kind())?,
    };
    let words = texts(rt.alloc(), &owned)?;
    Ok(run_words(rt, rt.alloc(), &words))
}

/// Does the work of the program, and gives the code with which it ends: that of a status to which its words can come, or that
/// of `Status::Memory` if there is no memory for the words.
pub fn start<R: Files + Print + Env + Threads + Sync + AllocGlobal>(rt: &R) -> ExitCode
    ensures { ((words : List (List ℕ)) × EndsBy (call_said words) (exit_status result)) ⊎ (exit_status result ≡ 8) }
{
    match run_args(rt) {
        Ok(code) => code,
        Err(_) => ExitCode::from(Status::Memory.number()),
    }
}

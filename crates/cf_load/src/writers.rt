// The rows of a batch are appended by the writers, in threads of their own.
ghost use Rattle.std.specs.Prelude.{◌≡◌, ◌+◌, ◌<◌, ◌^◌, All, length, is_none, IfSome};
ghost use Rattle.std.specs.List.{AllZip};
ghost use Rattle.std.specs.Thread.{IsSync};
ghost use Rattle.cf_row.specs.Row.{Fits};
ghost use Rattle.cf_append.specs.Appends.{IsReady};
ghost use Rattle.cf_load.specs.Writing.{RanOut, RunsOut, HasWritten};

use cf_append::{AppendFault, Leaves, append_near};
use cf_outside::Gate;
use cf_row::Row;
use cf_table::{MultiLog, Steps, WriterPass};
use std::marker::Brand;
use std::sync::ledger::{Blank, Ledger};
use std::thread::{Threads, join_mut};

// The pass appends its writer's rows of a batch whose first row is number `first`, up to the first that finds the log full, or the
// writer's nodes used up: then it answers the writer.
fn write_rows<G: Gate, L: Ledger>(
    log: &MultiLog,
    gate: &G,
    first: u64,
    batch: &[Row],
    pass: &mut WriterPass,
    steps: &mut Steps<L>,
) -> Option<u8>
    requires ready { IsReady log.now pass.old }
    requires fits { All (Fits log.now.shape.schema) batch.now }
    requires room { first + length batch.now < 2 ^ 32 }
    ensures wrote { HasWritten (is_none result) log.now first batch.now pass.old pass.new }
    ensures out { IfSome result (λ writer. RunsOut log.now first batch.now writer pass.old pass.new) }
{
    let writers = u64::from(log.shape().writers());
    let writer = pass.writer();
    let mut leaves = Leaves::new();
    let mut number = first;
    for row in batch {
        if number % writers == u64::from(writer) {
            gate.before_append(writer, row.num());
            match append_near(log, pass, row, &mut leaves, steps) {
                Ok(_) => {}
                Err(AppendFault::Full) => return None,
                Err(AppendFault::NodesFull) => return Some(writer),
            }
        }
        number += 1;
    }
    None
}

// As `write_rows`. Nobody reads how many steps it made.
fn write_counted<G: Gate, L: Ledger>(
    log: &MultiLog,
    gate: &G,
    first: u64,
    batch: &[Row],
    pass: &mut WriterPass,
    blank: Blank,
) -> Option<u8>
    requires ready { IsReady log.now pass.old }
    requires fits { All (Fits log.now.shape.schema) batch.now }
    requires room { first + length batch.now < 2 ^ 32 }
    requires blank { (blank.name ≡ L.name) × (blank.parts ≡ L.parts) × (0 < L.parts) }
    ensures wrote { HasWritten (is_none result) log.now first batch.now pass.old pass.new }
    ensures out { IfSome result (λ writer. RunsOut log.now first batch.now writer pass.old pass.new) }
{
    let mut steps = Steps::<L>::new(blank);
    write_rows(log, gate, first, batch, pass, &mut steps)
}

// What one pass has to do, if there is one.
fn run_first<G: Gate>(
    log: &MultiLog,
    gate: &G,
    first: u64,
    batch: &[Row],
    passes: &mut [WriterPass],
) -> Option<u8>
    requires one { length passes.old < 2 }
    requires ready { All (IsReady log.now) passes.old }
    requires fits { All (Fits log.now.shape.schema) batch.now }
    requires room { first + length batch.now < 2 ^ 32 }
    ensures wrote { AllZip (HasWritten (is_none result) log.now first batch.now) passes.old passes.new }
    ensures out { IfSome result (λ writer. RanOut log.now first batch.now writer passes.old passes.new) }
{
    match passes.first_mut() {
        Some(pass) => write_counted::<_, Brand>(log, gate, first, batch, pass, Blank::new(1)),
        None => None,
    }
}

// Each pass appends its writer's rows of a batch whose first row is number `first`, in a thread of its own where one can
// be made. Answers a writer whose nodes are used up, if there is one; else a pass that has rows left found the log full, and its
// book is marked.
#[cycle(writers)]
pub(crate) fn run_writers<R: Threads + Sync, G: Gate>(
    rt: &R,
    log: &MultiLog,
    gate: &G,
    first: u64,
    batch: &[Row],
    passes: &mut [WriterPass],
) -> Option<u8>
    requires ready { All (IsReady log.now) passes.old }
    requires fits { All (Fits log.now.shape.schema) batch.now }
    requires room { first + length batch.now < 2 ^ 32 }
    ensures wrote { AllZip (HasWritten (is_none result) log.now first batch.now) passes.old passes.new }
    ensures out { IfSome result (λ writer. RanOut log.now first batch.now writer passes.old passes.new) }
{
    if passes.len() < 2 {
        return run_first(log, gate, first, batch, passes);
    }
    let (front, back) = passes.split_at_mut(passes.len() / 2);
    let (low, high) = join_mut(
        rt,
        &mut || -> Option<u8>
            requires { IsSync R.row × IsSync G.row × All (IsReady log.now) front.now × All (Fits log.now.shape.schema) batch.now × (first + length batch.now < 2 ^ 32) }
            ensures wrote { AllZip (HasWritten (is_none result) log.entry.now first batch.entry.now) front.entry.now front.exit.now }
            ensures out { IfSome result (λ writer. RanOut log.entry.now first batch.entry.now writer front.entry.now front.exit.now) }
        { run_writers(rt, log, gate, first, batch, front) },
        &mut || -> Option<u8>
            requires { IsSync R.row × IsSync G.row × All (IsReady log.now) back.now × All (Fits log.now.shape.schema) batch.now × (first + length batch.now < 2 ^ 32) }
            ensures wrote { AllZip (HasWritten (is_none result) log.entry.now first batch.entry.now) back.entry.now back.exit.now }
            ensures out { IfSome result (λ writer. RanOut log.entry.now first batch.entry.now writer back.entry.now back.exit.now) }
        { run_writers(rt, log, gate, first, batch, back) },
    );
    low.or(high)
}

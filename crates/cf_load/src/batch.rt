// A batch: the writers append its rows while the reader asks.
ghost use Rattle.std.specs.Prelude.{◌≡◌, ◌+◌, ◌%◌, ◌<◌, ◌≤◌, ◌^◌, ◌++◌, All, List, length, map, is_none, IfSome, IfOk, MatchResult};
ghost use Rattle.std.specs.List.{AllZip};
ghost use Rattle.std.specs.Thread.{IsSync};
ghost use Rattle.cf_row.specs.Row.{Fits, RowValue};
ghost use Rattle.cf_table.specs.Values.{IsOf};
ghost use Rattle.cf_segments.specs.Loaded.{HasLoaded};
ghost use Rattle.cf_load.specs.Loading.{HasStopped, AsksBeside, StayInBatch};
ghost use Rattle.cf_load.specs.Loads.{outcome_of};
ghost use Rattle.cf_load.specs.Planned.{IsPlan, tails_of};
ghost use Rattle.cf_load.specs.Priors.{IsFoundBefore, entries_before};
ghost use Rattle.cf_load.specs.Rounds.{HasAskedAll};
ghost use Rattle.cf_append.specs.Appends.{IsReady};
ghost use Rattle.cf_load.specs.Writing.{RanOut, HasWritten};

use crate::LoadFault;
use crate::reader::{Beside, ask_counted};
use crate::writers::run_writers;
use cf_outside::Gate;
use cf_plain::Live;
use cf_row::{Memory, Row};
use cf_table::{MultiLog, ReaderPass, Root, WriterPass};
use std::marker::Brand;
use std::sync::ledger::Blank;
use std::thread::{Threads, join_mut};

// All rounds beside a batch.
fn ask_beside<G: Gate>(
    log: &MultiLog,
    beside: &Beside<G>,
    reader: &mut ReaderPass,
) -> Result<Vec<Live>, Memory>
    requires of { IsOf reader.old log.now }
    requires plan { IsPlan log.now.shape beside.now.plan.now }
    requires prior { IsFoundBefore log.now.shape beside.now.plan.now beside.now.prior.now }
    ensures of { IsOf reader.new log.now }
    ensures asked { IfOk result (λ more. HasAskedAll log.now.shape beside.now.plan.now beside.now.prior.now beside.now.batch reader.old reader.new more.items) }
{
    ask_counted::<_, Brand>(log, beside, reader, Blank::new(1))
}

// The writers append the rows of a batch in threads of their own, while the reader asks in this one. Where no round is made, no
// thread is started for the reader: the writers are run from this thread, and one that is alone appends in it, as another would
// first have to fetch the rows. Answers a writer that ran out of nodes, if there is one, and what the reader was answered.
fn run_beside<R: Threads + Sync, G: Gate>(
    rt: &R,
    log: &MultiLog,
    beside: &Beside<G>,
    rows: &[Row],
    reader: &mut ReaderPass,
    passes: &mut [WriterPass],
) -> (Option<u8>, Result<Vec<Live>, Memory>)
    requires of { IsOf reader.old log.now }
    requires plan { IsPlan log.now.shape beside.now.plan.now }
    requires prior { IsFoundBefore log.now.shape beside.now.plan.now beside.now.prior.now }
    requires ready { All (IsReady log.now) passes.old }
    requires fits { All (Fits log.now.shape.schema) rows.now }
    requires room { beside.now.first + length rows.now < 2 ^ 32 }
    ensures wrote { AllZip (HasWritten (is_none result.0) log.now beside.now.first rows.now) passes.old passes.new }
    ensures out { IfSome result.0 (λ writer. RanOut log.now beside.now.first rows.now writer passes.old passes.new) }
    ensures of { IsOf reader.new log.now }
    ensures asked { IfOk result.1 (λ more. HasAskedAll log.now.shape beside.now.plan.now beside.now.prior.now beside.now.batch reader.old reader.new more.items) }
{
    let gate = beside.gate;
    let first = u64::from(beside.first);
    if beside.plan.makes_no_round() {
        let out = run_writers(rt, log, gate, first, rows, passes);
        return (out, ask_beside(log, beside, reader));
    }
    join_mut(
        rt,
        &mut || -> Option<u8>
            requires { IsSync R.row × IsSync G.row × All (IsReady log.now) passes.now × All (Fits log.now.shape.schema) rows.now × (first + length rows.now < 2 ^ 32) }
            ensures wrote { AllZip (HasWritten (is_none result) log.entry.now first rows.entry.now) passes.entry.now passes.exit.now }
            ensures out { IfSome result (λ writer. RanOut log.entry.now first rows.entry.now writer passes.entry.now passes.exit.now) }
        { run_writers(rt, log, gate, first, rows, passes) },
        &mut || -> Result<Vec<Live>, Memory>
            requires { IsSync G.row × IsOf reader.now log.now × IsPlan log.now.shape beside.now.plan.now × IsFoundBefore log.now.shape beside.now.plan.now beside.now.prior.now }
            ensures of { IsOf reader.exit.now log.entry.now }
            ensures asked { IfOk result (λ more. HasAskedAll log.entry.now.shape beside.entry.now.plan.now beside.entry.now.prior.now beside.entry.now.batch
                reader.entry.now reader.exit.now more.items) }
        { ask_beside(log, beside, reader) },
    )
}

fn outcome(out: Option<u8>, answers: Result<Vec<Live>, Memory>) -> Result<Vec<Live>, LoadFault>
    ensures { result ≡ outcome_of out answers }
{
    match out {
        Some(writer) => Err(LoadFault::NodesFull(writer)),
        None => match answers {
            Ok(more) => Ok(more),
            Err(_) => Err(LoadFault::Memory),
        },
    }
}

// Loads the rows of a batch into a log behind the entries of which the live questions' findings tell, where all rows before are
// loaded. Refused for memory, the log has them all or none of them.
pub(crate) fn load_batch<R: Threads + Sync, G: Gate>(
    rt: &R,
    log: &MultiLog,
    root: &mut Root,
    rows: &[Row],
    beside: &Beside<G>,
) -> Result<Vec<Live>, LoadFault>
    requires loaded { (before : List RowValue) × (beside.now.prior.now.base + length before ≡ beside.now.first) × HasLoaded log.now beside.now.prior.now.base before root.old }
    requires whole { beside.now.prior.now.base % 4096 ≡ 0 }
    requires plan { IsPlan log.now.shape beside.now.plan.now }
    requires prior { IsFoundBefore log.now.shape beside.now.plan.now beside.now.prior.now }
    requires fits { All (Fits log.now.shape.schema) rows.now }
    requires few { StayInBatch log.now.shape beside.now.first (length rows.now) }
    requires room { beside.now.first + length rows.now ≤ beside.now.prior.now.base + log.now.shape.capacity }
    ensures same { root.new ≡ record root.old { view = root.new.view } }
    ensures loaded { (before : List RowValue) → beside.now.prior.now.base + length before ≡ beside.now.first → HasLoaded log.now beside.now.prior.now.base before root.old
        → MatchResult result (λ _. HasLoaded log.now beside.now.prior.now.base (before ++ rows.now) root.new) (HasStopped log.now beside.now.prior.now.base before rows.now root.new) }
    ensures asked { IfOk result (λ more. AsksBeside log.now.shape beside.now.plan.now beside.now.batch
        (entries_before beside.now.prior.now ++ root.old.view.seen) (entries_before beside.now.prior.now ++ root.new.view.seen) more.items) }
    ensures told { IfOk result (λ more. map (λ tail. beside.now.prior.now.base + tail) root.new.view.told
        ≡ map (λ tail. beside.now.prior.now.base + tail) root.old.view.told ++ tails_of more.items) }
{
    let _few = log.shape().capacity();
    let Ok(mut passes) = log.deal(beside.alloc, root) else {
        return Err(LoadFault::Memory);
    };
    let mut reader = log.fork(root);
    let (out, answers) = run_beside(rt, log, beside, rows, &mut reader, passes.as_mut_slice());
    log.gather(root, passes);
    log.fold_back(root, reader);
    outcome(out, answers)
}

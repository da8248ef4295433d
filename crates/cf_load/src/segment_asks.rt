// Segments are filled, batch by batch.
ghost use Rattle.std.specs.Prelude.{◌≡◌, ◌+◌, ◌<◌, ◌≤◌, ◌++◌, All, List, length, IfOk, IfErr, MatchResult, OnErr};
ghost use Rattle.cf_row.specs.Row.{Fits, RowValue};
ghost use Rattle.cf_load.specs.Loading.{AsksBeside, StayInBatch};
ghost use Rattle.cf_load.specs.Loads.{HaveStopped};
ghost use Rattle.cf_segments.specs.Segments.{SegmentsGoOn, HoldsRows, KeepsAll, base_of, entries_of, room_of, told_of};
ghost use Rattle.cf_load.specs.Planned.{IsPlan, findings_on, tails_of};
ghost use Rattle.cf_load.specs.Priors.{KnowsBefore};
ghost use Rattle.cf_load.specs.declared.loads.LoadFault.TheVariants.{Memory as NoMemory};

use crate::batch::load_batch;
use crate::prior::{FoundBefore, findings_behind};
use crate::reader::Beside;
use crate::{LivePlan, LoadFault, Segments};
use cf_outside::Gate;
use cf_plain::{Finding, Live};
use cf_row::{Memory, Row};
use std::alloc::Global;
use std::marker::Brand;
use std::sync::ledger::Blank;
use std::thread::Threads;

// What the live questions find in all segments, where a round asks them. Only the current one is asked; of those before it that is
// known.
fn found_now(
    segments: &mut Segments,
    alloc: Global,
    plan: &LivePlan,
    prior: &FoundBefore,
) -> Result<Vec<Finding>, Memory>
    requires plan { IsPlan segments.old.shape plan.now }
    requires known { KnowsBefore segments.old plan.now prior.now }
    ensures kept { KeepsAll segments.old segments.new }
    ensures found { 0 < plan.now.rounds → IfOk result (λ found. found.items ≡ findings_on segments.old.shape plan.now (entries_of segments.old)) }
{
    let log = &segments.current.log;
    let root = &mut segments.current.root;
    findings_behind::<Brand>(log, alloc, root, plan, prior, Blank::new(1))
}

// What the live questions found in the closed segments, which is this.
fn found_before(segments: &Segments, findings: Vec<Finding>) -> FoundBefore
    ensures base { result.base ≡ base_of segments.now }
    ensures findings { result.findings ≡ findings }
    ensures closed { result.closed.value.items ≡ segments.now.closed }
{
    FoundBefore {
        base: segments.base(),
        findings,
        closed: segments.closed(),
    }
}

// Closes the current segment where the rows so far fill it, and there is to be one more. Before that the live questions are
// asked of it: what they find is joined to what they found in those before it. Refused, no segment is closed, and what is known
// stays.
pub(crate) fn make_ready(
    segments: &mut Segments,
    alloc: Global,
    count: u32,
    plan: &LivePlan,
    found: &mut FoundBefore,
) -> Result<(), LoadFault>
    requires holds { (rows : List RowValue) × (length rows ≡ count) × HoldsRows segments.old rows }
    requires room { count < room_of segments.old }
    requires plan { IsPlan segments.old.shape plan.now }
    requires known { KnowsBefore segments.old plan.now found.old }
    ensures same { SegmentsGoOn segments.old segments.new }
    ensures entries { entries_of segments.new ≡ entries_of segments.old }
    ensures told { told_of segments.new ≡ told_of segments.old }
    ensures holds { (rows : List RowValue) → length rows ≡ count → HoldsRows segments.old rows → HoldsRows segments.new rows }
    ensures room { IfOk result (λ _. count < base_of segments.new + segments.new.shape.capacity) }
    ensures known { KnowsBefore segments.new plan.now found.new }
    ensures stays { OnErr result (found.new ≡ found.old) }
    ensures fault { IfErr result (λ fault. fault ≡ NoMemory) }
{
    if count < segments.base() + segments.shape().capacity() {
        return Ok(());
    }
    let findings = found_now(segments, alloc, plan, found)?;
    let next = segments.open_next(alloc)?;
    segments.turn_to(next);
    *found = found_before(segments, findings);
    Ok(())
}

// Loads the rows of a batch into the current segment, which has room for them. Refused for memory, the segments have them all
// or none of them.
pub(crate) fn load_current<R: Threads + Sync, G: Gate>(
    rt: &R,
    segments: &mut Segments,
    rows: &[Row],
    beside: &Beside<G>,
) -> Result<Vec<Live>, LoadFault>
    requires loaded { (before : List RowValue) × (length before ≡ beside.now.first) × HoldsRows segments.old before }
    requires plan { IsPlan segments.old.shape beside.now.plan.now }
    requires prior { KnowsBefore segments.old beside.now.plan.now beside.now.prior.now }
    requires fits { All (Fits segments.old.shape.schema) rows.now }
    requires few { StayInBatch segments.old.shape beside.now.first (length rows.now) }
    requires room { beside.now.first + length rows.now ≤ base_of segments.old + segments.old.shape.capacity }
    ensures same { SegmentsGoOn segments.old segments.new }
    ensures base { base_of segments.new ≡ base_of segments.old }
    ensures loaded { (before : List RowValue) → length before ≡ beside.now.first → HoldsRows segments.old before
        → MatchResult result (λ _. HoldsRows segments.new (before ++ rows.now)) (HaveStopped before rows.now segments.new) }
    ensures asked { IfOk result (λ more. AsksBeside segments.old.shape beside.now.plan.now beside.now.batch (entries_of segments.old) (entries_of segments.new) more.items) }
    ensures told { IfOk result (λ more. told_of segments.new ≡ told_of segments.old ++ tails_of more.items) }
    ensures known { KnowsBefore segments.new beside.now.plan.now beside.now.prior.now }
{
    let current = &mut segments.current;
    load_batch(rt, &current.log, &mut current.root, rows, beside)
}

// What questions find, so that it can be joined with what they find in another log.
ghost use Rattle.std.specs.Prelude.{◌≡◌, ◌+◌, ◌<◌, ◌≤◌, length, IfOk, IfErr};
ghost use Rattle.cf_table.specs.Loads.{CountsLoads};
ghost use Rattle.cf_table.specs.Values.{IsOf};
ghost use Rattle.cf_table.specs.Moves.{IsReading};
ghost use Rattle.cf_plain.specs.Asks.{Suits, rows_in};
ghost use Rattle.cf_plain.specs.Groups.{groups};
ghost use Rattle.cf_plain.specs.Segments.{finding_in, body_of};
ghost use Rattle.cf_plain.specs.declared.finding.Finding.TheVariants as findings;
ghost use Rattle.cf_walk.specs.Walks.{HasWalked, IsMeasuring};
ghost use Rattle.cf_query.specs.Asking.{HasAsked};
ghost use Rattle.cf_query.specs.Walking.{AsksOne, AsksBucket, lane_of, steps_of_one, steps_of_bucket};

use crate::apart::groups_seen;
use crate::asks::tail;
use crate::scans::finding_stretch;
use cf_plain::{Ask, Finding, Groups};
use cf_row::Memory;
use cf_table::{MultiLog, Pass, Steps};
use cf_walk::{find, measure_range};
use std::alloc::Global;
use std::sync::ledger::Ledger;

// The groups of the lane.
fn groups_of<P: Pass, L: Ledger>(
    log: &MultiLog,
    alloc: Global,
    pass: &mut P,
    lane: u8,
    steps: &mut Steps<L>,
) -> Result<Finding, Memory>
    requires measures { IsMeasuring log.now lane (P.held pass.old) }
    ensures found { IfOk result (λ found. found ≡ findings.Groups (groups log.now.shape lane (rows_in (P.held pass.old).view.seen))) }
    ensures walked { HasWalked (P.held pass.old) (P.held pass.new) steps.old steps.new }
{
    let groups = groups_seen(log, alloc, pass, lane, steps)?;
    Ok(Finding::Groups(Groups::new(groups)))
}

/// What the question finds in the entries that the pass has seen: in place of marks the groups of its lane. The read tail is not
/// loaded, no ask is noted, and the pass only walks, so that several questions are asked of the same entries. `List` and `Total`
/// go over all of them, and so do `Fired` and `Groups` where their lane keeps the rows of a bucket apart; all others walk the
/// lane's tree and chains, in a step less than `ask` and `measure` say. If memory runs out, nothing is found, and the pass has
/// only walked.
pub fn finding_seen<P: Pass, L: Ledger>(
    log: &MultiLog,
    alloc: Global,
    pass: &mut P,
    ask: &Ask,
    steps: &mut Steps<L>,
) -> Result<Finding, Memory>
    requires reads { IsReading log.now (P.held pass.old) }
    requires suits { Suits log.now.shape ask.now }
    ensures found { IfOk result (λ found. found ≡ finding_in log.now.shape ask.now (rows_in (P.held pass.old).view.seen)) }
    ensures walked { HasWalked (P.held pass.old) (P.held pass.new) steps.old steps.new }
    ensures steps { AsksOne ask.now → IfOk result (λ found. steps.new + 1 ≤ steps.old + steps_of_one log.now.shape (lane_of ask.now) (body_of ask.now found) (length (P.held pass.old).view.seen)) }
    ensures bucket { AsksBucket ask.now → IfOk result (λ _. steps.new + 1 ≤ steps.old + steps_of_bucket log.now.shape (lane_of ask.now) (length (P.held pass.old).view.seen)) }
{
    match ask {
        Ask::List(_) | Ask::Total(..) => {
            let whole = (0, pass.covered());
            finding_stretch(log, alloc, pass, ask, whole, steps)
        }
        Ask::Find(lane, low, high) => {
            let places = find(log, alloc, pass, *lane, (*low, *high), steps)?;
            Ok(Finding::Places(places))
        }
        Ask::Between(lane, low, high) => {
            let places = find(log, alloc, pass, *lane, (*low, *high), steps)?;
            Ok(Finding::Places(places))
        }
        Ask::Measure(lane, low, high) => {
            let quad = measure_range(log, pass, *lane, (*low, *high), steps);
            Ok(Finding::Total(quad))
        }
        Ask::Fired(trigger) => groups_of(log, alloc, pass, trigger.agg, steps),
        Ask::Top(lane, _, _) => groups_of(log, alloc, pass, *lane, steps),
        Ask::Groups(lane) => groups_of(log, alloc, pass, *lane, steps),
    }
}

/// What the question finds in the entries that are covered then, and how many they are: in place of marks the groups of its
/// lane, so that what it finds in another log can be joined to it. The read tail is loaded once, and the pass notes it. `List`
/// and `Total` go over all entries, and so do `Fired` and `Groups` where their lane keeps the rows of a bucket apart; all
/// others walk the lane's tree and chains, so that a question for one key or one bucket reads few words: as many as `ask` and
/// `measure` say. If memory runs out, nothing is found, but the pass has asked all the same.
pub fn finding<P: Pass, L: Ledger>(
    log: &MultiLog,
    alloc: Global,
    pass: &mut P,
    ask: &Ask,
    steps: &mut Steps<L>,
) -> Result<(u32, Finding), Memory>
    requires of { IsOf (P.held pass.old) log.now }
    requires suits { Suits log.now.shape ask.now }
    ensures ok { IfOk result
        (λ found. HasAsked log.now.shape (P.held pass.old) (P.held pass.new) × (found.0 ≡ length (P.held pass.new).view.seen)
        × (found.1 ≡ finding_in log.now.shape ask.now (rows_in (P.held pass.new).view.seen))) }
    ensures memory { IfErr result (λ _. HasAsked log.now.shape (P.held pass.old) (P.held pass.new)) }
    ensures steps { AsksOne ask.now → IfOk result (λ found. steps.new ≤ steps.old + steps_of_one log.now.shape (lane_of ask.now) (body_of ask.now found.1) found.0) }
    ensures bucket { AsksBucket ask.now → IfOk result (λ found. steps.new ≤ steps.old + steps_of_bucket log.now.shape (lane_of ask.now) found.0) }
    ensures loads { CountsLoads (P.held pass.old) (P.held pass.new) steps.old steps.new }
{
    let tail = tail(log, pass, steps);
    let finding = finding_seen(log, alloc, pass, ask, steps)?;
    Ok((tail, finding))
}

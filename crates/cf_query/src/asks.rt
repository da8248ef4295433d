// Questions are answered.
ghost use Rattle.std.specs.Prelude.{◌≡◌, ◌+◌, ◌<◌, ◌≤◌, length, map, true, IfOk, IfErr};
ghost use Rattle.cf_shape.specs.Uses.{is_measured};
ghost use Rattle.cf_table.specs.Loads.{CountsLoads};
ghost use Rattle.cf_table.specs.Values.{IsOf};
ghost use Rattle.cf_table.specs.Moves.{IsReading};
ghost use Rattle.cf_plain.specs.Asks.{Suits, eval, rows_in, is_aggregate, is_keyed_between, total_over};
ghost use Rattle.cf_plain.specs.Groups.{groups as groups_by, as_group};
ghost use Rattle.cf_walk.specs.Walks.{HasWalked, IsOnLane};
ghost use Rattle.cf_query.specs.Asking.{HasAsked};
ghost use Rattle.cf_query.specs.Walking.{AsksBucket, AsksOne, lane_of, steps_of_one, steps_of_bucket};

use crate::apart::groups_seen;
use crate::findings::{finding, finding_seen};
use cf_fold::Quad;
use cf_plain::{Answer, Ask, Group};
use cf_row::Memory;
use cf_table::{MultiLog, Pass, Steps};
use cf_walk::measure_range;
use std::alloc::Global;
use std::sync::ledger::Ledger;

/// Asks how many entries are covered, and answers it: one step, which loads the read tail and notes it.
pub fn tail<P: Pass, L: Ledger>(log: &MultiLog, pass: &mut P, steps: &mut Steps<L>) -> u32
    requires of { IsOf (P.held pass.old) log.now }
    ensures asked { HasAsked log.now.shape (P.held pass.old) (P.held pass.new) }
    ensures tail { result ≡ length (P.held pass.new).view.seen }
    ensures steps { steps.new ≡ steps.old + 1 }
    ensures loads { CountsLoads (P.held pass.old) (P.held pass.new) steps.old steps.new }
{
    log.load_tail(pass, true, steps)
}

/// The question's meaning on the entries that are covered then, and how many they are. The read tail is loaded once, and the
/// pass notes it. `List` and `Total` go over all entries, and so do `Fired` and `Groups` where their lane keeps the rows of a
/// bucket apart; all others walk the lane's tree and chains. A question for one key takes one step for the read tail, one for
/// each level of the tree and each writer, one for each place found, and at most one for each place past the tail; for the
/// other kinds no bound is stated. If memory runs out, there is no answer, but the pass has asked all the same.
pub fn ask<P: Pass, L: Ledger>(
    log: &MultiLog,
    alloc: Global,
    pass: &mut P,
    ask: &Ask,
    steps: &mut Steps<L>,
) -> Result<Answer, Memory>
    requires of { IsOf (P.held pass.old) log.now }
    requires suits { Suits log.now.shape ask.now }
    ensures ok { IfOk result
        (λ answer. HasAsked log.now.shape (P.held pass.old) (P.held pass.new) × (answer.tail ≡ length (P.held pass.new).view.seen)
        × (answer.body ≡ eval log.now.shape ask.now (P.held pass.new).view.seen)) }
    ensures memory { IfErr result (λ _. HasAsked log.now.shape (P.held pass.old) (P.held pass.new)) }
    ensures steps { AsksOne ask.now → IfOk result (λ answer. steps.new ≤ steps.old + steps_of_one log.now.shape (lane_of ask.now) answer.body answer.tail) }
    ensures loads { CountsLoads (P.held pass.old) (P.held pass.new) steps.old steps.new }
{
    let (tail, found) = finding(log, alloc, pass, ask, steps)?;
    let body = found.body(alloc, ask)?;
    Ok(Answer { tail, body })
}

/// The question's meaning on the entries that the pass has seen, and how many they are. The read tail is not loaded, no ask is
/// noted, and the pass only walks: questions that are asked so, one after the other, are all asked of the same entries. A
/// question for one key, or for what is measured under one bucket, takes a step less than `ask` and `measure` say. If memory
/// runs out, there is no answer, and the pass has only walked.
pub fn ask_seen<P: Pass, L: Ledger>(
    log: &MultiLog,
    alloc: Global,
    pass: &mut P,
    ask: &Ask,
    steps: &mut Steps<L>,
) -> Result<Answer, Memory>
    requires reads { IsReading log.now (P.held pass.old) }
    requires suits { Suits log.now.shape ask.now }
    ensures ok { IfOk result (λ answer. (answer.tail ≡ length (P.held pass.old).view.seen) × (answer.body ≡ eval log.now.shape ask.now (P.held pass.old).view.seen)) }
    ensures walked { HasWalked (P.held pass.old) (P.held pass.new) steps.old steps.new }
    ensures steps { AsksOne ask.now → IfOk result (λ answer. steps.new + 1 ≤ steps.old + steps_of_one log.now.shape (lane_of ask.now) answer.body answer.tail) }
    ensures bucket { AsksBucket ask.now → IfOk result (λ answer. steps.new + 1 ≤ steps.old + steps_of_bucket log.now.shape (lane_of ask.now) answer.tail) }
{
    let tail = pass.covered();
    let found = finding_seen(log, alloc, pass, ask, steps)?;
    let body = found.body(alloc, ask)?;
    Ok(Answer { tail, body })
}

/// The quad of what the lane measures of its entries that are covered then and have a bucket in the range, both ends taken in,
/// and how many entries are covered. The read tail is loaded once, and the pass notes it. The lane's tree and chains are
/// walked, and no memory is taken. One bucket takes one step for the read tail, one for each level of the tree, four for each
/// writer, and at most one for each place past the tail; for more than one no bound is stated.
pub fn measure<P: Pass, L: Ledger>(
    log: &MultiLog,
    pass: &mut P,
    lane: u8,
    low: u64,
    high: u64,
    steps: &mut Steps<L>,
) -> (u32, Quad)
    requires of { IsOf (P.held pass.old) log.now }
    requires suits { is_aggregate log.now.shape lane ≡ true }
    ensures asked { HasAsked log.now.shape (P.held pass.old) (P.held pass.new) }
    ensures tail { result.0 ≡ length (P.held pass.new).view.seen }
    ensures quad { result.1 ≡ total_over log.now.shape lane (is_keyed_between log.now.shape lane low high) (rows_in (P.held pass.new).view.seen) }
    ensures steps { low ≡ high → steps.new ≤ steps.old + steps_of_bucket log.now.shape lane result.0 }
    ensures loads { CountsLoads (P.held pass.old) (P.held pass.new) steps.old steps.new }
{
    let tail = tail(log, pass, steps);
    let quad = measure_range(log, pass, lane, (low, high), steps);
    (tail, quad)
}

/// The groups of a lane that measures something: for each key that an entry has which is covered then, ascending, the key and
/// the quad of what the lane measures of its entries; and how many entries are covered. The read tail is loaded once, and the
/// pass notes it. The lane's tree and chains are walked, or all entries are gone over where it keeps the rows of a bucket
/// apart. If memory runs out, there is no answer, but the pass has asked all the same.
pub fn groups<P: Pass, L: Ledger>(
    log: &MultiLog,
    alloc: Global,
    pass: &mut P,
    lane: u8,
    steps: &mut Steps<L>,
) -> Result<(u32, Vec<Group>), Memory>
    requires lane { IsOnLane log.now lane (P.held pass.old) }
    requires measured { is_measured log.now.shape lane ≡ true }
    ensures ok { IfOk result
        (λ found. HasAsked log.now.shape (P.held pass.old) (P.held pass.new) × (found.0 ≡ length (P.held pass.new).view.seen)
        × (found.1.items ≡ map as_group (groups_by log.now.shape lane (rows_in (P.held pass.new).view.seen)))) }
    ensures memory { IfErr result (λ _. HasAsked log.now.shape (P.held pass.old) (P.held pass.new)) }
    ensures loads { CountsLoads (P.held pass.old) (P.held pass.new) steps.old steps.new }
{
    let tail = tail(log, pass, steps);
    let groups = groups_seen(log, alloc, pass, lane, steps)?;
    Ok((tail, groups))
}

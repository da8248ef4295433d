// What questions find in logs that stand one behind the other.
ghost use Rattle.std.specs.Prelude.{◌≡◌, ◌+◌, ◌<◌, ◌≤◌, ◌^◌, ◌++◌, [], List, IfOk};
ghost use Rattle.cf_row.specs.declared.row.Entry.{Entry};
ghost use Rattle.cf_plain.specs.Asks.{Suits};
ghost use Rattle.cf_plain.specs.Answered.{answer_on};
ghost use Rattle.cf_table.specs.Values.{IsOf};
ghost use Rattle.cf_table.specs.Moves.{HoldsAllBooks, IsReading};
ghost use Rattle.cf_table.specs.Loads.{CountsLoads};
ghost use Rattle.cf_query.specs.Walks.{HasWalked};
ghost use Rattle.cf_query.specs.Asking.{HasAsked};
ghost use Rattle.cf_query.specs.Walking.{AsksOne, AsksBucket};
ghost use Rattle.cf_load.specs.Costs.{bucket_steps, key_steps};
ghost use Rattle.cf_load.specs.Planned.{IsPlan, findings_on};
ghost use Rattle.cf_load.specs.Priors.{HasFound, IsFoundBefore, entries_before};
ghost use Rattle.cf_segments.specs.Segments.{Keeps};

use crate::LivePlan;
use cf_plain::{Answer, Ask, Finding};
use cf_query::{finding_seen, tail};
use cf_row::Memory;
use cf_segments::Segment;
use cf_shape::Shape;
use cf_table::{MultiLog, Pass, Root, Steps};
use std::alloc::Global;
use std::snapshot::Snapshot;
use std::sync::ledger::{Blank, Ledger};

// What each live question found in the segments before the current one.
#[derive(Drop)]
pub(crate) struct FoundBefore {
    // How many entries they have.
    pub(crate) base: u32,
    // In the order in which a round asks the questions.
    pub(crate) findings: Vec<Finding>,
    // Which segments they are.
    pub(crate) closed: Snapshot<Vec<Segment>>,
}

// What each live question finds in no row.
fn nothings(alloc: Global, _shape: &Shape, plan: &LivePlan) -> Result<Vec<Finding>, Memory>
    requires plan { IsPlan _shape.now plan.now }
    ensures found { IfOk result (λ found. found.items ≡ findings_on _shape.now plan.now []) }
{
    let mut findings = Vec::new(alloc);
    for place in &plan.lives {
        let question = &plan.asks[*place as usize];
        findings.push(Finding::nothing(alloc, question))?;
    }
    Ok(findings)
}

impl FoundBefore {
    // What the live questions found before the first segment.
    pub(crate) fn none(alloc: Global, shape: &Shape, plan: &LivePlan) -> Result<FoundBefore, Memory>
        requires plan { IsPlan shape.now plan.now }
        ensures base { IfOk result (λ prior. prior.base ≡ 0) }
        ensures none { IfOk result (λ prior. entries_before prior ≡ []) }
        ensures found { IfOk result (λ prior. prior.findings.items ≡ findings_on shape.now plan.now []) }
    {
        let none = Vec::new(alloc);
        Ok(FoundBefore {
            base: 0,
            findings: nothings(alloc, shape, plan)?,
            closed: Snapshot::of(&none),
        })
    }
}

// What the question finds in some entries and in those of the log behind them that the pass has seen, where it found that in the
// first.
pub(crate) fn find_behind<P: Pass, L: Ledger>(
    log: &MultiLog,
    alloc: Global,
    pass: &mut P,
    ask: &Ask,
    before: (u32, Finding),
    steps: &mut Steps<L>,
) -> Result<(u32, Finding), Memory>
    requires reader { IsReading log.now (P.held pass.old) }
    requires suits { Suits log.now.shape ask.now }
    requires few { before.0 + log.now.shape.capacity ≤ 2 ^ 20 }
    requires found { (entries : List Entry) × HasFound log.now.shape ask.now entries before.0 before.1 }
    ensures walked { HasWalked (P.held pass.old) (P.held pass.new) steps.old steps.new }
    ensures found { (entries : List Entry) → HasFound log.now.shape ask.now entries before.0 before.1
        → IfOk result (λ found. HasFound log.now.shape ask.now (entries ++ (P.held pass.old).view.seen) found.0 found.1) }
    ensures steps { AsksOne ask.now → IfOk result (λ _. steps.new + 1 ≤ steps.old + key_steps log.now.shape ask.now (P.held pass.old).view.seen) }
    ensures bucket { AsksBucket ask.now → IfOk result (λ _. steps.new + 1 ≤ steps.old + bucket_steps log.now.shape ask.now (P.held pass.old).view.seen) }
{
    let (base, start) = before;
    let more = finding_seen(log, alloc, pass, ask, steps)?;
    let found = start.join(alloc, base, more)?;
    Ok((base + pass.covered(), found))
}

// The question's answer on some entries and those of the log behind them, of which the read tail tells.
pub(crate) fn answer_behind<P: Pass, L: Ledger>(
    log: &MultiLog,
    alloc: Global,
    pass: &mut P,
    ask: &Ask,
    before: (u32, Finding),
    steps: &mut Steps<L>,
) -> Result<Answer, Memory>
    requires of { IsOf (P.held pass.old) log.now }
    requires suits { Suits log.now.shape ask.now }
    requires few { before.0 + log.now.shape.capacity ≤ 2 ^ 20 }
    requires found { (entries : List Entry) × HasFound log.now.shape ask.now entries before.0 before.1 }
    ensures asked { HasAsked log.now.shape (P.held pass.old) (P.held pass.new) }
    ensures answer { (entries : List Entry) → HasFound log.now.shape ask.now entries before.0 before.1
        → IfOk result (λ answer. answer ≡ answer_on log.now.shape (entries ++ (P.held pass.new).view.seen) ask.now) }
    ensures steps { AsksOne ask.now → IfOk result (λ _. steps.new ≤ steps.old + key_steps log.now.shape ask.now (P.held pass.new).view.seen) }
    ensures bucket { AsksBucket ask.now → IfOk result (λ _. steps.new ≤ steps.old + bucket_steps log.now.shape ask.now (P.held pass.new).view.seen) }
    ensures loads { CountsLoads (P.held pass.old) (P.held pass.new) steps.old steps.new }
{
    tail(log, pass, steps);
    let (tail, found) = find_behind(log, alloc, pass, ask, before, steps)?;
    let body = found.body(alloc, ask)?;
    Ok(Answer { tail, body })
}

// What each live question finds in what was before and in the entries of the log behind it, which the root has seen, where a round
// asks them. Nobody reads how many steps it made.
pub(crate) fn findings_behind<L: Ledger>(
    log: &MultiLog,
    alloc: Global,
    root: &mut Root,
    plan: &LivePlan,
    prior: &FoundBefore,
    blank: Blank,
) -> Result<Vec<Finding>, Memory>
    requires of { IsOf root.old log.now × HoldsAllBooks log.now.shape root.old.view }
    requires plan { IsPlan log.now.shape plan.now }
    requires prior { IsFoundBefore log.now.shape plan.now prior.now }
    requires blank { (blank.name ≡ L.name) × (blank.parts ≡ L.parts) × (0 < L.parts) }
    ensures keeps { Keeps root.old root.new }
    ensures found { 0 < plan.now.rounds → IfOk result (λ found. found.items ≡ findings_on log.now.shape plan.now (entries_before prior.now ++ root.old.view.seen)) }
{
    let mut steps = Steps::<L>::new(blank);
    let mut findings = Vec::new(alloc);
    if plan.makes_no_round() {
        return Ok(findings);
    }
    tail(log, root, &mut steps);
    for turn in 0..plan.lives.len() {
        let place = plan.lives[turn];
        let question = &plan.asks[place as usize];
        let before = (prior.base, prior.findings[turn].copy(alloc)?);
        let (_, found) = find_behind(log, alloc, root, question, before, &mut steps)?;
        findings.push(found)?;
    }
    Ok(findings)
}

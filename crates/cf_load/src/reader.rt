// The reader asks its live questions while the writers append a batch.
ghost use Rattle.std.specs.Prelude.{◌≡◌, ◌+◌, ◌<◌, IfOk};
ghost use Rattle.cf_table.specs.Loads.{CountsLoads};
ghost use Rattle.cf_table.specs.Values.{IsOf, PassValue};
ghost use Rattle.cf_load.specs.Planned.{IsPlan};
ghost use Rattle.cf_load.specs.Priors.{IsFoundBefore};
ghost use Rattle.cf_load.specs.Rounds.{HasAskedAll, HasAskedSome};

use crate::LivePlan;
use crate::prior::{FoundBefore, answer_behind};
use cf_outside::Gate;
use cf_plain::Live;
use cf_row::Memory;
use cf_table::{MultiLog, ReaderPass, Steps};
use std::alloc::Global;
use std::sync::ledger::{Blank, Ledger};

// What is asked beside a batch.
#[derive(Drop)]
pub(crate) struct Beside<'a, G: Gate> {
    pub(crate) alloc: Global,
    pub(crate) gate: &'a G,
    pub(crate) plan: &'a LivePlan,
    // What the live questions found before the log's first entry.
    pub(crate) prior: &'a FoundBefore,
    // How many rows came before the batch.
    pub(crate) first: u32,
    // The number of the batch.
    pub(crate) batch: u32,
}

// Asks each live question once, as that round beside a batch, of the entries before the log and of those in it. The answers come
// after those of earlier rounds.
fn ask_round<G: Gate, L: Ledger>(
    log: &MultiLog,
    beside: &Beside<G>,
    round: u32,
    reader: &mut ReaderPass,
    answers: &mut Vec<Live>,
    steps: &mut Steps<L>,
) -> Result<(), Memory>
    requires of { IsOf reader.old log.now }
    requires plan { IsPlan log.now.shape beside.now.plan.now }
    requires prior { IsFoundBefore log.now.shape beside.now.plan.now beside.now.prior.now }
    requires due { 0 < beside.now.plan.now.rounds }
    ensures of { IsOf reader.new log.now }
    ensures asked { (start : PassValue) → HasAskedSome log.now.shape beside.now.plan.now beside.now.prior.now beside.now.batch round 0 start reader.old answers.old.items
        → IfOk result (λ _. HasAskedSome log.now.shape beside.now.plan.now beside.now.prior.now beside.now.batch (round + 1) 0 start reader.new answers.new.items) }
    ensures loads { CountsLoads reader.old reader.new steps.old steps.new }
{
    let plan = beside.plan;
    let prior = beside.prior;
    for turn in 0..plan.lives.len() {
        let place = plan.lives[turn];
        let question = &plan.asks[place as usize];
        let before = (prior.base, prior.findings[turn].copy(beside.alloc)?);
        let answer = answer_behind(log, beside.alloc, reader, question, before, steps)?;
        answers.push(Live {
            batch: beside.batch,
            round,
            ask: place,
            answer,
        })?;
    }
    Ok(())
}

// Makes all rounds beside a batch.
fn ask_rounds<G: Gate, L: Ledger>(
    log: &MultiLog,
    beside: &Beside<G>,
    reader: &mut ReaderPass,
    steps: &mut Steps<L>,
) -> Result<Vec<Live>, Memory>
    requires of { IsOf reader.old log.now }
    requires plan { IsPlan log.now.shape beside.now.plan.now }
    requires prior { IsFoundBefore log.now.shape beside.now.plan.now beside.now.prior.now }
    ensures of { IsOf reader.new log.now }
    ensures asked { IfOk result (λ more. HasAskedAll log.now.shape beside.now.plan.now beside.now.prior.now beside.now.batch reader.old reader.new more.items) }
    ensures loads { CountsLoads reader.old reader.new steps.old steps.new }
{
    let mut answers = Vec::new(beside.alloc);
    for round in 0..beside.plan.rounds {
        ask_round(log, beside, round, reader, &mut answers, steps)?;
        beside.gate.after_ask(round);
    }
    Ok(answers)
}

// As `ask_rounds`. Nobody reads how many steps it made.
pub(crate) fn ask_counted<G: Gate, L: Ledger>(
    log: &MultiLog,
    beside: &Beside<G>,
    reader: &mut ReaderPass,
    blank: Blank,
) -> Result<Vec<Live>, Memory>
    requires of { IsOf reader.old log.now }
    requires plan { IsPlan log.now.shape beside.now.plan.now }
    requires prior { IsFoundBefore log.now.shape beside.now.plan.now beside.now.prior.now }
    requires blank { (blank.name ≡ L.name) × (blank.parts ≡ L.parts) × (0 < L.parts) }
    ensures of { IsOf reader.new log.now }
    ensures asked { IfOk result (λ more. HasAskedAll log.now.shape beside.now.plan.now beside.now.prior.now beside.now.batch reader.old reader.new more.items) }
{
    let mut steps = Steps::<L>::new(blank);
    ask_rounds(log, beside, reader, &mut steps)
}

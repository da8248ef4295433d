// Questions are asked of what readers see whose logs stand one behind the other.
ghost use Rattle.std.specs.Prelude.{◌≡◌, ◌≤◌, length, IfOk};
ghost use Rattle.std.specs.Arc.{arc_value};
ghost use Rattle.cf_plain.specs.Asks.{Suits, eval, rows_in};
ghost use Rattle.cf_plain.specs.Segments.{finding_in};
ghost use Rattle.cf_store.specs.Ends.{AllWalked, AreBehind, AsksWith, GroupsWith, TellsGroupsSeen, TellsSeen, seen_of, seen_upto};

use crate::ends::last_seen;
use crate::held::{Reader, Shared};
use crate::reader::{Told, is_keyed, measured};
use crate::refusals::{AskRefusal, LaneRefusal};
use crate::shown::Head;
use cf_log::finding_seen;
use cf_plain::{Answer, Ask, Finding};
use cf_row::Memory;
use cf_table::{Pass, ReaderPass};
use std::alloc::Global;

// What the question finds in what is seen of the first log and of so many behind it, and how many records that are.
pub(crate) fn find_in(
    shared: &Shared,
    alloc: Global,
    pass: &mut ReaderPass,
    rest: &mut [Reader],
    last: usize,
    question: &Ask,
) -> Result<(u32, Finding), Memory>
    requires behind { AreBehind shared.now pass.old rest.old }
    requires last { last ≤ length rest.old }
    requires suits { Suits shared.now.log.shape question.now }
    ensures count { IfOk result (λ found. found.0 ≡ length (seen_upto pass.old rest.old last)) }
    ensures found { IfOk result (λ found. found.1 ≡ finding_in shared.now.log.shape question.now (rows_in (seen_upto pass.old rest.old last))) }
    ensures walked { AllWalked pass.old pass.new rest.old rest.new }
{
    let mut found = finding_seen(&shared.log, alloc, pass, question)?;
    let mut count = pass.covered();
    for k in 0..last {
        let (tail, more) = rest[k].find(alloc, question)?;
        found = found.join(alloc, count, more)?;
        count += tail;
    }
    Ok((count, found))
}

// What the question means on what the readers see.
pub(crate) fn answer_in(
    shared: &Shared,
    alloc: Global,
    pass: &mut ReaderPass,
    rest: &mut [Reader],
    question: &Ask,
) -> Result<Answer, Memory>
    requires behind { AreBehind shared.now pass.old rest.old }
    requires suits { Suits shared.now.log.shape question.now }
    ensures walked { AllWalked pass.old pass.new rest.old rest.new }
    ensures tail { IfOk result (λ answer. answer.tail ≡ length (seen_of shared.now pass.old rest.old)) }
    ensures body { IfOk result (λ answer. answer.body ≡ eval shared.now.log.shape question.now (seen_of shared.now pass.old rest.old)) }
{
    let last = last_seen(shared.log.shape().capacity(), pass, rest);
    let (tail, found) = find_in(shared, alloc, pass, rest, last, question)?;
    let body = found.body(alloc, question)?;
    Ok(Answer { tail, body })
}

/// Asks the question of that number in the setup of what the readers see.
pub(crate) fn told_seen(
    shared: &Shared,
    alloc: Global,
    pass: &mut ReaderPass,
    rest: &mut [Reader],
    number: u32,
) -> Result<Told, AskRefusal>
    requires { AreBehind shared.now pass.old rest.old }
    ensures { TellsSeen shared.now number pass.old pass.new rest.old rest.new result }
{
    let Some(question) = shared.setup.asks().get(number as usize) else {
        return Err(AskRefusal::NoQuestion);
    };
    let keyed = is_keyed(shared.log.shape(), question);
    match answer_in(shared, alloc, pass, rest, question) {
        Ok(answer) => Ok(Told { answer, keyed }),
        Err(_) => Err(AskRefusal::Memory),
    }
}

/// The groups of the lane of that number in what the readers see.
pub(crate) fn groups_seen_in(
    shared: &Shared,
    alloc: Global,
    pass: &mut ReaderPass,
    rest: &mut [Reader],
    lane: u32,
) -> Result<Told, LaneRefusal>
    requires { AreBehind shared.now pass.old rest.old }
    ensures { TellsGroupsSeen shared.now lane pass.old pass.new rest.old rest.new result }
{
    let Some(lane) = measured(shared, lane) else {
        return Err(LaneRefusal::NoLane);
    };
    let keyed = false;
    match answer_in(shared, alloc, pass, rest, &Ask::Groups(lane)) {
        Ok(answer) => Ok(Told { answer, keyed }),
        Err(_) => Err(LaneRefusal::Memory),
    }
}

impl Reader {
    /// Asks the question of that number in the setup of what this reader and those behind it see, and keeps the words of the answer.
    pub(crate) fn ask_with(
        &mut self,
        alloc: Global,
        rest: &mut [Reader],
        number: u32,
    ) -> Result<Head, AskRefusal>
        requires { AreBehind (arc_value self.old.of) self.old.pass rest.old }
        ensures { AsksWith number self.old self.new rest.old rest.new result }
    {
        let told = told_seen(&self.of, alloc, &mut self.pass, rest, number)?;
        self.keep(alloc, &told)
    }

    /// Tells the groups of the lane of that number in what this reader and those behind it see, and keeps their words.
    pub(crate) fn groups_with(
        &mut self,
        alloc: Global,
        rest: &mut [Reader],
        lane: u32,
    ) -> Result<Head, LaneRefusal>
        requires { AreBehind (arc_value self.old.of) self.old.pass rest.old }
        ensures { GroupsWith lane self.old self.new rest.old rest.new result }
    {
        let told = groups_seen_in(&self.of, alloc, &mut self.pass, rest, lane)?;
        match self.keep(alloc, &told) {
            Ok(head) => Ok(head),
            Err(_) => Err(LaneRefusal::Memory),
        }
    }
}

// Questions are asked by callers that count no steps.
ghost use Rattle.std.specs.Prelude.{◌≡◌, ◌<◌, ◌≤◌, All, length, map, true, IfOk, IfErr};
ghost use Rattle.cf_shape.specs.Uses.{is_measured};
ghost use Rattle.cf_table.specs.Values.{IsOf};
ghost use Rattle.cf_table.specs.Moves.{OnlyLooked, IsReading};
ghost use Rattle.cf_plain.specs.Asks.{Suits, eval, is_aggregate, is_keyed_between, row_at, rows_in, total_over};
ghost use Rattle.cf_plain.specs.Answered.{answer_on};
ghost use Rattle.cf_plain.specs.Groups.{groups as groups_by, as_group};
ghost use Rattle.cf_plain.specs.Segments.{finding_in};
ghost use Rattle.cf_query.specs.Walks.{OnlyWalked, IsMeasuring, IsOnLane};
ghost use Rattle.cf_query.specs.Asking.{HasAsked};
ghost use Rattle.cf_query.specs.Looking.{IsCovered};

use crate::counted::{
    ask_by, ask_seen_by, finding_by, finding_seen_by, groups_by_steps, groups_seen_by, measure_by,
    row_by, tail_by,
};
use cf_fold::Quad;
use cf_plain::{Answer, Ask, Finding, Group};
use cf_row::{Memory, Row};
use cf_table::{MultiLog, Pass};
use std::alloc::Global;
use std::marker::Brand;
use std::sync::ledger::Blank;

/// The question's meaning on the records that are covered then, and how many they are. If memory runs out, there is no answer, but the
/// pass has asked all the same.
pub fn ask<P: Pass>(
    log: &MultiLog,
    alloc: Global,
    pass: &mut P,
    question: &Ask,
) -> Result<Answer, Memory>
    requires of { IsOf (P.held pass.old) log.now }
    requires suits { Suits log.now.shape question.now }
    ensures ok { IfOk result
        (λ answer. HasAsked log.now.shape (P.held pass.old) (P.held pass.new) × (answer.tail ≡ length (P.held pass.new).view.seen)
        × (answer.body ≡ eval log.now.shape question.now (P.held pass.new).view.seen)) }
    ensures memory { IfErr result (λ _. HasAsked log.now.shape (P.held pass.old) (P.held pass.new)) }
{
    ask_by::<P, Brand>(log, alloc, pass, question, Blank::new(1))
}

/// The question's meaning on the records that the pass has seen, and how many they are. The read tail is not loaded, and no ask is noted:
/// questions that are asked so, one after the other, are all asked of the same records.
pub fn ask_seen<P: Pass>(
    log: &MultiLog,
    alloc: Global,
    pass: &mut P,
    question: &Ask,
) -> Result<Answer, Memory>
    requires reads { IsReading log.now (P.held pass.old) }
    requires suits { Suits log.now.shape question.now }
    ensures ok { IfOk result (λ answer. (answer.tail ≡ length (P.held pass.old).view.seen) × (answer.body ≡ eval log.now.shape question.now (P.held pass.old).view.seen)) }
    ensures walked { OnlyWalked (P.held pass.old) (P.held pass.new) }
{
    ask_seen_by::<P, Brand>(log, alloc, pass, question, Blank::new(1))
}

/// The meanings of all questions on the records that are covered then, the same for each.
pub fn ask_all<P: Pass>(
    log: &MultiLog,
    alloc: Global,
    pass: &mut P,
    questions: &[Ask],
) -> Result<Vec<Answer>, Memory>
    requires of { IsOf (P.held pass.old) log.now }
    requires suit { All (Suits log.now.shape) questions.now }
    ensures asked { HasAsked log.now.shape (P.held pass.old) (P.held pass.new) }
    ensures answers { IfOk result (λ answers. answers.items ≡ map (answer_on log.now.shape (P.held pass.new).view.seen) questions.now) }
{
    let _tail = tail(log, pass);
    let mut answers = Vec::with_capacity(alloc, questions.len())?;
    for question in questions {
        answers.push(ask_seen(log, alloc, pass, question)?)?;
    }
    Ok(answers)
}

/// What the question finds in the records that are covered then, and how many they are: in place of marks the groups of its lane, so that
/// what it finds in another log can be joined to it.
pub fn finding<P: Pass>(
    log: &MultiLog,
    alloc: Global,
    pass: &mut P,
    question: &Ask,
) -> Result<(u32, Finding), Memory>
    requires of { IsOf (P.held pass.old) log.now }
    requires suits { Suits log.now.shape question.now }
    ensures ok { IfOk result
        (λ found. HasAsked log.now.shape (P.held pass.old) (P.held pass.new) × (found.0 ≡ length (P.held pass.new).view.seen)
        × (found.1 ≡ finding_in log.now.shape question.now (rows_in (P.held pass.new).view.seen))) }
    ensures memory { IfErr result (λ _. HasAsked log.now.shape (P.held pass.old) (P.held pass.new)) }
{
    finding_by::<P, Brand>(log, alloc, pass, question, Blank::new(1))
}

/// What the question finds in the records that the pass has seen, as for `finding`. The read tail is not loaded, and no ask is noted.
pub fn finding_seen<P: Pass>(
    log: &MultiLog,
    alloc: Global,
    pass: &mut P,
    question: &Ask,
) -> Result<Finding, Memory>
    requires reads { IsReading log.now (P.held pass.old) }
    requires suits { Suits log.now.shape question.now }
    ensures found { IfOk result (λ found. found ≡ finding_in log.now.shape question.now (rows_in (P.held pass.old).view.seen)) }
    ensures walked { OnlyWalked (P.held pass.old) (P.held pass.new) }
{
    finding_seen_by::<P, Brand>(log, alloc, pass, question, Blank::new(1))
}

/// Asks how many records are covered, and answers it.
pub fn tail<P: Pass>(log: &MultiLog, pass: &mut P) -> u32
    requires of { IsOf (P.held pass.old) log.now }
    ensures asked { HasAsked log.now.shape (P.held pass.old) (P.held pass.new) }
    ensures tail { result ≡ length (P.held pass.new).view.seen }
{
    tail_by::<P, Brand>(log, pass, Blank::new(1))
}

/// The quad of what the aggregate measures of its records that are covered then and have a bucket in the range, both ends taken in, and how
/// many records are covered. It takes no memory.
pub fn measure<P: Pass>(log: &MultiLog, pass: &mut P, lane: u8, low: u64, high: u64) -> (u32, Quad)
    requires of { IsOf (P.held pass.old) log.now }
    requires suits { is_aggregate log.now.shape lane ≡ true }
    ensures asked { HasAsked log.now.shape (P.held pass.old) (P.held pass.new) }
    ensures tail { result.0 ≡ length (P.held pass.new).view.seen }
    ensures quad { result.1 ≡ total_over log.now.shape lane (is_keyed_between log.now.shape lane low high) (rows_in (P.held pass.new).view.seen) }
{
    measure_by::<P, Brand>(log, pass, lane, low, high, Blank::new(1))
}

/// The groups of a lane that measures something: for each key that a record has which is covered then, ascending, the key and the quad of
/// what the lane measures of its records; and how many records are covered. Where the lane keeps the rows of a bucket apart, a group has
/// those of one bucket and one value, and all records are gone over.
pub fn groups<P: Pass>(
    log: &MultiLog,
    alloc: Global,
    pass: &mut P,
    lane: u8,
) -> Result<(u32, Vec<Group>), Memory>
    requires lane { IsOnLane log.now lane (P.held pass.old) }
    requires measured { is_measured log.now.shape lane ≡ true }
    ensures ok { IfOk result
        (λ found. HasAsked log.now.shape (P.held pass.old) (P.held pass.new) × (found.0 ≡ length (P.held pass.new).view.seen)
        × (found.1.items ≡ map as_group (groups_by log.now.shape lane (rows_in (P.held pass.new).view.seen)))) }
    ensures memory { IfErr result (λ _. HasAsked log.now.shape (P.held pass.old) (P.held pass.new)) }
{
    groups_by_steps::<P, Brand>(log, alloc, pass, lane, Blank::new(1))
}

/// The groups of a lane that measures something, as for `groups`, in the records that the pass has seen. The read tail is not loaded, and no
/// ask is noted.
pub fn groups_seen<P: Pass>(
    log: &MultiLog,
    alloc: Global,
    pass: &mut P,
    lane: u8,
) -> Result<Vec<Group>, Memory>
    requires measures { IsMeasuring log.now lane (P.held pass.old) }
    ensures found { IfOk result (λ found. found.items ≡ map as_group (groups_by log.now.shape lane (rows_in (P.held pass.old).view.seen))) }
    ensures walked { OnlyWalked (P.held pass.old) (P.held pass.new) }
{
    groups_seen_by::<P, Brand>(log, alloc, pass, lane, Blank::new(1))
}

/// The row of the record at that offset, which the pass knows as covered.
pub fn row<P: Pass>(log: &MultiLog, alloc: Global, pass: &mut P, offset: u32) -> Result<Row, Memory>
    requires covered { IsCovered log.now (P.held pass.old) offset }
    ensures row { IfOk result (λ row. row ≡ row_at (rows_in (P.held pass.old).view.seen) offset) }
    ensures looked { OnlyLooked (P.held pass.old) (P.held pass.new) }
{
    row_by::<P, Brand>(log, alloc, pass, offset, Blank::new(1))
}

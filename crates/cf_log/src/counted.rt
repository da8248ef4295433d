// Each call with steps that nobody reads.
ghost use Rattle.std.specs.Prelude.{◌≡◌, ◌<◌, ◌≤◌, length, map, true, IfOk, IfErr};
ghost use Rattle.cf_shape.specs.Uses.{is_measured};
ghost use Rattle.cf_table.specs.Values.{IsOf};
ghost use Rattle.cf_table.specs.Moves.{OnlyLooked, IsReading};
ghost use Rattle.cf_append.specs.Appends.{HasAppended, HasSettledTo, MayAppend};
ghost use Rattle.cf_append.specs.Paths.{Remembers, KeepsLeaves};
ghost use Rattle.cf_plain.specs.Asks.{Suits, eval, is_aggregate, is_keyed_between, row_at, rows_in, total_over};
ghost use Rattle.cf_plain.specs.Groups.{groups as groups_by, as_group};
ghost use Rattle.cf_plain.specs.Segments.{finding_in};
ghost use Rattle.cf_query.specs.Walks.{OnlyWalked, IsMeasuring, IsOnLane};
ghost use Rattle.cf_query.specs.Asking.{HasAsked};
ghost use Rattle.cf_query.specs.Looking.{IsCovered};

use cf_append::{AppendFault, Leaves, Settled};
use cf_fold::Quad;
use cf_plain::{Answer, Ask, Finding, Group};
use cf_row::{Memory, Row};
use cf_table::{MultiLog, Pass, Steps, WriterPass};
use std::alloc::Global;
use std::sync::ledger::{Blank, Ledger};

pub(crate) fn append_by<L: Ledger>(
    log: &MultiLog,
    pass: &mut WriterPass,
    row: &Row,
    leaves: &mut Leaves,
    blank: Blank,
) -> Result<u32, AppendFault>
    requires may { MayAppend log.now row.now pass.old }
    requires near { Remembers log.now.shape pass.old.view leaves.old }
    requires blank { (blank.name ≡ L.name) × (blank.parts ≡ L.parts) × (0 < L.parts) }
    ensures appended { HasAppended log.now.shape row.now pass.old pass.new result }
    ensures near { Remembers log.now.shape pass.new.view leaves.new }
    ensures kept { IfOk result (λ _. KeepsLeaves log.now.shape row.now leaves.new (length log.now.shape.lanes)) }
{
    let mut steps = Steps::<L>::new(blank);
    cf_append::append_near(log, pass, row, leaves, &mut steps)
}

pub(crate) fn settle_by<L: Ledger>(
    log: &MultiLog,
    pass: &mut WriterPass,
    offset: u32,
    blank: Blank,
) -> Settled
    requires of { IsOf pass.old log.now }
    requires place { offset < log.now.shape.capacity }
    requires blank { (blank.name ≡ L.name) × (blank.parts ≡ L.parts) × (0 < L.parts) }
    ensures { HasSettledTo log.now.shape offset pass.old pass.new result }
{
    let mut steps = Steps::<L>::new(blank);
    cf_append::settle(log, pass, offset, &mut steps)
}

pub(crate) fn ask_by<P: Pass, L: Ledger>(
    log: &MultiLog,
    alloc: Global,
    pass: &mut P,
    question: &Ask,
    blank: Blank,
) -> Result<Answer, Memory>
    requires of { IsOf (P.held pass.old) log.now }
    requires suits { Suits log.now.shape question.now }
    requires blank { (blank.name ≡ L.name) × (blank.parts ≡ L.parts) × (0 < L.parts) }
    ensures ok { IfOk result
        (λ answer. HasAsked log.now.shape (P.held pass.old) (P.held pass.new) × (answer.tail ≡ length (P.held pass.new).view.seen)
        × (answer.body ≡ eval log.now.shape question.now (P.held pass.new).view.seen)) }
    ensures memory { IfErr result (λ _. HasAsked log.now.shape (P.held pass.old) (P.held pass.new)) }
{
    let mut steps = Steps::<L>::new(blank);
    cf_query::ask(log, alloc, pass, question, &mut steps)
}

pub(crate) fn ask_seen_by<P: Pass, L: Ledger>(
    log: &MultiLog,
    alloc: Global,
    pass: &mut P,
    question: &Ask,
    blank: Blank,
) -> Result<Answer, Memory>
    requires reads { IsReading log.now (P.held pass.old) }
    requires suits { Suits log.now.shape question.now }
    requires blank { (blank.name ≡ L.name) × (blank.parts ≡ L.parts) × (0 < L.parts) }
    ensures ok { IfOk result (λ answer. (answer.tail ≡ length (P.held pass.old).view.seen) × (answer.body ≡ eval log.now.shape question.now (P.held pass.old).view.seen)) }
    ensures walked { OnlyWalked (P.held pass.old) (P.held pass.new) }
{
    let mut steps = Steps::<L>::new(blank);
    cf_query::ask_seen(log, alloc, pass, question, &mut steps)
}

pub(crate) fn finding_by<P: Pass, L: Ledger>(
    log: &MultiLog,
    alloc: Global,
    pass: &mut P,
    question: &Ask,
    blank: Blank,
) -> Result<(u32, Finding), Memory>
    requires of { IsOf (P.held pass.old) log.now }
    requires suits { Suits log.now.shape question.now }
    requires blank { (blank.name ≡ L.name) × (blank.parts ≡ L.parts) × (0 < L.parts) }
    ensures ok { IfOk result
        (λ found. HasAsked log.now.shape (P.held pass.old) (P.held pass.new) × (found.0 ≡ length (P.held pass.new).view.seen)
        × (found.1 ≡ finding_in log.now.shape question.now (rows_in (P.held pass.new).view.seen))) }
    ensures memory { IfErr result (λ _. HasAsked log.now.shape (P.held pass.old) (P.held pass.new)) }
{
    let mut steps = Steps::<L>::new(blank);
    cf_query::finding(log, alloc, pass, question, &mut steps)
}

pub(crate) fn finding_seen_by<P: Pass, L: Ledger>(
    log: &MultiLog,
    alloc: Global,
    pass: &mut P,
    question: &Ask,
    blank: Blank,
) -> Result<Finding, Memory>
    requires reads { IsReading log.now (P.held pass.old) }
    requires suits { Suits log.now.shape question.now }
    requires blank { (blank.name ≡ L.name) × (blank.parts ≡ L.parts) × (0 < L.parts) }
    ensures found { IfOk result (λ found. found ≡ finding_in log.now.shape question.now (rows_in (P.held pass.old).view.seen)) }
    ensures walked { OnlyWalked (P.held pass.old) (P.held pass.new) }
{
    let mut steps = Steps::<L>::new(blank);
    cf_query::finding_seen(log, alloc, pass, question, &mut steps)
}

pub(crate) fn tail_by<P: Pass, L: Ledger>(log: &MultiLog, pass: &mut P, blank: Blank) -> u32
    requires of { IsOf (P.held pass.old) log.now }
    requires blank { (blank.name ≡ L.name) × (blank.parts ≡ L.parts) × (0 < L.parts) }
    ensures asked { HasAsked log.now.shape (P.held pass.old) (P.held pass.new) }
    ensures tail { result ≡ length (P.held pass.new).view.seen }
{
    let mut steps = Steps::<L>::new(blank);
    cf_query::tail(log, pass, &mut steps)
}

pub(crate) fn measure_by<P: Pass, L: Ledger>(
    log: &MultiLog,
    pass: &mut P,
    lane: u8,
    low: u64,
    high: u64,
    blank: Blank,
) -> (u32, Quad)
    requires of { IsOf (P.held pass.old) log.now }
    requires suits { is_aggregate log.now.shape lane ≡ true }
    requires blank { (blank.name ≡ L.name) × (blank.parts ≡ L.parts) × (0 < L.parts) }
    ensures asked { HasAsked log.now.shape (P.held pass.old) (P.held pass.new) }
    ensures tail { result.0 ≡ length (P.held pass.new).view.seen }
    ensures quad { result.1 ≡ total_over log.now.shape lane (is_keyed_between log.now.shape lane low high) (rows_in (P.held pass.new).view.seen) }
{
    let mut steps = Steps::<L>::new(blank);
    cf_query::measure(log, pass, lane, low, high, &mut steps)
}

pub(crate) fn groups_by_steps<P: Pass, L: Ledger>(
    log: &MultiLog,
    alloc: Global,
    pass: &mut P,
    lane: u8,
    blank: Blank,
) -> Result<(u32, Vec<Group>), Memory>
    requires lane { IsOnLane log.now lane (P.held pass.old) }
    requires measured { is_measured log.now.shape lane ≡ true }
    requires blank { (blank.name ≡ L.name) × (blank.parts ≡ L.parts) × (0 < L.parts) }
    ensures ok { IfOk result
        (λ found. HasAsked log.now.shape (P.held pass.old) (P.held pass.new) × (found.0 ≡ length (P.held pass.new).view.seen)
        × (found.1.items ≡ map as_group (groups_by log.now.shape lane (rows_in (P.held pass.new).view.seen)))) }
    ensures memory { IfErr result (λ _. HasAsked log.now.shape (P.held pass.old) (P.held pass.new)) }
{
    let mut steps = Steps::<L>::new(blank);
    cf_query::groups(log, alloc, pass, lane, &mut steps)
}

pub(crate) fn groups_seen_by<P: Pass, L: Ledger>(
    log: &MultiLog,
    alloc: Global,
    pass: &mut P,
    lane: u8,
    blank: Blank,
) -> Result<Vec<Group>, Memory>
    requires measures { IsMeasuring log.now lane (P.held pass.old) }
    requires blank { (blank.name ≡ L.name) × (blank.parts ≡ L.parts) × (0 < L.parts) }
    ensures found { IfOk result (λ found. found.items ≡ map as_group (groups_by log.now.shape lane (rows_in (P.held pass.old).view.seen))) }
    ensures walked { OnlyWalked (P.held pass.old) (P.held pass.new) }
{
    let mut steps = Steps::<L>::new(blank);
    cf_query::groups_seen(log, alloc, pass, lane, &mut steps)
}

pub(crate) fn row_by<P: Pass, L: Ledger>(
    log: &MultiLog,
    alloc: Global,
    pass: &mut P,
    offset: u32,
    blank: Blank,
) -> Result<Row, Memory>
    requires covered { IsCovered log.now (P.held pass.old) offset }
    requires blank { (blank.name ≡ L.name) × (blank.parts ≡ L.parts) × (0 < L.parts) }
    ensures row { IfOk result (λ row. row ≡ row_at (rows_in (P.held pass.old).view.seen) offset) }
    ensures looked { OnlyLooked (P.held pass.old) (P.held pass.new) }
{
    let mut steps = Steps::<L>::new(blank);
    cf_query::row(log, alloc, pass, offset, &mut steps)
}

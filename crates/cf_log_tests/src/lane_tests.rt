ghost use Rattle.std.specs.Prelude.{◌≡◌, ◌<◌, OnOk};
ghost use Rattle.cf_table.specs.Values.{IsOf};
ghost use Rattle.cf_plain.specs.Asks.{Suits};
ghost use Rattle.cf_log_tests.specs.Writers.{IsWriters};

use crate::tests::{
    append_at, atom, check, dealt, expr_of, numbers_of, row_of, shape_of, triggers, two_of,
};
use cf_fold::{Part, Trigger};
use cf_plain::{Ask, Body, Plain, suits};
use cf_query::{finding, groups, measure};
use cf_row::{Kind, Memory, Op, Row, fits};
use cf_shape::Key;
use cf_table::{MultiLog, Pass, ReaderPass, Steps, WriterPass};
use std::alloc::Global;
use std::marker::Brand;
use std::process::Abort;
use std::sync::ledger::{Blank, Ledger};
use std::test::*;

// Measures the first bucket, and compares the tail and the quad.
fn check_bucket<P: Pass, L: Ledger, R: Abort>(
    rt: &R,
    log: &MultiLog,
    pass: &mut P,
    wanted: &[u64],
    steps: &mut Steps<L>,
)
    requires of { IsOf (P.held pass.old) log.now }
    ensures { IsOf (P.held pass.new) log.now }
{
    assert!(rt; suits(log.shape(), &Ask::Measure(0, 0, 0)));
    let (tail, quad) = measure(log, pass, 0, 0, 0, steps);
    let found = [
        u64::from(tail),
        quad.count(),
        quad.sum(),
        quad.least(),
        quad.greatest(),
    ];
    assert_eq!(rt; found.as_slice(), wanted);
}

// The second writer's ticket stays in flight: nothing behind it is covered, and an older version of the chain counts.
fn measure_below<L: Ledger, R: Abort>(
    rt: &R,
    alloc: Global,
    log: &MultiLog,
    mut first: WriterPass,
    mut second: WriterPass,
    steps: &mut Steps<L>,
) -> Result<(), Fail>
    requires ready { IsWriters log.now 0 first × IsWriters log.now 1 second }
{
    let seven = row_of(alloc, 0, &[3, 7])?;
    assert!(rt; fits(log.shape().schema(), &seven));
    let one = row_of(alloc, 1, &[4, 1])?;
    assert!(rt; fits(log.shape().schema(), &one));
    append_at(rt, log, 0, &mut first, &seven, 0, steps);
    assert!(rt; !second.over());
    let _number = one.num();
    log.take_ticket(&mut second, &one, steps);
    append_at(rt, log, 0, &mut first, &one, 2, steps);
    check_bucket(rt, log, &mut first, &[1, 1, 7, 7, 7], steps);
    let below = Ask::Between(0, 0, 0);
    assert!(rt; suits(log.shape(), &below));
    check(rt, log, alloc, &mut first, &below, &[1, 0], steps)?;
    Ok(())
}

fn one_in_flight<L: Ledger, R: Abort>(rt: &R, alloc: Global, blank: Blank) -> Result<(), Fail>
    requires { (blank.name ≡ L.name) × (blank.parts ≡ L.parts) × (0 < L.parts) }
{
    let mut steps = Steps::<L>::new(blank);
    let kinds = [("ts", Kind::U64), ("len", Kind::U32)];
    let shape = shape_of(rt, alloc, &kinds, &[(Key::Bucket, Some(1))], 4, 2)?;
    let (log, _root, passes) = dealt(alloc, shape)?;
    let (first, second) = two_of(rt, passes);
    measure_below(rt, alloc, &log, first, second, &mut steps)
}

#[test]
fn a_ticket_in_flight_covers_nothing_behind_it(rt: HostRuntime) -> Result<(), Fail> {
    one_in_flight::<Brand, _>(&rt, rt.alloc(), Blank::new(1))
}

// The groups of the first lane are as a list of one thread measures their buckets, and have all rows.
fn agree_in_groups<P: Pass, L: Ledger, R: Abort>(
    rt: &R,
    alloc: Global,
    log: &MultiLog,
    pass: &mut P,
    plain: &Plain,
    steps: &mut Steps<L>,
) -> Result<(), Memory>
    requires of { IsOf (P.held pass.old) log.now }
    ensures { OnOk result (IsOf (P.held pass.new) log.now) }
{
    assert!(rt; suits(log.shape(), &Ask::Measure(0, 0, 0)));
    let (tail, found) = groups(log, alloc, pass, 0, steps)?;
    let mut count = 0u64;
    for group in found.iter() {
        let bucket = Ask::Measure(0, group.key, group.key);
        assert!(rt; suits(plain.shape(), &bucket));
        let wanted = plain.ask(alloc, &bucket)?;
        assert!(rt; matches!(&wanted.body, Body::Total(quad) if *quad == group.quad));
        count = count.wrapping_add(group.quad.count());
    }
    assert_eq!(rt; count, u64::from(tail));
    assert_eq!(rt; tail as usize, plain.entries().len());
    Ok(())
}

// What the question finds tells that answer.
fn check_finding<P: Pass, L: Ledger, R: Abort>(
    rt: &R,
    alloc: Global,
    log: &MultiLog,
    pass: &mut P,
    question: &Ask,
    wanted: &[u64],
    steps: &mut Steps<L>,
) -> Result<(), Memory>
    requires of { IsOf (P.held pass.old) log.now }
    requires suits { Suits log.now.shape question.now }
    ensures { OnOk result (IsOf (P.held pass.new) log.now) }
{
    let (tail, found) = finding(log, alloc, pass, question, steps)?;
    let body = found.body(alloc, question)?;
    let mut numbers = Vec::new(alloc);
    numbers.push(u64::from(tail))?;
    numbers.extend_from_slice(&numbers_of(alloc, &body)?)?;
    assert_eq!(rt; numbers.as_slice(), wanted);
    Ok(())
}

// Asks the log, and a list of one thread that has the same entries.
fn agree<P: Pass, L: Ledger, R: Abort>(
    rt: &R,
    alloc: Global,
    log: &MultiLog,
    pass: &mut P,
    plain: &Plain,
    questions: &[Ask],
    steps: &mut Steps<L>,
) -> Result<(), Memory>
    requires of { IsOf (P.held pass.old) log.now }
    ensures { OnOk result (IsOf (P.held pass.new) log.now) }
{
    for question in questions {
        assert!(rt; suits(log.shape(), question));
        assert!(rt; suits(plain.shape(), question));
        let answer = plain.ask(alloc, question)?;
        let mut wanted = Vec::new(alloc);
        wanted.push(u64::from(answer.tail))?;
        wanted.extend_from_slice(&numbers_of(alloc, &answer.body)?)?;
        check(rt, log, alloc, pass, question, &wanted, steps)?;
        check_finding(rt, alloc, log, pass, question, &wanted, steps)?;
    }
    Ok(())
}

// Appends the row to the log and to the list.
fn append_both<L: Ledger, R: Abort>(
    rt: &R,
    log: &MultiLog,
    plain: &mut Plain,
    writer: u8,
    pass: &mut WriterPass,
    row: Row,
    steps: &mut Steps<L>,
) -> Result<(), Memory>
    requires ready { IsWriters log.now writer pass.old }
    ensures { OnOk result (IsWriters log.now writer pass.new) }
{
    assert!(rt; fits(log.shape().schema(), &row));
    assert!(rt; fits(plain.shape().schema(), &row));
    let offset = plain.entries().len();
    assert!(rt; offset < 1 << 20);
    append_at(rt, log, writer, pass, &row, offset as u32, steps);
    plain.append(writer, row)?;
    Ok(())
}

// A row of a number that was drawn.
fn drawn_row(alloc: Global, number: u64) -> Result<Row, Memory> {
    let high = number / 4_294_967_296;
    row_of(alloc, 0, &[high % 40, high / 40 % 8, high / 320 % 100])
}

fn draw(number: u64) -> u64 {
    number
        .wrapping_mul(6_364_136_223_846_793_005)
        .wrapping_add(1_442_695_040_888_963_407)
}

fn questions(alloc: Global) -> Result<Vec<Ask>, Memory> {
    let mut questions = triggers(alloc, [3, 90, 9, 60])?;
    questions.push(Ask::List(expr_of(alloc, &[&[atom(1, Op::Lt, 3)]])?))?;
    questions.push(Ask::Find(1, 2, 5))?;
    questions.push(Ask::Find(1, 3, 3))?;
    questions.push(Ask::Between(0, 1, 2))?;
    questions.push(Ask::Measure(0, 0, 1))?;
    questions.push(Ask::Top(2, Part::Sum, 3))?;
    questions.push(Ask::Groups(2))?;
    questions.push(Ask::Groups(3))?;
    questions.push(Ask::Fired(Trigger {
        agg: 3,
        part: Part::Sum,
        op: Op::Gt,
        number: 60,
    }))?;
    questions.push(Ask::Total(2, expr_of(alloc, &[&[atom(1, Op::Lt, 3)]])?))?;
    Ok(questions)
}

// Two writers append drawn rows in turn, and a reader asks in between.
fn compare<L: Ledger, R: Abort>(
    rt: &R,
    alloc: Global,
    log: &MultiLog,
    mut plain: Plain,
    mut first: WriterPass,
    mut second: WriterPass,
    mut reader: ReaderPass,
    steps: &mut Steps<L>,
) -> Result<(), Memory>
    requires ready { IsWriters log.now 0 first × IsWriters log.now 1 second }
    requires of { IsOf reader log.now }
{
    let questions = questions(alloc)?;
    let mut number = 1;
    for _ in 0..6 {
        number = draw(number);
        let row = drawn_row(alloc, number)?;
        append_both(rt, log, &mut plain, 0, &mut first, row, steps)?;
        agree(rt, alloc, log, &mut reader, &plain, &questions, steps)?;
        number = draw(number);
        let row = drawn_row(alloc, number)?;
        append_both(rt, log, &mut plain, 1, &mut second, row, steps)?;
    }
    agree(rt, alloc, log, &mut reader, &plain, &questions, steps)?;
    agree_in_groups(rt, alloc, log, &mut reader, &plain, steps)
}

fn drawn<L: Ledger, R: Abort>(rt: &R, alloc: Global, blank: Blank) -> Result<(), Fail>
    requires { (blank.name ≡ L.name) × (blank.parts ≡ L.parts) × (0 < L.parts) }
{
    let mut steps = Steps::<L>::new(blank);
    let kinds = [("ts", Kind::U64), ("k", Kind::U8), ("len", Kind::U16)];
    let lanes = [
        (Key::Bucket, Some(2)),
        (Key::Attr(1), None),
        (Key::Attr(1), Some(2)),
        (Key::BucketBy(1), Some(2)),
    ];
    let shape = shape_of(rt, alloc, &kinds, &lanes, 16, 2)?;
    let plain = Plain::new(alloc, shape.copy(alloc)?);
    let (log, mut root, passes) = dealt(alloc, shape)?;
    let reader = log.fork(&mut root);
    let (first, second) = two_of(rt, passes);
    compare(rt, alloc, &log, plain, first, second, reader, &mut steps)?;
    Ok(())
}

#[test]
fn drawn_rows_as_on_the_list_of_one_thread(rt: HostRuntime) -> Result<(), Fail> {
    drawn::<Brand, _>(&rt, rt.alloc(), Blank::new(1))
}

ghost use Rattle.std.specs.Prelude.{◌≡◌, ◌<◌, ◌∷◌, List, IfOk, OnOk};
ghost use Rattle.cf_row.specs.Row.{Fits};
ghost use Rattle.cf_table.specs.Values.{PassValue, IsOf};
ghost use Rattle.cf_plain.specs.Asks.{Suits};
ghost use Rattle.cf_log_tests.specs.Writers.{IsWriters, AreDealtOut};

use cf_append::{Settled, append, append_wait, settle};
use cf_fold::{Part, Trigger};
use cf_plain::{Answer, Ask, Body, Plain, suits};
use cf_query::{ask, row, tail};
use cf_row::{
    Atom, Attr, Conjunction, Entry, Expr, Kind, Memory, Name, Op, Row, Schema, Value, fits,
};
use cf_shape::{Key, Lane, Shape, belongs};
use cf_table::{Closed, MultiLog, Pass, Root, Steps, WriterPass};
use std::alloc::Global;
use std::marker::Brand;
use std::process::Abort;
use std::sync::Wait;
use std::sync::ledger::{Blank, Ledger};
use std::test::*;
use std::thread::{Threads, join};

fn attrs(alloc: Global, kinds: &[(&str, Kind)]) -> Result<Vec<Attr>, Memory> {
    let mut attrs = Vec::new(alloc);
    for (name, kind) in kinds {
        attrs.push(Attr {
            name: Name::new(alloc, name)?,
            kind: *kind,
        })?;
    }
    Ok(attrs)
}

pub(crate) fn row_of(alloc: Global, num: u32, numbers: &[u64]) -> Result<Row, Memory> {
    let mut values = Vec::new(alloc);
    for number in numbers {
        values.push(Value::Num(*number))?;
    }
    Ok(Row::new(num, values))
}

pub(crate) fn atom(attr: u8, op: Op, number: u64) -> Atom {
    Atom {
        attr,
        op,
        low: Value::Num(number),
        high: Value::Num(number),
    }
}

pub(crate) fn expr_of(alloc: Global, conjunctions: &[&[Atom]]) -> Result<Expr, Memory> {
    let mut all = Vec::new(alloc);
    for atoms in conjunctions {
        all.push(Conjunction::new(atoms.to_vec(alloc)?))?;
    }
    Ok(Expr::new(all))
}

fn all_rows(alloc: Global) -> Result<Ask, Memory> {
    Ok(Ask::List(expr_of(alloc, &[&[]])?))
}

// A shape with these lanes, each of which takes all rows.
pub(crate) fn shape_of<R: Abort>(
    rt: &R,
    alloc: Global,
    kinds: &[(&str, Kind)],
    lanes: &[(Key, Option<u8>)],
    capacity: u32,
    writers: u8,
) -> Result<Shape, Fail>
    ensures { IfOk result (λ shape. shape.writers ≡ writers) }
{
    let schema = Schema::new(attrs(alloc, kinds)?)?;
    let mut all = Vec::new(alloc);
    for (key, measure) in lanes {
        all.push(Lane {
            select: expr_of(alloc, &[&[]])?,
            key: *key,
            measure: *measure,
        })?;
    }
    assert!(rt; belongs(&schema, &all));
    Ok(Shape::new(schema, all, capacity, writers, 64, 10)?)
}

// A log of that shape, with all its books dealt.
pub(crate) fn dealt(alloc: Global, shape: Shape) -> Result<(MultiLog, Root, Vec<WriterPass>), Fail>
    ensures { IfOk result (λ r. AreDealtOut shape r.0 r.1 r.2.items) }
{
    let (log, mut root) = MultiLog::open(alloc, shape)?;
    let passes = log.deal(alloc, &mut root)?;
    Ok((log, root, passes))
}

// The first pass.
fn first_of<R: Abort>(rt: &R, passes: Vec<WriterPass>) -> WriterPass
    ensures { (rest : List PassValue) × (passes.items ≡ result ∷ rest) }
{
    passes.into_iter().next().expect(rt, "a pass")
}

// The first two passes.
pub(crate) fn two_of<R: Abort>(rt: &R, passes: Vec<WriterPass>) -> (WriterPass, WriterPass)
    ensures { (rest : List PassValue) × (passes.items ≡ result.0 ∷ result.1 ∷ rest) }
{
    let mut passes = passes.into_iter();
    let first = passes.next().expect(rt, "a pass");
    let second = passes.next().expect(rt, "a second pass");
    (first, second)
}

// The key beside a bucket, if there is one.
fn push_key(numbers: &mut Vec<u64>, key: Option<u64>) -> Result<(), Memory> {
    if let Some(key) = key {
        numbers.push(key)?;
    }
    Ok(())
}

// The numbers of a body, in order.
pub(crate) fn numbers_of(alloc: Global, body: &Body) -> Result<Vec<u64>, Memory> {
    let mut numbers = Vec::new(alloc);
    match body {
        Body::Places(places) => {
            for place in places.as_slice() {
                numbers.push(u64::from(*place))?;
            }
        }
        Body::Total(quad) => {
            let four = [quad.count(), quad.sum(), quad.least(), quad.greatest()];
            numbers.extend_from_slice(&four)?;
        }
        Body::Marks(marks) | Body::Tops(marks) => {
            for mark in marks.as_slice() {
                numbers.push(mark.bucket)?;
                push_key(&mut numbers, mark.key)?;
                numbers.push(mark.value)?;
            }
        }
        Body::Groups(groups) => {
            for group in groups.as_slice() {
                let quad = group.quad;
                numbers.push(group.key)?;
                push_key(&mut numbers, group.by)?;
                let four = [quad.count(), quad.sum(), quad.least(), quad.greatest()];
                numbers.extend_from_slice(&four)?;
            }
        }
    }
    Ok(numbers)
}

// Asks, and compares the tail and then what was found.
pub(crate) fn check<P: Pass, L: Ledger, R: Abort>(
    rt: &R,
    log: &MultiLog,
    alloc: Global,
    pass: &mut P,
    question: &Ask,
    wanted: &[u64],
    steps: &mut Steps<L>,
) -> Result<(), Memory>
    requires of { IsOf (P.held pass.old) log.now }
    requires suits { Suits log.now.shape question.now }
    ensures { OnOk result (IsOf (P.held pass.new) log.now) }
{
    let answer = ask(log, alloc, pass, question, steps)?;
    let mut numbers = Vec::new(alloc);
    numbers.push(u64::from(answer.tail))?;
    numbers.extend_from_slice(&numbers_of(alloc, &answer.body)?)?;
    assert_eq!(rt; numbers.as_slice(), wanted);
    Ok(())
}

// Appends the row as the writer's next, at this offset.
pub(crate) fn append_at<L: Ledger, R: Abort>(
    rt: &R,
    log: &MultiLog,
    writer: u8,
    pass: &mut WriterPass,
    row: &Row,
    offset: u32,
    steps: &mut Steps<L>,
)
    requires fits { Fits log.now.shape.schema row.now }
    requires ready { IsWriters log.now writer pass.old }
    ensures { IsWriters log.now writer pass.new }
{
    assert!(rt; pass.writer() == writer);
    let answer = append(log, pass, row, steps);
    assert!(rt; matches!(answer, Ok(found) if found == offset));
}

fn ask_between<L: Ledger, R: Abort + Wait>(
    rt: &R,
    alloc: Global,
    log: &MultiLog,
    mut first: WriterPass,
    mut second: WriterPass,
    steps: &mut Steps<L>,
) -> Result<(), Fail>
    requires ready { IsWriters log.now 0 first × IsWriters log.now 1 second }
{
    let row = row_of(alloc, 0, &[7])?;
    assert!(rt; fits(log.shape().schema(), &row));
    let all = all_rows(alloc)?;
    assert!(rt; suits(log.shape(), &all));
    append_at(rt, log, 0, &mut first, &row, 0, steps);
    append_at(rt, log, 1, &mut second, &row, 1, steps);
    assert!(rt; log.shape().capacity() == 8);
    assert!(rt; matches!(settle(log, &mut first, 0, steps), Settled::Covered));
    check(rt, log, alloc, &mut first, &all, &[2, 0, 1], steps)?;
    assert!(rt; matches!(append_wait(log, rt, &mut second, &row, steps), Ok(2)));
    Ok(())
}

fn two_writers<L: Ledger, R: Abort + Wait>(rt: &R, alloc: Global, blank: Blank) -> Result<(), Fail>
    requires { (blank.name ≡ L.name) × (blank.parts ≡ L.parts) × (0 < L.parts) }
{
    let mut steps = Steps::<L>::new(blank);
    let shape = shape_of(rt, alloc, &[("ts", Kind::U64)], &[], 8, 2)?;
    let (log, _root, passes) = dealt(alloc, shape)?;
    let (first, second) = two_of(rt, passes);
    ask_between(rt, alloc, &log, first, second, &mut steps)
}

#[test]
fn a_question_between_appends(rt: HostRuntime) -> Result<(), Fail> {
    two_writers::<Brand, _>(&rt, rt.alloc(), Blank::new(1))
}

// A log for one writer, and readers who tell each other what they have seen.
fn two_readers<L: Ledger, R: Abort>(rt: &R, alloc: Global, blank: Blank) -> Result<(), Fail>
    requires { (blank.name ≡ L.name) × (blank.parts ≡ L.parts) × (0 < L.parts) }
{
    let mut steps = Steps::<L>::new(blank);
    let shape = shape_of(rt, alloc, &[("ts", Kind::U64)], &[], 2, 1)?;
    let (log, mut root) = MultiLog::open(alloc, shape)?;
    let mut first = log.fork(&mut root);
    let mut second = log.fork(&mut root);
    let mut writer = first_of(rt, log.deal(alloc, &mut root)?);

    let sent = row_of(alloc, 5, &[7])?;
    assert!(rt; fits(log.shape().schema(), &sent));
    assert!(rt; matches!(append(&log, &mut writer, &sent, &mut steps), Ok(0)));

    let all = all_rows(alloc)?;
    assert!(rt; suits(log.shape(), &all));
    let answer = ask(&log, alloc, &mut first, &all, &mut steps)?;
    assert_eq!(rt; answer.tail, 1);

    log.meet(&mut first, &mut second);
    assert!(rt; second.covered() > 0);
    let read = row(&log, alloc, &mut second, 0, &mut steps)?;
    assert_eq!(rt; (read.num(), read.number(0)), (5, 7));
    assert_eq!(rt; tail(&log, &mut second, &mut steps), 1);

    log.gather(&mut root, vec![in alloc; writer]?);
    log.fold_back(&mut root, first);
    log.fold_back(&mut root, second);
    let closed = log.close(alloc, root).ok().expect(rt, "memory");
    assert_eq!(rt; closed.entries.len(), 1);
    assert_eq!(rt; times_in(&closed, 0, 5), 1);
    Ok(())
}

#[test]
fn readers_tell_each_other(rt: HostRuntime) -> Result<(), Fail> {
    two_readers::<Brand, _>(&rt, rt.alloc(), Blank::new(1))
}

// How often the log has a row of that number and writer.
fn times_in(closed: &Closed, writer: u8, num: u32) -> usize {
    closed
        .entries
        .iter()
        .filter(|entry| entry.writer == writer && entry.row.num() == num)
        .count()
}

// The writer's row of that number is appended, and then the question is asked. There is no answer where a call had none.
fn round<L: Ledger>(
    log: &MultiLog,
    alloc: Global,
    _writer: u8,
    pass: &mut WriterPass,
    num: u32,
    question: &Ask,
    steps: &mut Steps<L>,
) -> Option<Answer>
    requires ready { IsWriters log.now _writer pass.old }
    ensures { IsWriters log.now _writer pass.new }
{
    let Ok(row) = row_of(alloc, num, &[u64::from(num) % 4 * 10, u64::from(num) % 7]) else {
        return None;
    };
    if !fits(log.shape().schema(), &row) || !suits(log.shape(), question) {
        return None;
    }
    if append(log, pass, &row, steps).is_err() {
        return None;
    }
    ask(log, alloc, pass, question, steps).ok()
}

fn rounds<L: Ledger>(
    log: &MultiLog,
    alloc: Global,
    writer: u8,
    mut pass: WriterPass,
    questions: &[Ask],
    mut steps: Steps<L>,
) -> (WriterPass, Vec<Answer>)
    requires ready { IsWriters log.now writer pass }
    ensures { IsWriters log.now writer result.0 }
{
    let mut answers = Vec::new(alloc);
    let mut num = 0;
    for question in questions {
        let answer = round(log, alloc, writer, &mut pass, num, question, &mut steps);
        if let Some(answer) = answer {
            // Where memory is refused one answer is missing.
            let _ = answers.push(answer);
        }
        num = num.wrapping_add(1);
    }
    (pass, answers)
}

// What the two writers were answered.
type Replies = (Vec<Answer>, Vec<Answer>);

// Each writer appends and asks in a thread of its own.
fn beside<L: Ledger + Send + Sync, M: Ledger + Send + Sync, R: Threads + Sync + Abort>(
    rt: &R,
    alloc: Global,
    log: &MultiLog,
    first: WriterPass,
    second: WriterPass,
    questions: &[Ask],
    blanks: (Blank, Blank),
) -> (WriterPass, WriterPass, Replies)
    requires ready { IsWriters log.now 0 first × IsWriters log.now 1 second }
    requires one { (blanks.0.name ≡ L.name) × (blanks.0.parts ≡ L.parts) × (0 < L.parts) }
    requires other { (blanks.1.name ≡ M.name) × (blanks.1.parts ≡ M.parts) × (0 < M.parts) }
    ensures { IsWriters log.now 0 result.0 × IsWriters log.now 1 result.1 }
{
    let (blank, another) = blanks;
    let mine = Steps::<L>::new(blank);
    let others = Steps::<M>::new(another);
    let (low, high) = join(
        rt,
        || -> (WriterPass, Vec<Answer>)
            requires { IsWriters log.now 0 first }
            ensures { IsWriters log.entry.now 0 result.0 }
        { rounds(log, alloc, 0, first, questions, mine) },
        || -> (WriterPass, Vec<Answer>)
            requires { IsWriters log.now 1 second }
            ensures { IsWriters log.entry.now 1 result.0 }
        { rounds(log, alloc, 1, second, questions, others) },
    );
    (low.0, high.0, (low.1, high.1))
}

// A list of one thread with the first entries.
fn first_entries<R: Abort>(
    rt: &R,
    alloc: Global,
    shape: &Shape,
    entries: &[Entry],
    tail: u32,
) -> Result<Plain, Memory> {
    let mut plain = Plain::new(alloc, shape.copy(alloc)?);
    for entry in entries.iter().take(tail as usize) {
        assert!(rt; fits(plain.shape().schema(), &entry.row));
        assert!(rt; plain.entries().len() < 1 << 20);
        plain.append(entry.writer, entry.row.copy(alloc)?)?;
    }
    Ok(plain)
}

// Each question was answered, as on a list of one thread with as many of the entries.
fn replay<R: Abort>(
    rt: &R,
    alloc: Global,
    shape: &Shape,
    entries: &[Entry],
    questions: &[Ask],
    answers: &[Answer],
) -> Result<(), Memory> {
    assert_eq!(rt; answers.len(), questions.len());
    for (question, answer) in questions.iter().zip(answers) {
        let plain = first_entries(rt, alloc, shape, entries, answer.tail)?;
        assert!(rt; suits(plain.shape(), question));
        let wanted = plain.ask(alloc, question)?;
        assert_eq!(rt; answer.tail, wanted.tail);
        let numbers = numbers_of(alloc, &answer.body)?;
        let same = numbers_of(alloc, &wanted.body)?;
        assert_eq!(rt; numbers.as_slice(), same.as_slice());
    }
    Ok(())
}

fn at_once<L: Ledger + Send + Sync, M: Ledger + Send + Sync, R: Threads + Sync + Abort>(
    rt: &R,
    alloc: Global,
    blanks: (Blank, Blank),
) -> Result<(), Fail>
    requires one { (blanks.0.name ≡ L.name) × (blanks.0.parts ≡ L.parts) × (0 < L.parts) }
    requires other { (blanks.1.name ≡ M.name) × (blanks.1.parts ≡ M.parts) × (0 < M.parts) }
{
    let kinds = [("ts", Kind::U64), ("len", Kind::U32)];
    let shape = shape_of(rt, alloc, &kinds, &[(Key::Bucket, Some(1))], 50, 2)?;
    let same = shape.copy(alloc)?;
    let mut questions = triggers(alloc, [5, 12, 1, 4])?;
    questions.push(all_rows(alloc)?)?;
    let (log, mut root, passes) = dealt(alloc, shape)?;
    let (first, second) = two_of(rt, passes);
    let (first, second, replies) = beside::<L, M, R>(
        rt, alloc, &log, first, second, &questions, blanks,
    );
    log.gather(&mut root, vec![in alloc; first, second]?);
    let closed = log.close(alloc, root).ok().expect(rt, "memory");
    assert_eq!(rt; closed.entries.len(), 50);
    for num in 0..25 {
        assert_eq!(rt; times_in(&closed, 0, num), 1);
        assert_eq!(rt; times_in(&closed, 1, num), 1);
    }
    replay(rt, alloc, &same, &closed.entries, &questions, &replies.0)?;
    replay(rt, alloc, &same, &closed.entries, &questions, &replies.1)?;
    Ok(())
}

#[test]
fn writers_ask_in_threads(rt: HostRuntime) -> Result<(), Fail> {
    at_once::<Brand, Brand, _>(&rt, rt.alloc(), (Blank::new(1), Blank::new(1)))
}

fn trigger(part: Part, op: Op, number: u64) -> Ask {
    Ask::Fired(Trigger {
        agg: 0,
        part,
        op,
        number,
    })
}

// A trigger for each operator, over that part.
fn push_triggers(questions: &mut Vec<Ask>, part: Part, number: u64) -> Result<(), Memory> {
    for op in [Op::Eq, Op::Ne, Op::Lt, Op::Le, Op::Gt, Op::Ge] {
        questions.push(trigger(part, op, number))?;
    }
    Ok(())
}

// A trigger for each part and operator. The numbers are for count, sum, least and greatest.
pub(crate) fn triggers(alloc: Global, numbers: [u64; 4]) -> Result<Vec<Ask>, Memory> {
    let mut questions = Vec::new(alloc);
    let [count, sum, least, greatest] = numbers;
    push_triggers(&mut questions, Part::Count, count)?;
    push_triggers(&mut questions, Part::Sum, sum)?;
    push_triggers(&mut questions, Part::Least, least)?;
    push_triggers(&mut questions, Part::Greatest, greatest)?;
    Ok(questions)
}

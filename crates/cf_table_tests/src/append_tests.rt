ghost use Rattle.std.specs.Prelude.{◌≡◌, ◌<◌};
ghost use Rattle.cf_row.specs.Row.{Fits};
ghost use Rattle.cf_table.specs.Values.{IsOf};
ghost use Rattle.cf_table_tests.specs.Fresh.{IsFresh};
ghost use Rattle.cf_append.specs.Appends.{Rests};

use crate::tests::shape;
use cf_append::{Settled, append, settle};
use cf_row::{Memory, Row, Value, fits};
use cf_table::{MultiLog, Pass, Steps, WriterPass};
use std::alloc::Global;
use std::marker::Brand;
use std::process::Abort;
use std::sync::ledger::{Blank, Ledger};
use std::test::*;

fn row(alloc: Global, value: u64) -> Result<Row, Memory> {
    let mut values = Vec::new(alloc);
    values.push(Value::Num(value))?;
    Ok(Row::new(0, values))
}

// The writer takes the offset's ticket for the row, and stores nothing.
fn begin<L: Ledger, R: Abort>(
    rt: &R,
    log: &MultiLog,
    pass: &mut WriterPass,
    row: &Row,
    offset: u32,
    steps: &mut Steps<L>,
)
    requires of { IsOf pass.old log.now }
    requires fits { Fits log.now.shape.schema row.now }
    requires rest { Rests pass.old.view }
{
    assert!(rt; !pass.over());
    let _number = row.num();
    let found = log.take_ticket(pass, row, steps);
    assert!(rt; found == u64::from(offset));
}

// An offset, and what a writer is told of it.
#[derive(Clone, Copy, Drop)]
struct Case {
    offset: u32,
    answer: Settled,
}

fn settle_each<L: Ledger, R: Abort>(
    rt: &R,
    log: &MultiLog,
    pass: &mut WriterPass,
    cases: &[Case],
    steps: &mut Steps<L>,
)
    requires of { IsOf pass.old log.now }
    requires rest { Rests pass.old.view }
    ensures of { IsOf pass.new log.now }
    ensures rest { Rests pass.new.view }
{
    for case in cases {
        assert!(rt; case.offset < log.shape().capacity());
        let answer = settle(log, pass, case.offset, steps);
        assert_eq!(rt; answer, case.answer, "of {}", case.offset);
    }
}

// What the third writer is told while records 1 and 3 aren't finished, and those between and behind them are.
fn behind<L: Ledger, R: Abort>(
    rt: &R,
    log: &MultiLog,
    row: &Row,
    passes: (WriterPass, WriterPass, WriterPass),
    steps: &mut Steps<L>,
)
    requires fits { Fits log.now.shape.schema row.now }
    requires fresh { IsFresh log.now passes.0 × (IsFresh log.now passes.1 × IsFresh log.now passes.2) }
{
    let (mut first, mut second, mut third) = passes;
    assert!(rt; matches!(append(log, &mut first, row, steps), Ok(0)));
    begin(rt, log, &mut first, row, 1, steps);
    assert!(rt; matches!(append(log, &mut third, row, steps), Ok(2)));
    begin(rt, log, &mut second, row, 3, steps);
    assert!(rt; matches!(append(log, &mut third, row, steps), Ok(4)));
    let cases = [
        covered(0),
        after(1, 1),
        after(2, 1),
        after(3, 1),
        after(4, 1),
        after(5, 1),
    ];
    settle_each(rt, log, &mut third, &cases, steps);
}

const fn covered(offset: u32) -> Case {
    Case {
        offset,
        answer: Settled::Covered,
    }
}

const fn after(offset: u32, unfinished: u32) -> Case {
    Case {
        offset,
        answer: Settled::Behind(unfinished),
    }
}

fn three_at_once<L: Ledger, R: Abort>(rt: &R, alloc: Global, blank: Blank) -> Result<(), Fail>
    requires { (blank.name ≡ L.name) × (blank.parts ≡ L.parts) × (0 < L.parts) }
{
    let mut steps = Steps::<L>::new(blank);
    let (log, mut root) = MultiLog::open(alloc, shape(rt, alloc, 8, 3)?)?;
    let row = row(alloc, 7)?;
    assert!(rt; fits(log.shape().schema(), &row));
    let mut passes = log.deal(alloc, &mut root)?.into_iter();
    let first = passes.next().expect(rt, "a pass");
    let second = passes.next().expect(rt, "a pass");
    let third = passes.next().expect(rt, "a pass");
    behind(rt, &log, &row, (first, second, third), &mut steps);
    Ok(())
}

#[test]
fn two_unfinished(rt: HostRuntime) -> Result<(), Fail> {
    three_at_once::<Brand, _>(&rt, rt.alloc(), Blank::new(1))
}

// Rows that come in lists of any size, where no round is made.
ghost use Rattle.std.specs.Prelude.{◌<◌, IfOk};
ghost use Rattle.cf_fill.specs.Filling.{IsFilling};

use crate::load_tests::{SETUP, Sizes, all_fit, allows, load_rows, plan_of, rows_of, sizes_of};
use cf_fill::{Context, Filling};
use cf_load::{LivePlan, Sealing};
use cf_outside::FreeGate;
use cf_plain::{Answer, Body, Loaded};
use cf_row::Memory;
use cf_setup::{Setup, parse_setup, shape_of};
use std::alloc::Global;
use std::process::Abort;
use std::test::Fail;
use std::thread::Threads;

// An empty log of the sizes.
fn open_filling<R: Abort>(
    rt: &R,
    alloc: Global,
    setup: &Setup,
    plan: &LivePlan,
    sizes: Sizes,
) -> Result<Filling, Memory>
    ensures { IfOk result IsFilling }
{
    assert!(rt; 1 <= sizes.capacity && sizes.capacity <= 16384);
    assert!(rt; 1 <= sizes.writers && sizes.writers <= 15);
    let shape = shape_of(alloc, setup, sizes.capacity, sizes.writers, 64)?;
    assert!(rt; allows(&shape, sizes.most));
    assert!(rt; plan.suits(&shape));
    Filling::new(alloc, shape, sizes.most, plan)
}

// The rows of these numbers come.
fn take_some<R: Threads + Sync + Abort>(
    context: &Context<'_, R, FreeGate>,
    filling: &mut Filling,
    from: u32,
    to: u32,
) -> Result<(), Memory>
    requires filled { IsFilling filling.old }
    ensures filled { IfOk result (λ _. IsFilling filling.new) }
{
    let mut rows = rows_of(context.alloc, from, to)?;
    assert!(context.rt; all_fit(filling.shape().schema(), &rows));
    filling.take_rows(context, &mut rows)
}

// So many rows come in lists of so many, the last of which may have fewer.
fn take_all<R: Threads + Sync + Abort>(
    context: &Context<'_, R, FreeGate>,
    filling: &mut Filling,
    count: u32,
    take: u32,
) -> Result<(), Memory>
    requires some { 0 < take }
    requires filled { IsFilling filling.old }
    ensures filled { IfOk result (λ _. IsFilling filling.new) }
{
    for part in 0..count.div_ceil(take) {
        let from = part.saturating_mul(take);
        take_some(context, filling, from, count.min(from.saturating_add(take)))?;
    }
    Ok(())
}

// The same into a log that is empty, and then is closed.
fn take_rows<R: Threads + Sync + Abort>(
    rt: &R,
    alloc: Global,
    sizes: Sizes,
    count: u32,
    take: u32,
) -> Result<(Sealing, Loaded), Memory> {
    assert!(rt; 0 < take);
    let setup = parse_setup(alloc, SETUP).ok().expect(rt, "a setup");
    let plan = plan_of(alloc, &setup, 0, true)?;
    let context = Context {
        rt,
        alloc,
        gate: &FreeGate,
    };
    let mut filling = open_filling(rt, alloc, &setup, &plan, sizes)?;
    take_all(&context, &mut filling, count, take)?;
    assert!(rt; !filling.is_full());
    Ok(filling.finish(&context).ok().expect(rt, "enough nodes"))
}

// Whether they list the same places.
fn is_same(one: &Answer, other: &Answer) -> bool {
    match (&one.body, &other.body) {
        (Body::Places(places), Body::Places(others)) => {
            one.tail == other.tail && places.as_slice() == others.as_slice()
        }
        _ => false,
    }
}

fn are_same(answers: &[Answer], others: &[Answer]) -> bool {
    let mut pairs = answers.iter().zip(others.iter());
    answers.len() == others.len() && pairs.all(|(one, other)| is_same(one, other))
}

// Each row is of its writer, none is lost where a segment ends, and none goes before one of an earlier 4,096.
#[test]
fn rows_are_loaded_as_they_come(rt: HostRuntime) -> Result<(), Fail> {
    let alloc = rt.alloc();
    for (take, capacity, count) in [
        (1, 4096, 4100),
        (4095, 4096, 8192),
        (4097, 8192, 12000),
        (20000, 16384, 20000),
    ] {
        for writers in [1, 3] {
            let sizes = sizes_of(2, capacity, writers);
            let (sealing, loaded) = take_rows(&rt, alloc, sizes, count, take)?;
            let (_, batched) = load_rows(&rt, alloc, sizes, count, (0, true), &FreeGate)?;
            assert_eq!(rt; sealing.seals.len(), 2);
            assert_eq!(rt; sealing.nums.len(), count as usize);
            assert!(rt; loaded.lives().is_empty() && are_same(loaded.finals(), batched.finals()));
            let tags = sealing.nums.iter().zip(sealing.writers.iter());
            for (place, (num, writer)) in (0..count).zip(tags) {
                assert!(rt;
                    *num / 4096 == place / 4096 && u32::from(*writer) == *num % u32::from(writers)
                );
                assert!(rt; writers > 1 || *num == place);
            }
        }
    }
    Ok(())
}

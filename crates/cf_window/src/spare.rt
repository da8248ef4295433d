// The segment that comes next, which a thread of its own opens before a row needs it.
ghost use Rattle.std.specs.Prelude.{◌≡◌, ◌≤◌, [], false, IfOk, IfSome, IsSome};
ghost use Rattle.cf_shape.specs.Lanes.{ShapeValue};
ghost use Rattle.cf_shape.specs.Places.{sizes_of, word_total as word_total_of};

use crate::WindowSegment;
use cf_row::Memory;
use cf_shape::{Shape, word_total};
use std::alloc::Global;
use std::marker::Model;
use std::snapshot::Snapshot;
use std::thread::{Promise, PromisedHandle, Threads, spawn_with};

/// A table of fewer words is filled with zeros in less time than a thread takes to begin, so it is made when it is needed.
const FEW_WORDS: u64 = 16_384;

// That the segment which is opened has this shape, and no row.
#[derive(Drop)]
struct IsEmptyOf(Snapshot<Shape>);

impl Promise<Result<WindowSegment, Memory>> for IsEmptyOf {
    ghost kept_by = { λ p r. IfOk r (λ segment. segment ≡ record { shape = (p.0).value; rows = []; is_spent = false }) };
}

/// A segment that a thread opens. Contracts see its shape.
#[derive(Drop)]
pub(crate) struct Spare {
    thread: PromisedHandle<Result<WindowSegment, Memory>, IsEmptyOf>,
}

impl Model for Spare {
    ghost use Rattle.cf_shape.specs.Lanes.{ShapeValue};

    ghost Value = { ShapeValue };

    ghost view = { λ s. ((s.thread.promise).0).value };
}

impl Spare {
    /// Begins to open a segment of the shape. There is none if its table is small, if memory runs out or if no thread can be made.
    pub(crate) fn begin<R: Threads>(rt: &R, alloc: Global, shape: &Shape) -> Option<Spare>
        requires one { shape.now.writers ≡ 1 }
        ensures shape { IfSome result (λ spare. spare ≡ shape.now) }
        ensures large { IfSome result (λ _. 16384 ≤ word_total_of (sizes_of shape.now)) }
    {
        if word_total(shape) < FEW_WORDS {
            return None;
        }
        let shape = shape.copy(alloc).ok()?;
        let promise = IsEmptyOf(Snapshot::of(&shape));
        let thread = spawn_with(rt, promise, move || WindowSegment::open(alloc, shape)).ok()?;
        Some(Spare { thread })
    }

    /// The segment, once its thread has opened it.
    pub(crate) fn join<R: Threads>(self, rt: &R) -> Result<WindowSegment, Memory>
        ensures { IfOk result (λ segment. segment ≡ record { shape = self; rows = []; is_spent = false }) }
    {
        let Spare { thread } = self;
        thread.join(rt)
    }
}

/// Begins to open a segment of the shape, unless there is a spare or one begins to be.
pub(crate) fn prepare_spare<R: Threads>(
    rt: &R,
    alloc: Global,
    shape: &Shape,
    spare: &mut Option<Spare>,
)
    requires one { shape.now.writers ≡ 1 }
    requires shaped { IfSome spare.old (λ spare. spare ≡ shape.now) }
    ensures shaped { IfSome spare.new (λ spare. spare ≡ shape.now) }
    ensures kept { IsSome spare.old → spare.new ≡ spare.old }
{
    if spare.is_none() {
        *spare = Spare::begin(rt, alloc, shape);
    }
}

/// The spare, or a segment that is opened now, if there is none or if its thread had no memory.
pub(crate) fn next_segment<R: Threads>(
    rt: &R,
    alloc: Global,
    shape: &Shape,
    spare: Option<Spare>,
) -> Result<WindowSegment, Memory>
    requires one { shape.now.writers ≡ 1 }
    requires spare { IfSome spare (λ spare. spare ≡ shape.now) }
    ensures { IfOk result (λ segment. segment ≡ record { shape = shape.now; rows = []; is_spent = false }) }
{
    if let Some(spare) = spare {
        if let Ok(segment) = spare.join(rt) {
            return Ok(segment);
        }
    }
    WindowSegment::open(alloc, shape.copy(alloc)?)
}

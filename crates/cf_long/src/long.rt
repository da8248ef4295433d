// A log of any length.
ghost use Rattle.std.specs.Prelude.{◌≡◌, ◌-◌, ◌+◌, ◌<◌, ◌≤◌, ◌^◌, ◌++◌, List, [], All, length, true, false, IfErr, IfOk, MatchResult};
ghost use Rattle.cf_row.specs.Row.{Fits, RowValue};
ghost use Rattle.cf_shape.specs.Lanes.{IsShape};
ghost use Rattle.cf_segments.specs.Segments.{AllowsSegments};
ghost use Rattle.cf_load.specs.Planned.{IsPlan};
ghost use Rattle.cf_fill.specs.Logs.{IsUnmade};
ghost use Rattle.cf_long.specs.Answered.{AreAnswers};
ghost use Rattle.cf_long.specs.Growing.{IsSmaller, count_in, waiting_in};
ghost use Rattle.cf_long.specs.Longs.{HaveNodes, IsLong, IsSomeLong, KeepsLong, MayFollow, TakesSome, count_of, shape_in};

use crate::answers::{Answers, answers_of};
use crate::growing::Growing;
use crate::joins::join_each;
use crate::segment::nothings;
use cf_fill::{Context, Unmade};
use cf_load::LivePlan;
use cf_outside::Gate;
use cf_plain::Finding;
use cf_row::{Memory, Row};
use cf_shape::Shape;
use std::alloc::Global;
use std::marker::Model;
use std::mem;
use std::thread::Threads;

/// A log of any length, whose rows are numbered one by one from 0. They go into one segment, batch by batch; once it is full it is asked
/// each question and each trigger once and let go, and the next one takes its place. What was found is kept, and no other row.
#[derive(Drop)]
pub struct Long {
    alloc: Global,
    plan: LivePlan,
    // The shape with which the next segment is opened: with few nodes, until one needed more.
    small: Shape,
    // The segment that rows go to.
    segment: Growing,
    // What each question and then each trigger found in the rows before it.
    found: Vec<Finding>,
    // How many these are.
    gone: u32,
}

impl Model for Long {
    ghost use Rattle.cf_long.specs.Longs.{HoldsFew, LongValue};

    ghost Value = { LongValue };

    ghost view = { λ l. record { plan = l.plan; small = l.small; segment = l.segment; found = l.found.items; gone = l.gone } };

    // There is one segment, and few rows wait for it, whatever came of the calls before.
    ghost invariant = { λ l. HoldsFew l.segment };
}

// The shape with which the next segment is opened: that of this one, or with all nodes if its rows needed more.
fn next_small(alloc: Global, small: &Shape, shape: &Shape, has_grown: bool) -> Result<Shape, Memory>
    requires smaller { IsSmaller shape.now small.now }
    ensures { IfOk result (λ next. IsSmaller shape.now next) }
{
    if has_grown {
        return shape.copy(alloc);
    }
    small.copy(alloc)
}

impl Long {
    /// A log with no row, in segments of the shape, of which is asked what the plan says. No live question is asked. Segments are opened
    /// with the nodes of the smaller shape, which differs in nothing else, until one of them needs more.
    pub fn new(alloc: Global, small: Shape, shape: &Shape, plan: LivePlan) -> Result<Long, Memory>
        requires smaller { IsSmaller shape.now small }
        requires allowed { AllowsSegments shape.now 1 }
        requires plan { IsPlan shape.now plan }
        requires quiet { plan.rounds ≡ 0 }
        ensures shape { IfOk result (λ long. shape_in long ≡ shape.now) }
        ensures plan { IfOk result (λ long. long.plan ≡ plan) }
        ensures none { IfOk result (λ long. IsLong long []) }
    {
        let asks = plan.questions(alloc)?;
        let found = nothings(alloc, &asks)?;
        let segment = Growing::new(alloc, &small, shape)?;
        Ok(Long {
            alloc,
            plan,
            small,
            segment,
            found,
            gone: 0,
        })
    }

    // From where the log is allocated.
    pub(crate) fn alloc(&self) -> Global {
        self.alloc
    }

    /// The shape of its segments.
    pub fn shape(&self) -> &Shape
        ensures { result.now ≡ shape_in self.now }
    {
        self.segment.shape()
    }

    /// How many rows came.
    pub fn count(&self) -> u32
        requires long { IsSomeLong self.now }
        ensures { result ≡ count_of self.now }
    {
        self.gone + self.segment.count()
    }

    /// How many more rows may come.
    pub fn room(&self) -> u32
        requires long { IsSomeLong self.now }
        ensures { result + count_of self.now + 1 ≡ 2 ^ 32 }
    {
        u32::MAX - self.count()
    }

    // Whether its segment has as many rows as it may.
    fn is_full(&self) -> bool
        requires long { IsSomeLong self.now }
        ensures full { result ≡ true → count_in self.now.segment ≡ (shape_in self.now).capacity }
        ensures room { result ≡ false → count_in self.now.segment < (shape_in self.now).capacity }
    {
        self.segment.count() >= self.segment.shape().capacity()
    }

    // Where its segment is full, asks it all that the plan asks and lets it go. The next one is opened for its first row, so that one table
    // is there at a time.
    fn make_room<R: Threads + Sync, G: Gate>(
        &mut self,
        context: &Context<'_, R, G>,
    ) -> Result<(), Unmade>
        requires long { IsSomeLong self.old }
        ensures keeps { KeepsLong self.old self.new }
        ensures long { IfOk result (λ _. (rows : List RowValue) → IsLong self.old rows → IsLong self.new rows) }
        ensures count { IfOk result (λ _. count_of self.new ≡ count_of self.old) }
        ensures room { IfOk result (λ _. count_in self.new.segment < (shape_in self.new).capacity) }
        ensures unmade { IfErr result (λ why. (rows : List RowValue) → IsLong self.old rows → IsUnmade (shape_in self.old) rows why) }
    {
        if !self.is_full() {
            return Ok(());
        }
        let Context { alloc, .. } = *context;
        let next = Growing::new(alloc, &self.small, self.segment.shape())?;
        let full = mem::replace(&mut self.segment, next);
        let count = full.count();
        let (more, has_grown) = full.let_go(context, &self.plan, self.gone)?;
        self.small = next_small(alloc, &self.small, self.segment.shape(), has_grown)?;
        let found = mem::replace(&mut self.found, Vec::new(alloc));
        self.found = join_each(alloc, self.gone, found, more)?;
        self.gone += count;
        Ok(())
    }

    // Takes as many of the rows as its segment has room for.
    fn take_some<R: Threads + Sync, G: Gate>(
        &mut self,
        context: &Context<'_, R, G>,
        rows: &mut Vec<Row>,
    ) -> Result<(), Unmade>
        requires long { IsSomeLong self.old }
        requires some { 0 < length rows.old.items }
        requires fit { All (Fits (shape_in self.old).schema) rows.old.items }
        requires follow { MayFollow self.old rows.old.items }
        ensures keeps { KeepsLong self.old self.new }
        ensures takes { IfOk result (λ _. TakesSome self.old self.new rows.old.items rows.new.items) }
        ensures some { IfOk result (λ _. IsSomeLong self.new) }
        ensures fewer { IfOk result (λ _. length rows.new.items < length rows.old.items) }
        ensures fit { IfOk result (λ _. All (Fits (shape_in self.new).schema) rows.new.items) }
        ensures follow { IfOk result (λ _. MayFollow self.new rows.new.items) }
        ensures unmade { IfErr result (λ why. (before : List RowValue) → IsLong self.old before
            → IsUnmade (shape_in self.old) (before ++ rows.old.items) why) }
    {
        self.make_room(context)?;
        let room = self.segment.shape().capacity() - self.segment.count();
        let most = rows.len().min(room as usize);
        let rest = rows.split_off(most)?;
        self.segment.take_rows(context, &self.plan, rows)?;
        *rows = rest;
        Ok(())
    }

    /// Takes the next rows out of the list, which are numbered on. Each batch that they end is loaded. Each segment that they fill, but for
    /// the last, is asked all that the plan asks and let go.
    pub fn take_rows<R: Threads + Sync, G: Gate>(
        &mut self,
        context: &Context<'_, R, G>,
        rows: &mut Vec<Row>,
    ) -> Result<(), Unmade>
        requires long { IsSomeLong self.old }
        requires fit { All (Fits (shape_in self.old).schema) rows.old.items }
        requires follow { MayFollow self.old rows.old.items }
        ensures keeps { KeepsLong self.old self.new }
        ensures long { IfOk result (λ _. (before : List RowValue) → IsLong self.old before → IsLong self.new (before ++ rows.old.items)) }
        ensures few { IfOk result (λ _. length (waiting_in self.new.segment) < 4096) }
        ensures none { IfOk result (λ _. rows.new.items ≡ []) }
        ensures unmade { IfErr result (λ why. (before : List RowValue) → IsLong self.old before
            → IsUnmade (shape_in self.old) (before ++ rows.old.items) why) }
    {
        while !rows.is_empty() {
            self.take_some(context, rows)?;
        }
        Ok(())
    }

    /// Asks the last segment all that the plan asks, and answers about all rows.
    pub fn finish<R: Threads + Sync, G: Gate>(
        self,
        context: &Context<'_, R, G>,
    ) -> Result<Answers, Unmade>
        requires long { IsSomeLong self }
        ensures { (rows : List RowValue) → IsLong self rows
            → MatchResult result (λ answers. AreAnswers (shape_in self) self.plan.asks.items self.plan.triggers.items rows answers × HaveNodes (shape_in self) rows)
            (IsUnmade (shape_in self) rows) }
    {
        let Context { alloc, .. } = *context;
        let count = self.count();
        let Long {
            plan,
            segment,
            found,
            gone,
            ..
        } = self;
        let (more, _) = segment.let_go(context, &plan, gone)?;
        let all = join_each(alloc, gone, found, more)?;
        Ok(answers_of(alloc, &plan, count, all)?)
    }
}

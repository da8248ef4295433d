// A log that rows fill as they come.
ghost use Rattle.std.specs.Prelude.{◌≡◌, ◌⊎◌, ◌<◌, ◌≤◌, ◌+◌, ◌%◌, ◌++◌, List, [], All, length, min, true, false, IfOk, IsTrue, MatchResult, OnOk};
ghost use Rattle.cf_row.specs.Row.{Fits, RowValue};
ghost use Rattle.cf_shape.specs.Lanes.{IsShape};
ghost use Rattle.cf_segments.specs.Segments.{AllowsSegments, room_of};
ghost use Rattle.cf_load.specs.Planned.{IsPlan, IsSamePlan};
ghost use Rattle.cf_fill.specs.Filling.{AreLoaded, Fills, HasBatch, HasCome, HasRows, IsFilled, IsFilling, IsLoadedFor, IsWaiting, KeepsLog, LoadsWaiting, LoadsWhole};
ghost use Rattle.cf_fill.specs.Logs.{IsLogFound, IsLogSealed, IsUnmade};

use crate::context::Context;
use crate::log::Unmade;
use cf_load::{BATCH, LivePlan, LoadFault, Loader, Sealing, Segments};
use cf_outside::Gate;
use cf_plain::{Finding, Loaded};
use cf_row::{Memory, Row};
use cf_shape::Shape;
use std::alloc::{AllocError, Global};
use std::marker::Model;
use std::mem;
use std::thread::Threads;

/// A log that rows fill as they come. With rounds they fill it batch by batch: those of the next batch wait, and no other row is kept
/// beside the log. With none they are loaded as soon as they come. None waits once no more is loaded, because there are more than the
/// log may hold or a writer has no node left.
#[derive(Drop)]
pub struct Filling {
    alloc: Global,
    segments: Segments,
    loader: Loader,
    waiting: Vec<Row>,
    // How many rows came, up to one more than there is room for.
    count: u32,
}

impl Model for Filling {
    ghost use Rattle.cf_fill.specs.Filling.{FillingValue};

    ghost Value = { FillingValue };

    ghost view = { λ f. record { segments = f.segments; loader = f.loader; waiting = f.waiting.items; count = f.count } };
}

// Puts rows behind those that wait. Where none waits, none is moved.
fn put_behind(waiting: &mut Vec<Row>, mut rows: Vec<Row>) -> Result<(), Memory>
    ensures { OnOk result (waiting.new.items ≡ waiting.old.items ++ rows.items) }
{
    if waiting.is_empty() {
        *waiting = rows;
        return Ok(());
    }
    waiting.append(&mut rows)
}

// Loads a batch.
fn load<R: Threads + Sync, G: Gate>(
    context: &Context<'_, R, G>,
    segments: &mut Segments,
    loader: &mut Loader,
    rows: &[Row],
) -> Result<(), Memory>
    requires { HasBatch segments.old rows.now loader.old }
    ensures shape { segments.new.shape ≡ segments.old.shape }
    ensures most { segments.new.most ≡ segments.old.most }
    ensures plan { loader.new.plan ≡ loader.old.plan }
    ensures loaded { IfOk result (λ _. LoadsWaiting rows.now segments.old segments.new loader.old loader.new) }
{
    let Context { rt, alloc, gate } = *context;
    match loader.batch(rt, alloc, segments, rows, gate) {
        Ok(()) => Ok(()),
        // This stopped the loader.
        Err(LoadFault::NodesFull(_)) => Ok(()),
        Err(LoadFault::Memory) => Err(AllocError),
        Err(LoadFault::Full) => unreachable!(),
    }
}

// Loads the whole batches with which the rows begin, while the loader goes on. The answer is how many rows they have.
fn load_whole<R: Threads + Sync, G: Gate>(
    context: &Context<'_, R, G>,
    segments: &mut Segments,
    loader: &mut Loader,
    rows: &[Row],
) -> Result<usize, Memory>
    requires rows { HasRows segments.old rows.now loader.old }
    requires due { 0 < loader.old.plan.rounds }
    ensures shape { segments.new.shape ≡ segments.old.shape }
    ensures most { segments.new.most ≡ segments.old.most }
    ensures plan { loader.new.plan ≡ loader.old.plan }
    ensures whole { IfOk result (λ count. LoadsWhole count rows.now segments.old segments.new loader.old loader.new) }
{
    let mut count = 0;
    while rows.len() - count >= BATCH {
        if loader.stopped() {
            return Ok(count);
        }
        load(context, segments, loader, &rows[count..count + BATCH])?;
        count += BATCH;
    }
    Ok(count)
}

// Loads the rows in parts, each of as many as the loader takes at once, while it goes on. No round is made.
fn load_parts<R: Threads + Sync, G: Gate>(
    context: &Context<'_, R, G>,
    segments: &mut Segments,
    loader: &mut Loader,
    rows: &[Row],
) -> Result<(), Memory>
    requires rows { HasRows segments.old rows.now loader.old }
    requires quiet { loader.old.plan.rounds ≡ 0 }
    ensures shape { segments.new.shape ≡ segments.old.shape }
    ensures most { segments.new.most ≡ segments.old.most }
    ensures plan { loader.new.plan ≡ loader.old.plan }
    ensures loaded { IfOk result (λ _. LoadsWaiting rows.now segments.old segments.new loader.old loader.new) }
{
    let mut count = 0;
    while count < rows.len() {
        if loader.stopped() {
            return Ok(());
        }
        let part = loader.most(segments).min(rows.len() - count);
        load(context, segments, loader, &rows[count..count + part])?;
        count += part;
    }
    Ok(())
}

// How many rows end a batch behind so many and so many more.
fn left_of_batch(before: usize, more: usize) -> usize
    ensures { result + (before + more) % 4096 ≡ 4096 }
{
    BATCH - (before % BATCH + more % BATCH) % BATCH
}

impl Filling {
    /// An empty log of at most so many segments of the shape, of which is asked what the plan says.
    pub fn new(alloc: Global, shape: Shape, most: u32, plan: &LivePlan) -> Result<Filling, Memory>
        requires allowed { AllowsSegments shape most }
        requires plan { IsPlan shape plan.now }
        ensures shape { IfOk result (λ filling. filling.segments.shape ≡ shape) }
        ensures most { IfOk result (λ filling. filling.segments.most ≡ most) }
        ensures plan { IfOk result (λ filling. IsSamePlan plan.now filling.loader.plan) }
        ensures none { IfOk result (λ filling. IsFilled filling []) }
    {
        let segments = Segments::open(alloc, shape, most)?;
        let loader = Loader::new(alloc, &segments, plan)?;
        Ok(Filling {
            alloc,
            segments,
            loader,
            waiting: Vec::new(alloc),
            count: 0,
        })
    }

    /// Where the log is allocated.
    pub(crate) fn alloc(&self) -> Global {
        self.alloc
    }

    /// The shape of its segments.
    pub fn shape(&self) -> &Shape
        ensures shape { result.now ≡ self.now.segments.shape }
        ensures lawful { IsShape self.now.segments.shape }
    {
        self.segments.shape()
    }

    /// How many rows came, up to one more than the log may hold.
    pub fn count(&self) -> u32
        ensures { result ≡ self.now.count }
    {
        self.count
    }

    /// Whether more rows came than the log may hold.
    pub fn is_full(&self) -> bool
        ensures full { IsTrue result → room_of self.now.segments < self.now.count }
        ensures room { result ≡ false → self.now.count ≤ room_of self.now.segments }
    {
        self.count > self.segments.room()
    }

    /// How many rows the log may hold.
    pub fn room(&self) -> u32
        ensures { result ≡ room_of self.now.segments }
    {
        self.segments.room()
    }

    /// How many rows end the next batch, once so many more came: behind those that wait, or with no round behind all that came.
    pub fn wanted(&self, more: usize) -> usize
        ensures some { (0 < result) × (result ≤ 4096) }
        ensures ends { 0 < self.now.loader.plan.rounds → result + (length self.now.waiting + more) % 4096 ≡ 4096 }
    {
        if self.loader.makes_no_round() {
            return left_of_batch(self.count as usize, more);
        }
        left_of_batch(self.waiting.len(), more)
    }

    // Counts rows that came. The answer is whether they are counted alone: there is no room for all, or the loader was stopped.
    fn counts_alone(&mut self, more: usize) -> bool
        requires filled { IsFilling self.old }
        ensures counted { self.new ≡ record self.old { count = min (self.old.count + more) (room_of self.old.segments + 1) } }
        ensures alone { IsTrue result → (room_of self.old.segments < self.old.count + more) ⊎ (self.old.loader.stopped ≡ true) }
        ensures due { result ≡ false → (self.old.count + more ≤ room_of self.old.segments) × (self.old.loader.stopped ≡ false) }
    {
        let room = self.segments.room() as usize;
        let count = (self.count as usize).saturating_add(more);
        self.count = count.min(room + 1) as u32;
        count > room || self.loader.stopped()
    }

    // Loads the whole batches that wait. Once no more is loaded, none waits.
    fn load_batches<R: Threads + Sync, G: Gate>(
        &mut self,
        context: &Context<'_, R, G>,
    ) -> Result<(), Memory>
        requires waiting { (rows : List RowValue) × IsWaiting self.old rows }
        ensures keeps { KeepsLog self.old self.new }
        ensures filled { IfOk result (λ _. (rows : List RowValue) → IsWaiting self.old rows → IsFilled self.new rows) }
    {
        let count = load_whole(context, &mut self.segments, &mut self.loader, &self.waiting)?;
        if self.loader.stopped() {
            self.waiting.clear();
            return Ok(());
        }
        // What is left is put where the batches were, whose room is kept.
        let mut rest = self.waiting.split_off(count)?;
        self.waiting.clear();
        self.waiting.append(&mut rest)
    }

    // Loads rows that have come, and none waits.
    fn load_now<R: Threads + Sync, G: Gate>(
        &mut self,
        context: &Context<'_, R, G>,
        rows: &[Row],
    ) -> Result<(), Memory>
        requires come { (before : List RowValue) × HasCome self.old before rows.now }
        ensures keeps { KeepsLog self.old self.new }
        ensures filled { IfOk result (λ _. (before : List RowValue) → HasCome self.old before rows.now → IsFilled self.new (before ++ rows.now)) }
    {
        load_parts(context, &mut self.segments, &mut self.loader, rows)
    }

    /// Takes the next rows out of the list. Each batch that they end is loaded, and with no round all of them.
    pub fn take_rows<R: Threads + Sync, G: Gate>(
        &mut self,
        context: &Context<'_, R, G>,
        rows: &mut Vec<Row>,
    ) -> Result<(), Memory>
        requires fit { All (Fits self.old.segments.shape.schema) rows.old.items }
        requires filled { IsFilling self.old }
        ensures keeps { KeepsLog self.old self.new }
        ensures stops { self.old.loader.stopped ≡ true → self.new.loader.stopped ≡ true }
        ensures filled { IfOk result (λ _. Fills self.old self.new rows.old.items) }
        ensures none { rows.new.items ≡ [] }
    {
        let taken = mem::replace(rows, Vec::new(context.alloc));
        if self.counts_alone(taken.len()) {
            self.waiting.clear();
            return Ok(());
        }
        if self.loader.makes_no_round() {
            return self.load_now(context, &taken);
        }
        put_behind(&mut self.waiting, taken)?;
        self.load_batches(context)
    }

    // Whether no rows wait to be loaded, or none can be.
    fn is_done(&self) -> bool
        ensures done { IsTrue result → (self.now.loader.stopped ≡ true) ⊎ ((self.now.loader.stopped ≡ false) × (self.now.waiting ≡ [])) }
        ensures waits { result ≡ false → (self.now.loader.stopped ≡ false) × (0 < length self.now.waiting) }
    {
        self.loader.stopped() || self.waiting.is_empty()
    }

    // Loads the last rows, which may be fewer than a batch.
    fn load_last<R: Threads + Sync, G: Gate>(
        &mut self,
        context: &Context<'_, R, G>,
    ) -> Result<(), Memory>
        requires filled { IsFilling self.old }
        requires few { self.old.count ≤ room_of self.old.segments }
        ensures keeps { KeepsLog self.old self.new }
        ensures loaded { IfOk result (λ _. (rows : List RowValue) → IsFilled self.old rows → AreLoaded self.new.segments rows self.new.loader) }
    {
        if self.is_done() {
            return Ok(());
        }
        load(context, &mut self.segments, &mut self.loader, &self.waiting)
    }

    // The log with all of its rows.
    fn loaded<R: Threads + Sync, G: Gate>(
        mut self,
        context: &Context<'_, R, G>,
    ) -> Result<(Segments, Loader), Unmade>
        requires filled { IsFilling self }
        requires few { self.count ≤ room_of self.segments }
        ensures { (rows : List RowValue) → IsFilled self rows
            → MatchResult result (λ made. IsLoadedFor self.segments.shape self.loader.plan rows made.0 made.1)
            (IsUnmade self.segments.shape rows) }
    {
        self.load_last(context)?;
        if self.loader.stopped() {
            return Err(Unmade::Nodes);
        }
        Ok((self.segments, self.loader))
    }

    /// Loads the last rows, asks all questions of the whole log, and closes it: the numbers and writers of its entries are read, and
    /// no other word of them.
    pub fn finish<R: Threads + Sync, G: Gate>(
        self,
        context: &Context<'_, R, G>,
    ) -> Result<(Sealing, Loaded), Unmade>
        requires filled { IsFilling self }
        requires few { self.count ≤ room_of self.segments }
        ensures { (rows : List RowValue) → IsFilled self rows
            → MatchResult result (λ made. IsLogSealed self.segments.shape self.loader.plan rows made.0 made.1)
            (IsUnmade self.segments.shape rows) }
    {
        let (mut segments, loader) = self.loaded(context)?;
        let answers = loader.finish(context.rt, context.alloc, &mut segments)?;
        match segments.seal(context.alloc) {
            Ok(sealing) => Ok((sealing, answers)),
            Err(_) => Err(Unmade::Memory),
        }
    }

    /// The same, but for what the questions and triggers found in place of their answers: it can be joined with what they find in
    /// rows elsewhere.
    pub fn find<R: Threads + Sync, G: Gate>(
        self,
        context: &Context<'_, R, G>,
    ) -> Result<(Sealing, Vec<Finding>), Unmade>
        requires filled { IsFilling self }
        requires few { self.count ≤ room_of self.segments }
        ensures { (rows : List RowValue) → IsFilled self rows
            → MatchResult result (λ made. IsLogFound self.segments.shape self.loader.plan rows made.0 made.1.items)
            (IsUnmade self.segments.shape rows) }
    {
        let (mut segments, loader) = self.loaded(context)?;
        let found = loader.find(context.rt, context.alloc, &mut segments)?;
        match segments.seal(context.alloc) {
            Ok(sealing) => Ok((sealing, found)),
            Err(_) => Err(Unmade::Memory),
        }
    }
}

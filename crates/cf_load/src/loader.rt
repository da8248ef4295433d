// A log is loaded batch by batch, as its rows come.
ghost use Rattle.std.specs.Prelude.{◌≡◌, ◌+◌, ◌<◌, ◌≤◌, ℕ, List, [], All, length, IfOk, IsTrue, MatchResult, OnErr, true, false};
ghost use Rattle.cf_row.specs.Row.{Fits, RowValue};
ghost use Rattle.cf_segments.specs.Segments.{SegmentsValue, HoldsRows, KeepsAll};
ghost use Rattle.cf_load.specs.Loaders.{IsFresh, IsLoading, IsBatched, IsRefused, IsFinished, IsFoundIn, MayLoad, StayInSegment};
ghost use Rattle.cf_load.specs.Planned.{IsPlan};
ghost use Rattle.cf_load.specs.Priors.{KnowsBefore};

use crate::finals::{answers_on_all, findings_on_all};
use crate::prior::FoundBefore;
use crate::reader::Beside;
use crate::segment_asks::{load_current, make_ready};
use crate::{LivePlan, LoadFault, Segments};
use cf_outside::Gate;
use cf_plain::{Finding, Live, Loaded};
use cf_row::{Memory, Row};
use std::alloc::Global;
use std::marker::Model;
use std::thread::Threads;

/// Loads segments batch by batch, as their rows come. It keeps the live answers so far, and no row. Contracts speak of the rows
/// that it has loaded.
#[derive(Drop)]
pub struct Loader {
    plan: LivePlan,
    // How many rows are loaded.
    count: u32,
    lives: Vec<Live>,
    stopped: bool,
    // What the live questions found before the current segment.
    found: FoundBefore,
}

impl Model for Loader {
    ghost use Rattle.cf_load.specs.Loaders.{LoaderValue};

    ghost Value = { LoaderValue };

    ghost view = { λ l. record { plan = l.plan; count = l.count; lives = l.lives.items; stopped = l.stopped; found = l.found } };
}

// How many rows more are in one segment behind so many: in the current one, or in the next, where it is full.
fn left_in_segment(segments: &Segments, count: u32) -> u32
    requires { (before : List RowValue) × (length before ≡ count) × HoldsRows segments.now before }
    ensures some { 0 < result }
    ensures stay { (more : ℕ) → more ≤ result → StayInSegment segments.now count more }
{
    let capacity = segments.shape().capacity();
    let end = segments.base() + capacity;
    if count < end {
        return end - count;
    }
    capacity
}

impl Loader {
    /// A loader of segments with no row, which asks what the plan says.
    pub fn new(alloc: Global, segments: &Segments, plan: &LivePlan) -> Result<Loader, Memory>
        requires plan { IsPlan segments.now.shape plan.now }
        ensures fresh { IfOk result (IsFresh plan.now) }
        ensures loading { IfOk result (λ loader. HoldsRows segments.now [] → IsLoading segments.now [] loader) }
    {
        let plan = plan.copy(alloc)?;
        let found = FoundBefore::none(alloc, segments.shape(), &plan)?;
        Ok(Loader {
            plan,
            count: 0,
            lives: Vec::new(alloc),
            stopped: false,
            found,
        })
    }

    // Loads a batch. Refused, the loader is as it was, but for what the live questions found before the segment that is current now.
    fn append<R: Threads + Sync, G: Gate>(
        &mut self,
        rt: &R,
        alloc: Global,
        segments: &mut Segments,
        rows: &[Row],
        gate: &G,
    ) -> Result<(), LoadFault>
        requires loading { (before : List RowValue) × IsLoading segments.old before self.old }
        requires some { 0 < length rows.now }
        requires may { MayLoad segments.old self.old.plan self.old.count (length rows.now) }
        requires fits { All (Fits segments.old.shape.schema) rows.now }
        ensures batched { (before : List RowValue) → IsLoading segments.old before self.old
            → MatchResult result (λ _. IsBatched before rows.now self.old self.new segments.old segments.new) (IsRefused before rows.now segments.old segments.new) }
        ensures stopped { OnErr result (self.new ≡ record self.old { found = self.new.found }) }
        ensures known { (before : List RowValue) → IsLoading segments.old before self.old → KnowsBefore segments.new self.new.plan self.new.found }
    {
        if self.count as usize + rows.len() > segments.room() as usize {
            return Err(LoadFault::Full);
        }
        make_ready(segments, alloc, self.count, &self.plan, &mut self.found)?;
        let beside = Beside {
            alloc,
            gate,
            plan: &self.plan,
            prior: &self.found,
            first: self.count,
            batch: self.count / 4096,
        };
        let mut more = load_current(rt, segments, rows, &beside)?;
        self.lives.append(&mut more)?;
        self.count += rows.len() as u32;
        Ok(())
    }

    /// Loads the next batch by as many writers as the shape has, each in a thread of its own where one can be made; row k of all
    /// batches is of writer k modulo their number. With rounds a batch has 4,096 rows, or the last fewer; with none, as many as `most`
    /// says, or fewer. Where the current segment is full, it is closed first. Beside the batch a reader makes the plan's rounds, each asking the live questions
    /// once, of all entries so far, anywhere among the batch's appends. A writer calls the gate before each append, and the
    /// reader after each round, also if no question is live. It waits for its own workers. After a refusal the loader is
    /// stopped, and still knows what the live questions found in the closed segments.
    pub fn batch<R: Threads + Sync, G: Gate>(
        &mut self,
        rt: &R,
        alloc: Global,
        segments: &mut Segments,
        rows: &[Row],
        gate: &G,
    ) -> Result<(), LoadFault>
        requires loading { (before : List RowValue) × IsLoading segments.old before self.old }
        requires some { 0 < length rows.now }
        requires may { MayLoad segments.old self.old.plan self.old.count (length rows.now) }
        requires fits { All (Fits segments.old.shape.schema) rows.now }
        ensures batched { (before : List RowValue) → IsLoading segments.old before self.old
            → MatchResult result (λ _. IsBatched before rows.now self.old self.new segments.old segments.new) (IsRefused before rows.now segments.old segments.new) }
        ensures stopped { OnErr result (self.new ≡ record self.old { stopped = true; found = self.new.found }) }
        ensures known { (before : List RowValue) → IsLoading segments.old before self.old → KnowsBefore segments.new self.new.plan self.new.found }
    {
        let answer = self.append(rt, alloc, segments, rows, gate);
        self.stopped = answer.is_err();
        answer
    }

    /// Whether no round is made beside a batch.
    pub fn makes_no_round(&self) -> bool
        ensures none { IsTrue result → self.now.plan.rounds ≡ 0 }
        ensures some { result ≡ false → 0 < self.now.plan.rounds }
    {
        self.plan.makes_no_round()
    }

    /// The most rows of the next batch, where no round is made: up to the end of the segment that they go to, and with several
    /// writers at most to the end of 4,096 rows from a multiple of that on.
    pub fn most(&self, segments: &Segments) -> usize
        requires loading { (before : List RowValue) × IsLoading segments.now before self.now }
        requires quiet { self.now.plan.rounds ≡ 0 }
        ensures some { 0 < result }
        ensures may { (more : ℕ) → more ≤ result → MayLoad segments.now self.now.plan self.now.count more }
    {
        let left = left_in_segment(segments, self.count);
        if segments.shape().writers() == 1 {
            return left as usize;
        }
        left.min(4096 - self.count % 4096) as usize
    }

    /// Whether a batch was refused.
    pub fn stopped(&self) -> bool
        ensures { result ≡ self.now.stopped }
    {
        self.stopped
    }

    /// Asks every question and every trigger of all entries, each in a thread of its own where one can be made. It answers with
    /// the live answers of all batches.
    pub fn finish<R: Threads + Sync>(
        self,
        rt: &R,
        alloc: Global,
        segments: &mut Segments,
    ) -> Result<Loaded, Memory>
        requires loading { (rows : List RowValue) × IsLoading segments.old rows self }
        ensures { (rows : List RowValue) → IsLoading segments.old rows self
            → MatchResult result (IsFinished rows self segments.old segments.new) (λ _. KeepsAll segments.old segments.new × HoldsRows segments.new rows) }
    {
        let _lawful = segments.shape();
        let Loader { plan, lives, .. } = self;
        answers_on_all(rt, segments, alloc, &plan, lives)
    }

    /// Asks every question and every trigger of all entries, as `finish` does, and gives what each found in place of its answer: the
    /// questions' findings, and behind them the triggers'. They can be joined with what is found in rows elsewhere.
    pub fn find<R: Threads + Sync>(
        self,
        rt: &R,
        alloc: Global,
        segments: &mut Segments,
    ) -> Result<Vec<Finding>, Memory>
        requires loading { (rows : List RowValue) × IsLoading segments.old rows self }
        ensures { (rows : List RowValue) → IsLoading segments.old rows self
            → MatchResult result (λ found. IsFoundIn rows self segments.old segments.new found.items)
            (λ _. KeepsAll segments.old segments.new × HoldsRows segments.new rows) }
    {
        let _lawful = segments.shape();
        findings_on_all(rt, segments, alloc, &self.plan)
    }
}

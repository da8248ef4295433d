// One segment of a log, which is opened with few nodes and may be loaded again with more.
ghost use Rattle.std.specs.Prelude.{◌≡◌, ℕ, ◌+◌, ◌≤◌, ◌++◌, [], List, All, length, nat_lt, None, IfOk, MatchResult, OnOk, if◌then◌else◌};
ghost use Rattle.cf_row.specs.Row.{Fits, RowValue};
ghost use Rattle.cf_shape.specs.Lanes.{IsShape};
ghost use Rattle.cf_segments.specs.Segments.{AllowsSegments};
ghost use Rattle.cf_load.specs.Planned.{IsPlan};
ghost use Rattle.cf_load.specs.declared.plan.LivePlan.{LivePlan as LivePlanValue};
ghost use Rattle.cf_fill.specs.Filling.{Fills, IsFilling, KeepsLog};
ghost use Rattle.cf_fill.specs.Logs.{IsUnmade};
ghost use Rattle.cf_long.specs.ByRow.{AreNumbered};
ghost use Rattle.cf_long.specs.Growing.{HasTaken, HasTakenSome, IsFilledAlone, IsFilledIf, IsSmaller, TakesMore, count_in};
ghost use Rattle.cf_long.specs.Longs.{HoldsFew, IsLetGo};

use crate::segment::let_go;
use crate::spelled_rows::SpelledRows;
use cf_fill::{Context, Filling, Unmade};
use cf_load::LivePlan;
use cf_outside::Gate;
use cf_plain::Finding;
use cf_row::{Memory, Row};
use cf_shape::Shape;
use std::alloc::Global;
use std::marker::Model;
use std::thread::Threads;

/// One segment that rows fill. It is opened for its first row, with few nodes if a smaller shape is given: a table of many nodes takes
/// long to make, and the rows of a capture mostly share their paths. Its rows are kept then, and if they turn out to need more nodes,
/// they are loaded again into a log that has all.
#[derive(Drop)]
pub struct Growing {
    // The shape that it is opened with.
    small: Shape,
    // The same with as many nodes as it may have.
    shape: Shape,
    filling: Option<Filling>,
    // Its rows, if it is opened with fewer nodes than it may have.
    kept: SpelledRows,
}

impl Model for Growing {
    ghost use Rattle.cf_long.specs.Growing.{GrowingValue};

    ghost Value = { GrowingValue };

    ghost view = { λ s. record { small = s.small; shape = s.shape; filling = s.filling; kept = s.kept.rows } };

    ghost use Rattle.std.specs.Prelude.{◌≡◌};

    ghost invariant = { λ s. s.kept.schema ≡ s.shape.schema };
}

// Keeps the rows of a segment that has fewer nodes than it may have.
fn keep(kept: &mut SpelledRows, is_small: bool, rows: &[Row]) -> Result<(), Memory>
    requires fit { All (Fits kept.old.schema) rows.now }
    ensures schema { kept.new.schema ≡ kept.old.schema }
    ensures rows { OnOk result (kept.new.rows ≡ (if is_small then kept.old.rows ++ rows.now else kept.old.rows)) }
{
    if is_small {
        return kept.push_all(rows);
    }
    Ok(())
}

// The log of a segment, which is opened if it is not yet.
fn opened(
    alloc: Global,
    small: &Shape,
    plan: &LivePlan,
    filling: Option<Filling>,
) -> Result<Filling, Memory>
    requires allowed { AllowsSegments small.now 1 }
    requires plan { IsPlan small.now plan.now }
    ensures { (rows : List RowValue) → IsFilledIf small.now plan.now filling rows → IfOk result (λ filling. IsFilledAlone small.now plan.now filling rows) }
{
    match filling {
        Some(filling) => Ok(filling),
        None => Filling::new(alloc, small.copy(alloc)?, 1, plan),
    }
}

// Loads the rows that are kept, batch by batch.
fn load_kept<R: Threads + Sync, G: Gate>(
    context: &Context<'_, R, G>,
    log: &mut Filling,
    kept: &SpelledRows,
) -> Result<(), Memory>
    requires fit { All (Fits log.old.segments.shape.schema) kept.now.rows }
    requires filled { IsFilling log.old }
    ensures keeps { KeepsLog log.old log.new }
    ensures filled { OnOk result (Fills log.old log.new kept.now.rows) }
{
    let mut at = 0;
    while at < kept.count() {
        let mut rows = kept.batch(context.alloc, at)?;
        at += rows.len();
        log.take_rows(context, &mut rows)?;
    }
    Ok(())
}

// Loads all of these rows into a log of the shape, asks it all that the plan asks, and lets it go.
fn load_again<R: Threads + Sync, G: Gate>(
    context: &Context<'_, R, G>,
    shape: &Shape,
    plan: &LivePlan,
    kept: SpelledRows,
    first: u32,
) -> Result<Vec<Finding>, Unmade>
    requires allowed { AllowsSegments shape.now 1 }
    requires plan { IsPlan shape.now plan.now }
    requires fit { All (Fits shape.now.schema) kept.rows }
    requires few { length kept.rows ≤ shape.now.capacity }
    ensures { AreNumbered first kept.rows → MatchResult result (λ found. IsLetGo shape.now plan.now kept.rows found.items) (IsUnmade shape.now kept.rows) }
{
    let mut filling = opened(context.alloc, shape, plan, None)?;
    load_kept(context, &mut filling, &kept)?;
    drop(kept);
    let_go(context, filling, first)
}

impl Growing {
    /// A segment with no row, which is opened with the nodes of the first shape, and has at most those of the second. The shapes differ in
    /// nothing else.
    pub fn new(alloc: Global, small: &Shape, shape: &Shape) -> Result<Growing, Memory>
        ensures { IfOk result (λ segment. segment ≡ record { small = small.now; shape = shape.now; filling = None; kept = [] }) }
    {
        Ok(Growing {
            small: small.copy(alloc)?,
            shape: shape.copy(alloc)?,
            filling: None,
            kept: SpelledRows::new(alloc, shape.schema())?,
        })
    }

    /// Its shape, with as many nodes as it may have.
    pub fn shape(&self) -> &Shape
        ensures shape { result.now ≡ self.now.shape }
        ensures lawful { IsShape self.now.shape }
    {
        let _lawful = self.shape.lanes();
        &self.shape
    }

    /// How many rows came.
    pub fn count(&self) -> u32
        ensures { result ≡ count_in self.now }
    {
        match &self.filling {
            Some(filling) => filling.count(),
            None => 0,
        }
    }

    // Whether it is opened with fewer nodes than it may have.
    fn is_small(&self) -> bool
        ensures { result ≡ nat_lt self.now.small.nodes self.now.shape.nodes }
    {
        self.small.nodes() < self.shape.nodes()
    }

    /// Takes the next rows out of the list, for which there is room. Each batch that they end is loaded.
    pub fn take_rows<R: Threads + Sync, G: Gate>(
        &mut self,
        context: &Context<'_, R, G>,
        plan: &LivePlan,
        rows: &mut Vec<Row>,
    ) -> Result<(), Memory>
        requires taken { HasTakenSome plan.now self.old }
        requires fit { All (Fits self.old.shape.schema) rows.old.items }
        requires room { count_in self.old + length rows.old.items ≤ self.old.shape.capacity }
        ensures shape { self.new.shape ≡ self.old.shape }
        ensures taken { OnOk result (TakesMore plan.now self.old self.new rows.old.items) }
        ensures few { HoldsFew self.new }
        ensures none { OnOk result (rows.new.items ≡ []) }
    {
        let is_small = self.is_small();
        keep(&mut self.kept, is_small, rows)?;
        let mut filling = opened(context.alloc, &self.small, plan, self.filling.take())?;
        filling.take_rows(context, rows)?;
        self.filling = Some(filling);
        Ok(())
    }

    /// Loads its last rows, asks it every question and every trigger of the plan once, and lets it go: what each finds in its rows, which
    /// are numbered one by one from the first; and whether they needed more nodes than it was opened with.
    pub fn let_go<R: Threads + Sync, G: Gate>(
        self,
        context: &Context<'_, R, G>,
        plan: &LivePlan,
        first: u32,
    ) -> Result<(Vec<Finding>, bool), Unmade>
        requires taken { HasTakenSome plan.now self }
        ensures { (rows : List RowValue) → HasTaken plan.now self rows → AreNumbered first rows
            → MatchResult result (λ made. IsLetGo self.shape plan.now rows made.0.items) (IsUnmade self.shape rows) }
    {
        let is_small = self.is_small();
        let Growing {
            small,
            shape,
            filling,
            kept,
        } = self;
        let filling = opened(context.alloc, &small, plan, filling)?;
        match let_go(context, filling, first) {
            Ok(found) => Ok((found, false)),
            Err(Unmade::Memory) => Err(Unmade::Memory),
            Err(Unmade::Nodes) => {
                if !is_small {
                    return Err(Unmade::Nodes);
                }
                let found = load_again(context, &shape, plan, kept, first)?;
                Ok((found, true))
            }
        }
    }
}

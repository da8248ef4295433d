// A log of any length that keeps of each row what its setup names.
ghost use Rattle.std.specs.Prelude.{◌≡◌, ◌+◌, ◌≤◌, ◌++◌, ◌^◌, ℕ, List, [], All, IfErr, IfOk, MatchResult, length};
ghost use Rattle.std.specs.Thread.{IsSync};
ghost use Rattle.cf_row.specs.Row.{Fits, RowValue};
ghost use Rattle.cf_row.specs.Schema6.{attrs_by};
ghost use Rattle.cf_project.specs.Keeping.{keep};
ghost use Rattle.cf_setup.specs.Setups.{SetupValue, shaped};
ghost use Rattle.cf_intake.specs.Causes.{HasStopCause};
ghost use Rattle.cf_intake.specs.Series.{IsSeriesAt, KeepsSeries};
ghost use Rattle.cf_fill.specs.Logs.{IsUnmade};
ghost use Rattle.cf_long.specs.Ahead.{IsAhead, IsAtSeries, most_ahead};
ghost use Rattle.cf_long.specs.Answered.{AreAnswers};
ghost use Rattle.cf_long.specs.Kept.{IsLongFor, IsSomeKept, KeepsKept, MayTake, ReadsAhead, TakesLeft};
ghost use Rattle.cf_long.specs.Longs.{HaveNodes, IsLong, IsSomeLong, KeepsLong, MayFollow, count_of, shape_in};

use crate::ahead::Ahead;
use crate::answers::Answers;
use crate::long::Long;
use cf_fill::{Context, Unmade};
use cf_intake::{Series, Stop};
use cf_outside::{Gate, Shelf};
use cf_row::Row;
use cf_shape::Shape;
use std::alloc::Global;
use std::marker::Model;
use std::thread::{Threads, join_mut};

/// A log of any length for a setup, whose rows are numbered one by one from 0. Of each row that comes it keeps the attributes that the setup
/// names, and `ts`, on which all that the setup asks means the same.
#[derive(Drop)]
pub struct KeptLong {
    // For each attribute of the rows that come, whether it is kept.
    kept: Vec<bool>,
    // The shape over all attributes.
    shape: Shape,
    // The log of what is kept.
    long: Long,
}

impl Model for KeptLong {
    ghost use Rattle.cf_long.specs.Kept.{KeptLongValue};

    ghost Value = { KeptLongValue };

    ghost view = { λ k. record { kept = k.kept.items; shape = k.shape; long = k.long } };
}

impl KeptLong {
    // The log of the rows' attributes that are marked.
    pub(crate) fn new(kept: Vec<bool>, shape: Shape, long: Long) -> KeptLong
        ensures { result ≡ record { kept = kept.items; shape = shape; long = long } }
    {
        KeptLong { kept, shape, long }
    }

    /// How many nodes each writer has in a segment.
    pub fn nodes(&self) -> u32
        ensures { result ≡ self.now.shape.nodes }
    {
        self.shape.nodes()
    }

    /// How many more rows may come.
    pub fn room(&self) -> u32
        requires long { IsSomeKept self.now }
        ensures { result + count_of self.now.long + 1 ≡ 2 ^ 32 }
    {
        self.long.room()
    }

    /// Reads ahead in the captures, and gives what is left of the rows that come.
    pub(crate) fn read_ahead<F: Shelf>(
        &self,
        alloc: Global,
        shelf: &mut F,
        series: &mut Series<'_>,
    ) -> Result<Ahead, Stop>
        requires long { IsSomeKept self.now }
        requires kind { self.now.shape.schema ≡ attrs_by series.old.schema }
        requires begun { IsAtSeries series.old (F.files shelf.old) (F.rest shelf.old) }
        ensures series { KeepsSeries series.old series.new }
        ensures files { F.files shelf.new ≡ F.files shelf.old }
        ensures ahead { IfOk result (ReadsAhead series.old series.new (F.files shelf.old) (F.rest shelf.old) (F.rest shelf.new) self.now) }
        ensures cause { HasStopCause (F.faults shelf.old) (F.faults shelf.new) result }
    {
        Ahead::of(alloc, shelf, series, &self.kept, self.shape.schema())
    }

    /// Takes what is left of the next rows out of the list. They are numbered on. Each batch that they end is loaded. Each segment that they fill, but for
    /// the last, is asked all that the setup asks and let go.
    pub(crate) fn take_left<R: Threads + Sync, G: Gate>(
        &mut self,
        context: &Context<'_, R, G>,
        left: &mut Vec<Row>,
    ) -> Result<(), Unmade>
        requires may { MayTake self.old left.old.items }
        ensures keeps { KeepsKept self.old self.new }
        ensures takes { TakesLeft self.old self.new left.old.items result }
    {
        self.long.take_rows(context, left)
    }

    /// The same, while this thread reads ahead in the captures.
    pub(crate) fn take_beside<R: Threads + Sync, F: Shelf, G: Gate>(
        &mut self,
        context: &Context<'_, R, G>,
        shelf: &mut F,
        series: &mut Series<'_>,
        left: &mut Vec<Row>,
    ) -> (Result<(), Unmade>, Result<Ahead, Stop>)
        requires may { MayTake self.old left.old.items }
        requires kind { self.old.shape.schema ≡ attrs_by series.old.schema }
        requires begun { IsAtSeries series.old (F.files shelf.old) (F.rest shelf.old) }
        ensures keeps { KeepsKept self.old self.new }
        ensures takes { TakesLeft self.old self.new left.old.items result.0 }
        ensures series { KeepsSeries series.old series.new }
        ensures files { F.files shelf.new ≡ F.files shelf.old }
        ensures ahead { IfOk result.1 (ReadsAhead series.old series.new (F.files shelf.old) (F.rest shelf.old) (F.rest shelf.new) self.old) }
        ensures cause { HasStopCause (F.faults shelf.old) (F.faults shelf.new) result.1 }
    {
        let Context { rt, alloc, gate } = *context;
        let KeptLong { kept, shape, long } = self;
        let marks: &[bool] = kept.as_slice();
        let schema = shape.schema();
        let mut take = || -> Result<(), Unmade>
            requires { IsSync R.row × IsSync G.row × IsSomeLong long.now × All (Fits (shape_in long.now).schema) left.now.items × MayFollow long.now left.now.items }
            ensures keeps { KeepsLong long.entry.now long.exit.now }
            ensures taken { IfOk result (λ _. (before : List RowValue) → IsLong long.entry.now before → IsLong long.exit.now (before ++ left.entry.now.items)) }
            ensures unmade { IfErr result (λ why. (before : List RowValue) → IsLong long.entry.now before
                → IsUnmade (shape_in long.entry.now) (before ++ left.entry.now.items) why) }
        {
            let alloc = long.alloc();
            long.take_rows(&Context { rt, alloc, gate }, left)
        };
        let mut read = || -> Result<Ahead, Stop>
            requires { (length marks.now ≡ length schema.now) × (schema.now ≡ attrs_by series.now.schema) × IsAtSeries series.now (F.files shelf.now) (F.rest shelf.now) }
            ensures series { KeepsSeries series.entry.now series.exit.now }
            ensures files { F.files shelf.exit.now ≡ F.files shelf.entry.now }
            ensures ahead { IfOk result (λ ahead. (rows : List RowValue) → IsSeriesAt series.entry.now (F.files shelf.entry.now) (F.rest shelf.entry.now) rows
                → IsAhead series.exit.now (F.files shelf.entry.now) (F.rest shelf.exit.now) marks.entry.now rows ahead) }
            ensures fit { IfOk result (λ ahead. All (Fits (keep marks.entry.now schema.entry.now)) ahead.rows.items) }
            ensures few { IfOk result (λ ahead. length ahead.rows.items ≤ most_ahead) }
            ensures cause { HasStopCause (F.faults shelf.entry.now) (F.faults shelf.exit.now) result }
        { Ahead::of(alloc, shelf, series, marks, schema) };
        join_mut(rt, &mut take, &mut read)
    }

    /// Asks the last segment all that the setup asks, and answers about all rows.
    pub fn finish<R: Threads + Sync, G: Gate>(
        self,
        context: &Context<'_, R, G>,
    ) -> Result<Answers, Unmade>
        requires long { IsSomeKept self }
        ensures { (setup : SetupValue) (capacity writers nodes : ℕ) (rows : List RowValue) → IsLongFor setup capacity writers nodes self rows
            → MatchResult result
            (λ answers. AreAnswers (shaped setup capacity writers nodes) setup.asks setup.triggers rows answers × HaveNodes (shaped setup capacity writers nodes) rows)
            (IsUnmade (shaped setup capacity writers nodes) rows) }
    {
        self.long.finish(context)
    }
}

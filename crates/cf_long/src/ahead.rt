// Captures are read ahead of the log that their rows go into.
ghost use Rattle.std.specs.Prelude.{◌≡◌, ◌+◌, ◌≤◌, ◌++◌, List, [], All, IfOk, OnOk, None, length};
ghost use Rattle.cf_row.specs.Schema6.{attrs_by};
ghost use Rattle.cf_row.specs.Row.{Fits, RowValue};
ghost use Rattle.cf_project.specs.Keeping.{keep};
ghost use Rattle.cf_intake.specs.Causes.{HasStopCause};
ghost use Rattle.cf_intake.specs.Series.{IsSeriesAt, KeepsSeries};
ghost use Rattle.cf_long.specs.Ahead.{IsAhead, IsAtSeries, most_ahead};

use crate::reads::End;
use cf_intake::{Halt, Series, Stop};
use cf_outside::Shelf;
use cf_project::kept_rows;
use cf_row::{Memory, Row, Schema};
use std::alloc::Global;

/// Once so many rows were read, no more is read ahead.
const ENOUGH: usize = 2048;

/// The most reads that are made for them.
const READS: usize = 64;

/// What is left of rows that were read and are not in the log yet, and how the captures end behind them, if that was found.
#[derive(Debug, Drop)]
pub(crate) struct Ahead {
    pub(crate) rows: Vec<Row>,
    pub(crate) end: Option<End>,
}

// Puts rows behind those that were read before. If there are none, none is moved.
fn put_behind(rows: &mut Vec<Row>, mut more: Vec<Row>) -> Result<(), Memory>
    ensures { OnOk result (rows.new.items ≡ rows.old.items ++ more.items) }
{
    if rows.is_empty() {
        *rows = more;
        return Ok(());
    }
    rows.append(&mut more)
}

impl Ahead {
    // Opens the next capture, or reads once. What is marked is left of the rows that come.
    fn read<F: Shelf>(
        &mut self,
        alloc: Global,
        shelf: &mut F,
        series: &mut Series<'_>,
        marks: &[bool],
        schema: &Schema,
    ) -> Result<(), Stop>
        requires marks { length marks.now ≡ length schema.now }
        requires kind { schema.now ≡ attrs_by series.old.schema }
        requires ahead { (rows : List RowValue) × IsAhead series.old (F.files shelf.old) (F.rest shelf.old) marks.now rows self.old }
        requires more { self.old.end ≡ None }
        ensures series { KeepsSeries series.old series.new }
        ensures files { F.files shelf.new ≡ F.files shelf.old }
        ensures ahead { IfOk result (λ _. (rows : List RowValue) → IsAhead series.old (F.files shelf.old) (F.rest shelf.old) marks.now rows self.old
            → IsAhead series.new (F.files shelf.old) (F.rest shelf.new) marks.now rows self.new) }
        ensures fit { All (Fits (keep marks.now schema.now)) self.old.rows.items → IfOk result (λ _. All (Fits (keep marks.now schema.now)) self.new.rows.items) }
        ensures few { IfOk result (λ _. length self.new.rows.items ≤ length self.old.rows.items + 16384) }
        ensures cause { HasStopCause (F.faults shelf.old) (F.faults shelf.new) result }
    {
        match series.next(alloc, shelf) {
            Ok(Some(rows)) => {
                let left = kept_rows(alloc, marks, schema, rows)?;
                put_behind(&mut self.rows, left)?;
            }
            Ok(None) => self.end = Some(End::Whole),
            Err(Halt::Refused(why)) => self.end = Some(End::Refused(why)),
            Err(Halt::Stopped(stop)) => return Err(stop),
        }
        Ok(())
    }

    /// Reads on in the captures until some thousand rows came, or the captures ended or one of them is refused. What is marked is left of the
    /// rows. They are fewer where reads give few.
    pub(crate) fn of<F: Shelf>(
        alloc: Global,
        shelf: &mut F,
        series: &mut Series<'_>,
        marks: &[bool],
        schema: &Schema,
    ) -> Result<Ahead, Stop>
        requires marks { length marks.now ≡ length schema.now }
        requires kind { schema.now ≡ attrs_by series.old.schema }
        requires begun { IsAtSeries series.old (F.files shelf.old) (F.rest shelf.old) }
        ensures series { KeepsSeries series.old series.new }
        ensures files { F.files shelf.new ≡ F.files shelf.old }
        ensures ahead { IfOk result (λ ahead. (rows : List RowValue) → IsSeriesAt series.old (F.files shelf.old) (F.rest shelf.old) rows
            → IsAhead series.new (F.files shelf.old) (F.rest shelf.new) marks.now rows ahead) }
        ensures fit { IfOk result (λ ahead. All (Fits (keep marks.now schema.now)) ahead.rows.items) }
        ensures few { IfOk result (λ ahead. length ahead.rows.items ≤ most_ahead) }
        ensures cause { HasStopCause (F.faults shelf.old) (F.faults shelf.new) result }
    {
        let mut ahead = Ahead {
            rows: Vec::new(alloc),
            end: None,
        };
        for _made in 0..READS {
            if ahead.rows.len() >= ENOUGH || ahead.end.is_some() {
                return Ok(ahead);
            }
            ahead.read(alloc, shelf, series, marks, schema)?;
        }
        Ok(ahead)
    }
}

// Rows are appended by callers that count no steps.
ghost use Rattle.std.specs.Prelude.{◌≡◌, ◌<◌, ◌≤◌, All, length, IfOk};
ghost use Rattle.cf_row.specs.Row.{Fits};
ghost use Rattle.cf_table.specs.Values.{IsOf};
ghost use Rattle.cf_append.specs.Appends.{HasAppended, HasSettledTo, MayAppend, Rests};
ghost use Rattle.cf_append.specs.Paths.{Remembers, KeepsLeaves};
ghost use Rattle.cf_log.specs.Appended.{AppendsAll};
ghost use Rattle.cf_log.specs.Writers.{AppendsRows};

use crate::counted::{append_by, settle_by};
use cf_append::{AppendFault, Leaves, Settled};
use cf_row::Row;
use cf_table::{MultiLog, WriterPass};
use std::marker::Brand;
use std::sync::ledger::Blank;

/// Appends the row: takes a place, stores the row there, links it in each lane that selects it, and moves the read tail over each
/// finished record. Answers the record's offset. It is covered then, or stands behind one that another writer has not finished.
/// After `NodesFull` no place is taken, and another row may still be appended; after `Full` none.
pub fn append(log: &MultiLog, pass: &mut WriterPass, row: &Row) -> Result<u32, AppendFault>
    requires may { MayAppend log.now row.now pass.old }
    ensures { HasAppended log.now.shape row.now pass.old pass.new result }
{
    append_near(log, pass, row, &mut Leaves::new())
}

/// As `append`, by a writer that keeps its last leaf in each lane, and makes no step on the way to a leaf that it has kept.
pub fn append_near(
    log: &MultiLog,
    pass: &mut WriterPass,
    row: &Row,
    leaves: &mut Leaves,
) -> Result<u32, AppendFault>
    requires may { MayAppend log.now row.now pass.old }
    requires near { Remembers log.now.shape pass.old.view leaves.old }
    ensures appended { HasAppended log.now.shape row.now pass.old pass.new result }
    ensures near { Remembers log.now.shape pass.new.view leaves.new }
    ensures kept { IfOk result (λ _. KeepsLeaves log.now.shape row.now leaves.new (length log.now.shape.lanes)) }
{
    append_by::<Brand>(log, pass, row, leaves, Blank::new(1))
}

/// Appends the rows in order, until one is refused, and keeps leaves on the way. Says how many were appended, whose offsets are the
/// first of `offsets`, and why the next one was not, if there is one. The other offsets stay as they are.
pub fn append_all(
    log: &MultiLog,
    pass: &mut WriterPass,
    rows: &[Row],
    offsets: &mut [u32],
) -> (usize, Option<AppendFault>)
    requires of { IsOf pass.old log.now }
    requires fits { All (Fits log.now.shape.schema) rows.now }
    requires rest { Rests pass.old.view }
    requires room { length rows.now ≤ length offsets.old }
    ensures { AppendsAll log.now.shape rows.now pass.old pass.new offsets.old offsets.new result.0 result.1 }
{
    let mut leaves = Leaves::new();
    for k in 0..rows.len() {
        match append_near(log, pass, &rows[k], &mut leaves) {
            Ok(offset) => offsets[k] = offset,
            Err(fault) => return (k, Some(fault)),
        }
    }
    (rows.len(), None)
}

/// Appends the rows in order, until one is refused, and keeps leaves on the way.
pub fn append_rows(log: &MultiLog, pass: &mut WriterPass, rows: &[Row]) -> Result<(), AppendFault>
    requires of { IsOf pass.old log.now }
    requires fits { All (Fits log.now.shape.schema) rows.now }
    requires rest { Rests pass.old.view }
    ensures { AppendsRows log.now rows.now pass.old pass.new result }
{
    let mut leaves = Leaves::new();
    for row in rows {
        match append_near(log, pass, row, &mut leaves) {
            Ok(_) => {}
            Err(fault) => return Err(fault),
        }
    }
    Ok(())
}

/// Moves the read tail over each finished record, up to the first that isn't. Says whether the record at that offset is covered
/// then, or which one stands in its way.
pub fn settle(log: &MultiLog, pass: &mut WriterPass, offset: u32) -> Settled
    requires of { IsOf pass.old log.now }
    requires place { offset < log.now.shape.capacity }
    ensures { HasSettledTo log.now.shape offset pass.old pass.new result }
{
    settle_by::<Brand>(log, pass, offset, Blank::new(1))
}

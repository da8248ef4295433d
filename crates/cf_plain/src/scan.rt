// Questions answered by going over a list of entries.
ghost use Rattle.std.specs.Prelude.{◌≡◌, ◌<◌, ◌≤◌, ◌^◌, ◌&&◌, nat_le, true, length, map, filter, All, IfOk};
ghost use Rattle.cf_row.specs.Row.{Fits};
ghost use Rattle.cf_shape.specs.Lanes.{selected_by, key_of, measure_of};
ghost use Rattle.cf_plain.specs.Asks.{Suits, SuitsTrigger, FitAll, rows_in, row_at, places, counts_for, is_between, total_over, marks_over};
ghost use Rattle.cf_plain.specs.Groups.{groups, pair_of, row_group};
ghost use Rattle.cf_plain.specs.Tops.{top_over};

use crate::segments::{marks_of_groups, merge_groups};
use crate::{Ask, Group, Groups, Marks, Places, top};
use cf_fold::{Part, Quad, Trigger};
use cf_row::{Entry, Memory, Row, holds};
use cf_shape::{Shape, by, key, measure, selects};
use std::alloc::Global;

// Whether the lane takes the row, and its key is in the range.
fn is_in(shape: &Shape, lane: u8, low: u64, high: u64, row: &Row) -> bool
    requires exists { lane < length shape.now.lanes }
    requires fits { Fits shape.now.schema row.now }
    ensures { result ≡ (selected_by shape.now lane row.now && is_between low high (key_of shape.now lane row.now)) }
{
    if !selects(shape, lane, row) {
        return false;
    }
    let key = key(shape, lane, row);
    low <= key && key <= high
}

// Whether the row counts for the question.
fn counts(shape: &Shape, ask: &Ask, row: &Row) -> bool
    requires suits { Suits shape.now ask.now }
    requires fits { Fits shape.now.schema row.now }
    ensures { result ≡ counts_for shape.now ask.now row.now }
{
    match ask {
        Ask::List(expr) => holds(shape.schema(), expr, row),
        Ask::Find(lane, low, high) => is_in(shape, *lane, *low, *high, row),
        Ask::Between(lane, low, high) => is_in(shape, *lane, *low, *high, row),
        Ask::Measure(lane, low, high) => is_in(shape, *lane, *low, *high, row),
        Ask::Fired(trigger) => selects(shape, trigger.agg, row),
        Ask::Top(lane, _, _) => selects(shape, *lane, row),
        Ask::Groups(lane) => selects(shape, *lane, row),
        Ask::Total(_, expr) => holds(shape.schema(), expr, row),
    }
}

// The row at that place, which fits the shape.
fn row_of<'a>(_shape: &Shape, entries: &'a [Entry], place: usize) -> &'a Row
    requires exists { place < length entries.now }
    requires fit { FitAll _shape.now entries.now }
    ensures row { result.now ≡ row_at (rows_in entries.now) place }
    ensures fits { Fits _shape.now.schema result.now }
{
    &entries[place].row
}

// The places of the rows that count for the question.
pub(crate) fn places_of(
    alloc: Global,
    shape: &Shape,
    ask: &Ask,
    entries: &[Entry],
) -> Result<Places, Memory>
    requires suits { Suits shape.now ask.now }
    requires fit { FitAll shape.now entries.now }
    requires few { length entries.now ≤ 2 ^ 20 }
    ensures { IfOk result (λ found. found ≡ places (counts_for shape.now ask.now) (rows_in entries.now)) }
{
    let mut items = Vec::new(alloc);
    for place in 0..entries.len() {
        if counts(shape, ask, row_of(shape, entries, place)) {
            items.push(place as u32)?;
        }
    }
    Ok(Places::new(items))
}

// The quad of what the lane measures of the rows that count for the question.
pub(crate) fn total_of(shape: &Shape, ask: &Ask, lane: u8, entries: &[Entry]) -> Quad
    requires suits { Suits shape.now ask.now }
    requires exists { lane < length shape.now.lanes }
    requires fit { FitAll shape.now entries.now }
    requires few { length entries.now ≤ 2 ^ 20 }
    ensures { result ≡ total_over shape.now lane (counts_for shape.now ask.now) (rows_in entries.now) }
{
    let mut total = Quad::EMPTY;
    for place in 0..entries.len() {
        let row = row_of(shape, entries, place);
        if counts(shape, ask, row) {
            total = total.add(measure(shape, lane, row));
        }
    }
    total
}

// The marks of the trigger.
pub(crate) fn marks_of(
    alloc: Global,
    shape: &Shape,
    trigger: &Trigger,
    entries: &[Entry],
) -> Result<Marks, Memory>
    requires suits { SuitsTrigger shape.now trigger.now }
    requires fit { FitAll shape.now entries.now }
    requires few { length entries.now ≤ 2 ^ 20 }
    ensures { IfOk result (λ found. found ≡ marks_over shape.now trigger.now (rows_in entries.now)) }
{
    let groups = grouped_by(alloc, shape, trigger.agg, entries)?;
    Ok(Marks::new(marks_of_groups(alloc, trigger, &groups)?))
}

// The marks of the lane's heaviest groups.
pub(crate) fn tops_of(
    alloc: Global,
    shape: &Shape,
    lane: u8,
    part: Part,
    most: u32,
    entries: &[Entry],
) -> Result<Marks, Memory>
    requires exists { lane < length shape.now.lanes }
    requires fit { FitAll shape.now entries.now }
    requires few { length entries.now ≤ 2 ^ 20 }
    ensures { IfOk result (λ found. found ≡ top_over shape.now lane part most (rows_in entries.now)) }
{
    let groups = grouped_by(alloc, shape, lane, entries)?;
    Ok(Marks::new(top(alloc, part, most, &groups)?))
}

// All groups of the lane.
pub(crate) fn groups_of(
    alloc: Global,
    shape: &Shape,
    lane: u8,
    entries: &[Entry],
) -> Result<Groups, Memory>
    requires exists { lane < length shape.now.lanes }
    requires fit { FitAll shape.now entries.now }
    requires few { length entries.now ≤ 2 ^ 20 }
    ensures { IfOk result (λ found. found ≡ groups shape.now lane (rows_in entries.now)) }
{
    Ok(Groups::new(grouped_by(alloc, shape, lane, entries)?))
}

// The row as a group of its own.
fn group_of_row(shape: &Shape, lane: u8, row: &Row) -> Group
    requires exists { lane < length shape.now.lanes }
    requires fits { Fits shape.now.schema row.now }
    ensures { pair_of result ≡ row_group shape.now lane row.now }
{
    Group {
        key: key(shape, lane, row),
        by: by(shape, lane, row),
        quad: Quad::EMPTY.add(measure(shape, lane, row)),
    }
}

// The groups of the rows: of each that is selected one, and then those of the same keys merged.
pub(crate) fn grouped_by(
    alloc: Global,
    shape: &Shape,
    lane: u8,
    entries: &[Entry],
) -> Result<Vec<Group>, Memory>
    requires exists { lane < length shape.now.lanes }
    requires fit { FitAll shape.now entries.now }
    requires few { length entries.now ≤ 2 ^ 20 }
    ensures { IfOk result (λ found. map pair_of found.items ≡ groups shape.now lane (rows_in entries.now)) }
{
    let mut each = Vec::new(alloc);
    for place in 0..entries.len() {
        let row = row_of(shape, entries, place);
        if selects(shape, lane, row) {
            each.push(group_of_row(shape, lane, row))?;
        }
    }
    merge_groups(alloc, &each)
}

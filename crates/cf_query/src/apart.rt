// The groups of a lane by all entries, for lanes that keep the rows of a bucket apart: their trees go by the bucket alone.
ghost use Rattle.std.specs.Prelude.{◌≡◌, ◌<◌, ◌≤◌, length, map, IfOk};
ghost use Rattle.cf_shape.specs.Lanes.{IsShape, bucket_of, key_of, by_of, lane_at, measure_of};
ghost use Rattle.cf_table.specs.Moves.{AreFit, IsReading};
ghost use Rattle.cf_plain.specs.Asks.{row_at, rows_in};
ghost use Rattle.cf_plain.specs.Groups.{groups as groups_by, as_group, pair_of, row_group};
ghost use Rattle.cf_walk.specs.Walks.{HasWalked, IsMeasuring};
ghost use Rattle.cf_query.specs.Looking.{HasLooked, IsCovered, IsLaneEntry};

use crate::selection::Selection;
use cf_fold::Quad;
use cf_plain::{Group, merge_groups, read_keys};
use cf_row::Memory;
use cf_shape::{Key, Lane, Shape, keeps_apart};
use cf_table::{MultiLog, Pass, Steps};
use std::alloc::Global;
use std::sync::ledger::Ledger;

// The lane of that number.
fn lane_of(shape: &Shape, lane: u8) -> &Lane
    requires exists { lane < length shape.now.lanes }
    ensures lane { result.now ≡ lane_at shape.now lane }
    ensures lawful { IsShape shape.now }
{
    &shape.lanes()[lane as usize]
}

// The bucket of the entry at that offset, by the word of its time.
fn bucket_at<P: Pass, L: Ledger>(
    selection: &Selection,
    shape: &Shape,
    pass: &mut P,
    offset: u32,
    steps: &mut Steps<L>,
) -> u64
    requires covered { IsCovered selection.now.log (P.held pass.old) offset }
    requires shape { shape.now ≡ selection.now.log.shape }
    ensures bucket { result ≡ bucket_of shape.now (row_at (rows_in (P.held pass.old).view.seen) offset) }
    ensures looked { HasLooked (P.held pass.old) (P.held pass.new) steps.old steps.new }
{
    let schema = shape.schema();
    let _lawful = schema.attrs();
    let time = selection.number(pass, offset, schema.ts_place(), steps);
    time / shape.width()
}

// The key of the entry at that offset.
fn key_at<P: Pass, L: Ledger>(
    selection: &Selection,
    shape: &Shape,
    pass: &mut P,
    lane: u8,
    offset: u32,
    steps: &mut Steps<L>,
) -> u64
    requires at { IsLaneEntry selection.now.log shape.now lane (P.held pass.old) offset }
    ensures key { result ≡ key_of shape.now lane (row_at (rows_in (P.held pass.old).view.seen) offset) }
    ensures looked { HasLooked (P.held pass.old) (P.held pass.new) steps.old steps.new }
{
    match lane_of(shape, lane).key {
        Key::Attr(attr) => selection.number(pass, offset, attr, steps),
        Key::Bucket => bucket_at(selection, shape, pass, offset, steps),
        Key::BucketBy(_) => bucket_at(selection, shape, pass, offset, steps),
    }
}

// The number of that entry by which the lane keeps the rows of a bucket apart, if it does.
fn by_at<P: Pass, L: Ledger>(
    selection: &Selection,
    shape: &Shape,
    pass: &mut P,
    lane: u8,
    offset: u32,
    steps: &mut Steps<L>,
) -> Option<u64>
    requires at { IsLaneEntry selection.now.log shape.now lane (P.held pass.old) offset }
    ensures by { result ≡ by_of shape.now lane (row_at (rows_in (P.held pass.old).view.seen) offset) }
    ensures looked { HasLooked (P.held pass.old) (P.held pass.new) steps.old steps.new }
{
    match lane_of(shape, lane).key {
        Key::Attr(_) => None,
        Key::Bucket => None,
        Key::BucketBy(attr) => Some(selection.number(pass, offset, attr, steps)),
    }
}

// What the lane measures of that entry.
fn amount_at<P: Pass, L: Ledger>(
    selection: &Selection,
    shape: &Shape,
    pass: &mut P,
    lane: u8,
    offset: u32,
    steps: &mut Steps<L>,
) -> u32
    requires at { IsLaneEntry selection.now.log shape.now lane (P.held pass.old) offset }
    requires fit { AreFit shape.now (P.held pass.old).view }
    ensures amount { result ≡ measure_of shape.now lane (row_at (rows_in (P.held pass.old).view.seen) offset) }
    ensures looked { HasLooked (P.held pass.old) (P.held pass.new) steps.old steps.new }
{
    match lane_of(shape, lane).measure {
        None => 0,
        Some(attr) => selection.number(pass, offset, attr, steps) as u32,
    }
}

// That entry as a group of its own.
fn group_at<P: Pass, L: Ledger>(
    selection: &Selection,
    shape: &Shape,
    pass: &mut P,
    lane: u8,
    offset: u32,
    steps: &mut Steps<L>,
) -> Group
    requires at { IsLaneEntry selection.now.log shape.now lane (P.held pass.old) offset }
    requires fit { AreFit shape.now (P.held pass.old).view }
    ensures group { pair_of result ≡ row_group shape.now lane (row_at (rows_in (P.held pass.old).view.seen) offset) }
    ensures looked { HasLooked (P.held pass.old) (P.held pass.new) steps.old steps.new }
{
    let key = key_at(selection, shape, pass, lane, offset, steps);
    let by = by_at(selection, shape, pass, lane, offset, steps);
    let amount = amount_at(selection, shape, pass, lane, offset, steps);
    Group {
        key,
        by,
        quad: Quad::EMPTY.add(amount),
    }
}

// The groups of the lane, by going over all entries that were seen: of each that is selected one, by the words that it needs, and
// then those of the same keys merged.
fn groups_by_entry<P: Pass, L: Ledger>(
    log: &MultiLog,
    alloc: Global,
    pass: &mut P,
    lane: u8,
    steps: &mut Steps<L>,
) -> Result<Vec<Group>, Memory>
    requires reads { IsReading log.now (P.held pass.old) }
    requires lane { lane < length log.now.shape.lanes }
    ensures found { IfOk result (λ found. map pair_of found.items ≡ groups_by log.now.shape lane (rows_in (P.held pass.old).view.seen)) }
    ensures looked { HasLooked (P.held pass.old) (P.held pass.new) steps.old steps.new }
{
    let shape = log.shape();
    let selection = Selection::new(log, alloc, &lane_of(shape, lane).select);
    let mut each = Vec::new(alloc);
    for offset in 0..pass.covered() {
        let selected = selection.selects(pass, offset, steps)?;
        if selected {
            each.push(group_at(&selection, shape, pass, lane, offset, steps))?;
        }
    }
    merge_groups(alloc, &each)
}

/// The groups of a lane that measures something, as for `groups`, in the entries that the pass has seen. The read tail is not
/// loaded, no ask is noted, and the pass only walks. The lane's tree and chains are walked, or all entries are gone over where
/// it keeps the rows of a bucket apart. If memory runs out, there is no answer, and the pass has only walked.
pub fn groups_seen<P: Pass, L: Ledger>(
    log: &MultiLog,
    alloc: Global,
    pass: &mut P,
    lane: u8,
    steps: &mut Steps<L>,
) -> Result<Vec<Group>, Memory>
    requires measures { IsMeasuring log.now lane (P.held pass.old) }
    ensures found { IfOk result (λ found. found.items ≡ map as_group (groups_by log.now.shape lane (rows_in (P.held pass.old).view.seen))) }
    ensures walked { HasWalked (P.held pass.old) (P.held pass.new) steps.old steps.new }
{
    if keeps_apart(log.shape(), lane) {
        let groups = groups_by_entry(log, alloc, pass, lane, steps)?;
        read_keys(&groups);
        return Ok(groups);
    }
    cf_walk::groups(log, alloc, pass, lane, steps)
}

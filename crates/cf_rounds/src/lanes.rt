// What is kept of each lane of a setup.
ghost use Rattle.std.specs.Prelude.{◌≡◌, ◌+◌, ◌≤◌, ◌<◌, ◌-◌, ◌^◌, ℕ, length, map, IfOk, OnErr, OnOk};
ghost use Rattle.cf_row.specs.Row.{Fits};
ghost use Rattle.cf_plain.specs.Asks.{is_aggregate as is_aggregate_of};
ghost use Rattle.cf_shape.specs.Lanes.{has_by};
ghost use Rattle.cf_watch.specs.Watched.{nothing_watched, watched_count, watched_fresh};
ghost use Rattle.cf_rounds.specs.Lanes.{AreCounted, forgets, keeps, kept_at, kept_with, marks_by, told_by, trigger_at};

use cf_fold::Trigger;
use cf_plain::{Fired, Marks};
use cf_row::{Memory, Row};
use cf_shape::{Key, Lane, Shape};
use cf_watch::{MOST_TRIGGERS, Watched};
use std::alloc::Global;

// Whether a lane's key has an attribute beside the bucket.
fn is_by_key(lane: &Lane) -> bool
    ensures { result ≡ has_by lane.now.key }
{
    matches!(lane.key, Key::BucketBy(_))
}

/// Nothing is kept of the lanes.
pub(crate) fn none_kept(alloc: Global, lanes: &[Lane]) -> Result<Vec<Watched>, Memory>
    ensures { IfOk result (λ kept. kept.items ≡ map (λ lane. nothing_watched (has_by lane.key)) lanes.now) }
{
    let mut kept = Vec::new(alloc);
    for lane in lanes {
        kept.push(Watched::new(alloc, is_by_key(lane)))?;
    }
    Ok(kept)
}

/// Whether the lane is an aggregate.
pub(crate) fn is_aggregate(shape: &Shape, lane: usize) -> bool
    requires { lane < length shape.now.lanes }
    ensures { result ≡ is_aggregate_of shape.now lane }
{
    let lane = &shape.lanes()[lane];
    !matches!(lane.key, Key::Attr(_)) && lane.measure.is_some()
}

// The lane takes a record.
fn take_at(
    alloc: Global,
    kept: &mut Watched,
    shape: &Shape,
    lane: usize,
    row: &Row,
) -> Result<(), Memory>
    requires exists { lane < length shape.now.lanes }
    requires fits { Fits shape.now.schema row.now }
    requires few { watched_count kept.old < 2 ^ 53 }
    ensures ok { OnOk result (kept.new ≡ kept_with shape.now row.now lane kept.old) }
    ensures count { watched_count kept.new ≤ watched_count kept.old + 1 }
{
    if is_aggregate(shape, lane) {
        let _few = shape.lanes();
        kept.take_row(alloc, shape, lane as u8, row)?;
    }
    Ok(())
}

/// All lanes take a record.
pub(crate) fn take_row(
    alloc: Global,
    kept: &mut [Watched],
    shape: &Shape,
    row: &Row,
) -> Result<(), Memory>
    requires lanes { length kept.old ≡ length shape.now.lanes }
    requires fits { Fits shape.now.schema row.now }
    requires few { AreCounted (2 ^ 53 - 1) kept.old }
    ensures kept { OnOk result (kept.new ≡ keeps shape.now kept.old row.now) }
    ensures long { length kept.new ≡ length kept.old }
    ensures counted { (count : ℕ) → AreCounted count kept.old → AreCounted (count + 1) kept.new }
{
    for lane in 0..kept.len() {
        take_at(alloc, &mut kept[lane], shape, lane, row)?;
    }
    Ok(())
}

/// Whether with the record a bucket is forgotten that has a mark of some trigger, or is crowded, not yet told.
pub(crate) fn forgets_untold(
    kept: &[Watched],
    shape: &Shape,
    triggers: &[Trigger],
    row: &Row,
) -> bool
    requires lanes { length kept.now ≡ length shape.now.lanes }
    requires fits { Fits shape.now.schema row.now }
    requires few { length triggers.now ≤ MOST_TRIGGERS }
    ensures { result ≡ forgets shape.now triggers.now kept.now row.now }
{
    let _few = shape.lanes();
    let mut is_found = false;
    for lane in 0..kept.len() {
        if kept[lane].forgets_untold(shape, lane as u8, triggers, row) {
            is_found = true;
        }
    }
    is_found
}

/// The marks of a trigger.
pub(crate) fn marks_of(
    alloc: Global,
    kept: &[Watched],
    trigger: &Trigger,
    is_final: bool,
) -> Result<Marks, Memory>
    requires { trigger.now.agg < length kept.now }
    ensures { IfOk result (λ marks. marks ≡ marks_by kept.now is_final trigger.now) }
{
    let kept = &kept[usize::from(trigger.agg)];
    Ok(Marks::new(kept.marks(alloc, trigger, is_final)?))
}

/// The trigger at a place tells the marks that it has not told.
pub(crate) fn tell_at(
    alloc: Global,
    kept: &mut [Watched],
    triggers: &[Trigger],
    place: usize,
) -> Result<Vec<Fired>, Memory>
    requires exists { place < length triggers.now }
    requires few { length triggers.now ≤ MOST_TRIGGERS }
    requires lane { (trigger_at triggers.now place).agg < length kept.old }
    ensures marks { IfOk result (λ marks. marks.items ≡ watched_fresh (trigger_at triggers.now place) place (kept_at kept.old (trigger_at triggers.now place).agg)) }
    ensures told { OnOk result (kept.new ≡ told_by triggers.now kept.old place) }
    ensures err { OnErr result (kept.new ≡ kept.old) }
{
    let trigger = &triggers[place];
    kept[usize::from(trigger.agg)].tell(alloc, trigger, place as u8)
}

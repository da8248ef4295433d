// The marks of triggers on kept buckets.
ghost use Rattle.std.specs.Prelude.{◌≡◌, true, ◌<◌, ◌≤◌, ◌++◌, length, take, drop, filter, map, IfOk, OnOk};
ghost use Rattle.std.specs.BTreeMap.{insert_entry};
ghost use Rattle.std.specs.List.{list_any, range_with_len};
ghost use Rattle.std.specs.Ordering.{nat_cmp};
ghost use Rattle.cf_watch.specs.Marks.{fired_of, grows as grows_of, is_bucket_untold, is_downward as is_downward_of, is_untold, is_upward as is_upward_of, marks_of as marks_on, meets, settled_count as settled_count_of, with_told};

use crate::MOST_TRIGGERS;
use crate::bucket::Bucket;
use cf_fold::{Part, Trigger};
use cf_plain::Fired;
use cf_row::{Memory, Op};
use std::alloc::Global;
use std::collections::BTreeMap;

fn is_upward(op: Op) -> bool
    ensures { result ≡ is_upward_of op }
{
    matches!(op, Op::Gt | Op::Ge)
}

fn is_downward(op: Op) -> bool
    ensures { result ≡ is_downward_of op }
{
    matches!(op, Op::Lt | Op::Le)
}

// Whether more records of a bucket can't undo that the part meets the operator.
fn grows(part: Part, op: Op) -> bool
    ensures { result ≡ grows_of part op }
{
    match part {
        Part::Least => is_downward(op),
        Part::Count | Part::Sum | Part::Greatest => is_upward(op),
    }
}

/// At how many of so many kept buckets, from the first one on, the trigger looks.
pub(crate) fn settled_count(trigger: &Trigger, is_final: bool, count: usize) -> usize
    ensures is { result ≡ settled_count_of trigger.now is_final count }
    ensures within { result ≤ count }
{
    if is_final || grows(trigger.part, trigger.op) {
        count
    } else {
        count.saturating_sub(2)
    }
}

// The marks of a map from buckets to values, ascending by bucket.
fn listed(alloc: Global, values: &BTreeMap<u64, u64>) -> Result<Vec<Fired>, Memory>
    ensures { IfOk result (λ marks. marks.items ≡ map fired_of values.now.entries) }
{
    let mut marks = Vec::new(alloc);
    for (bucket, value) in values {
        marks.push(Fired {
            bucket: *bucket,
            key: None,
            value: *value,
        })?;
    }
    Ok(marks)
}

fn put(values: &mut BTreeMap<u64, u64>, mark: Fired) -> Result<(), Memory>
    ensures { OnOk result (values.new.entries ≡ insert_entry nat_cmp values.old.entries mark.bucket mark.value) }
{
    values.insert(mark.bucket, mark.value)?;
    Ok(())
}

/// The marks of the buckets in which the trigger fires, ascending by bucket.
pub(crate) fn marks_of(
    alloc: Global,
    buckets: &[Bucket],
    trigger: &Trigger,
) -> Result<Vec<Fired>, Memory>
    ensures { IfOk result (λ marks. marks.items ≡ marks_on trigger.now (filter (meets trigger.now) buckets.now)) }
{
    let mut values = BTreeMap::new(alloc);
    for bucket in buckets {
        if bucket.meets(trigger) {
            put(&mut values, bucket.mark(trigger))?;
        }
    }
    listed(alloc, &values)
}

/// The same of those that were not told for the trigger, which has that place in the setup.
pub(crate) fn untold_marks_of(
    alloc: Global,
    buckets: &[Bucket],
    trigger: &Trigger,
    place: u8,
) -> Result<Vec<Fired>, Memory>
    ensures { IfOk result (λ marks. marks.items ≡ marks_on trigger.now (filter (is_untold trigger.now place) buckets.now)) }
{
    let mut values = BTreeMap::new(alloc);
    for bucket in buckets {
        if bucket.is_untold(trigger, place) {
            put(&mut values, bucket.mark(trigger))?;
        }
    }
    listed(alloc, &values)
}

/// Tells those of the first so many buckets in which the trigger fires, which has that place in the setup.
pub(crate) fn tell_first(buckets: &mut [Bucket], count: usize, trigger: &Trigger, place: u8)
    requires within { count ≤ length buckets.old }
    requires exists { place < MOST_TRIGGERS }
    ensures { buckets.new ≡ map (with_told trigger.now place) (take count buckets.old) ++ drop count buckets.old }
{
    for at in 0..count {
        buckets[at].tell(trigger, place);
    }
}

// Whether the trigger at a place is one of the lane, fires in the bucket, and was not told.
fn is_untold_at(bucket: &Bucket, lane: u8, triggers: &[Trigger], place: usize) -> bool
    requires exists { place < length triggers.now }
    requires few { length triggers.now ≤ MOST_TRIGGERS }
    ensures { result ≡ is_bucket_untold lane triggers.now bucket.now place }
{
    let trigger = &triggers[place];
    trigger.agg == lane && bucket.is_untold(trigger, place as u8)
}

/// Whether some trigger of the lane fires in the bucket and was not told.
pub(crate) fn is_untold_for_any(bucket: &Bucket, lane: u8, triggers: &[Trigger]) -> bool
    requires { length triggers.now ≤ MOST_TRIGGERS }
    ensures { result ≡ list_any (is_bucket_untold lane triggers.now bucket.now) (range_with_len 0 (length triggers.now)) }
{
    let mut is_untold = false;
    for place in 0..triggers.len() {
        if is_untold_at(bucket, lane, triggers, place) {
            is_untold = true;
        }
    }
    is_untold
}

/// Whether both are the same trigger.
pub(crate) fn is_same(trigger: &Trigger, other: &Trigger) -> bool
    ensures { result ≡ true → trigger.now ≡ other.now }
{
    *trigger == *other
}

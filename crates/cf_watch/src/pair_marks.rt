// The marks of triggers on buckets whose keys are kept apart.
ghost use Rattle.std.specs.Prelude.{◌≡◌, ◌<◌, ◌≤◌, ◌^◌, ◌*◌, ◌+◌, ◌++◌, ℕ, List, length, take, drop, filter, map, fold, All, IfOk, OnOk};
ghost use Rattle.std.specs.BTreeMap.{insert_entry};
ghost use Rattle.std.specs.List.{list_any, range_with_len};
ghost use Rattle.std.specs.Ordering.{nat_cmp};
ghost use Rattle.cf_plain.specs.declared.answer.Fired.{Fired};
ghost use Rattle.cf_watch.specs.Kept.{AreApart};
ghost use Rattle.cf_watch.specs.Marks.{is_untold, meets, put_mark};
ghost use Rattle.cf_watch.specs.Notes.{AreUntoldAt};
ghost use Rattle.cf_watch.specs.PairMarks.{crowds_on, crowds_told, is_key_untold as is_key_untold_of, marks_at, marks_in as marks_in_of, pair_fired, pair_mark, with_pairs_told};

use crate::MOST_TRIGGERS;
use crate::apart::Apart;
use crate::bucket::Bucket;
use crate::marks::settled_count;
use cf_fold::Trigger;
use cf_plain::Fired;
use cf_row::Memory;
use std::alloc::Global;
use std::collections::{BTreeMap, BTreeSet};

/// The numbers of 64 bits, of which two make one of 128.
const BASE: u128 = 18_446_744_073_709_551_616;

// The mark of a bucket's key in which the trigger fires goes into a map from both in one number to the value.
fn put(
    values: &mut BTreeMap<u128, u64>,
    bucket: u64,
    pair: &Bucket,
    trigger: &Trigger,
) -> Result<(), Memory>
    ensures { OnOk result (map pair_fired values.new.entries ≡ put_mark (map pair_fired values.old.entries) (pair_mark trigger.now bucket pair.now)) }
{
    let key = pair.number();
    let mark = pair.mark(trigger);
    values.insert(u128::from(bucket) * BASE + u128::from(key), mark.value)?;
    Ok(())
}

// The same of each of some keys of a bucket in which the trigger fires.
fn put_marks(
    values: &mut BTreeMap<u128, u64>,
    bucket: u64,
    pairs: &[Bucket],
    trigger: &Trigger,
) -> Result<(), Memory>
    ensures { OnOk result (map pair_fired values.new.entries ≡ fold put_mark (map pair_fired values.old.entries) (map (pair_mark trigger.now bucket) (filter (meets trigger.now) pairs.now))) }
{
    for pair in pairs {
        if pair.meets(trigger) {
            put(values, bucket, pair, trigger)?;
        }
    }
    Ok(())
}

// The same of those that were not told for the trigger, which has that place in the setup.
fn put_untold_marks(
    values: &mut BTreeMap<u128, u64>,
    bucket: u64,
    pairs: &[Bucket],
    trigger: &Trigger,
    place: u8,
) -> Result<(), Memory>
    ensures { OnOk result (map pair_fired values.new.entries ≡ fold put_mark (map pair_fired values.old.entries) (map (pair_mark trigger.now bucket) (filter (is_untold trigger.now place) pairs.now))) }
{
    for pair in pairs {
        if pair.is_untold(trigger, place) {
            put(values, bucket, pair, trigger)?;
        }
    }
    Ok(())
}

// The same if all those keys are at these places.
fn put_untold_at(
    values: &mut BTreeMap<u128, u64>,
    bucket: u64,
    pairs: &[Bucket],
    places: &[usize],
    trigger: &Trigger,
    place: u8,
) -> Result<(), Memory>
    requires apart { AreApart pairs.now }
    requires within { All (λ at. at < length pairs.now) places.now }
    requires untold { AreUntoldAt trigger.now place places.now pairs.now }
    ensures { OnOk result (map pair_fired values.new.entries ≡ fold put_mark (map pair_fired values.old.entries) (map (pair_mark trigger.now bucket) (filter (is_untold trigger.now place) pairs.now))) }
{
    for at in places {
        let pair = &pairs[*at];
        if pair.is_untold(trigger, place) {
            put(values, bucket, pair, trigger)?;
        }
    }
    Ok(())
}

// The same of a bucket. It looks only at keys that may have such a mark.
fn put_untold_of(
    values: &mut BTreeMap<u128, u64>,
    apart: &Apart,
    trigger: &Trigger,
    place: u8,
) -> Result<(), Memory>
    ensures { OnOk result (map pair_fired values.new.entries ≡ fold put_mark (map pair_fired values.old.entries) (marks_at trigger.now (is_untold trigger.now place) apart.now)) }
{
    let number = apart.number();
    let pairs = apart.pairs();
    match apart.untold_places(trigger, place) {
        Some(places) => put_untold_at(values, number, pairs, places, trigger, place),
        None => put_untold_marks(values, number, pairs, trigger, place),
    }
}

// The marks of such a map, ascending.
fn listed(alloc: Global, values: &BTreeMap<u128, u64>) -> Result<Vec<Fired>, Memory>
    ensures { IfOk result (λ marks. marks.items ≡ map pair_fired values.now.entries) }
{
    let mut marks = Vec::new(alloc);
    for (number, value) in values {
        marks.push(Fired {
            bucket: (*number / BASE) as u64,
            key: Some((*number % BASE) as u64),
            value: *value,
        })?;
    }
    Ok(marks)
}

/// The marks of the keys in which the trigger fires, ascending by bucket and then by key.
pub(crate) fn marks_in(
    alloc: Global,
    buckets: &[Apart],
    trigger: &Trigger,
) -> Result<Vec<Fired>, Memory>
    ensures { IfOk result (λ marks. marks.items ≡ marks_in_of trigger.now (meets trigger.now) buckets.now) }
{
    let mut values = BTreeMap::new(alloc);
    for apart in buckets {
        put_marks(&mut values, apart.number(), apart.pairs(), trigger)?;
    }
    listed(alloc, &values)
}

/// The same of those that were not told for the trigger, which has that place in the setup.
pub(crate) fn untold_marks_in(
    alloc: Global,
    buckets: &[Apart],
    trigger: &Trigger,
    place: u8,
) -> Result<Vec<Fired>, Memory>
    ensures { IfOk result (λ marks. marks.items ≡ marks_in_of trigger.now (is_untold trigger.now place) buckets.now) }
{
    let mut values = BTreeMap::new(alloc);
    for apart in buckets {
        put_untold_of(&mut values, apart, trigger, place)?;
    }
    listed(alloc, &values)
}

/// Tells the keys of the first so many buckets in which the trigger fires, which has that place in the setup.
pub(crate) fn tell_first_buckets(buckets: &mut [Apart], count: usize, trigger: &Trigger, place: u8)
    requires within { count ≤ length buckets.old }
    requires exists { place < MOST_TRIGGERS }
    ensures { buckets.new ≡ map (with_pairs_told trigger.now place) (take count buckets.old) ++ drop count buckets.old }
{
    for at in 0..count {
        buckets[at].tell(trigger, place);
    }
}

// The numbers of the crowded buckets that were not told.
fn crowd_numbers(alloc: Global, buckets: &[Apart]) -> Result<BTreeSet<u64>, Memory>
    ensures { IfOk result (λ numbers. numbers.keys ≡ crowds_on buckets.now) }
{
    let mut numbers = BTreeSet::new(alloc);
    for apart in buckets {
        if apart.is_crowd_untold() {
            numbers.insert(apart.number())?;
        }
    }
    Ok(numbers)
}

/// The same, ascending.
pub(crate) fn crowded_in(alloc: Global, buckets: &[Apart]) -> Result<Vec<u64>, Memory>
    ensures { IfOk result (λ crowded. crowded.items ≡ crowds_on buckets.now) }
{
    let numbers = crowd_numbers(alloc, buckets)?;
    let mut crowded = Vec::new(alloc);
    for number in &numbers {
        crowded.push(*number)?;
    }
    Ok(crowded)
}

/// Tells which buckets are crowded.
pub(crate) fn tell_crowds(buckets: &mut [Apart])
    ensures { buckets.new ≡ crowds_told buckets.old }
{
    for at in 0..buckets.len() {
        buckets[at].tell_crowd();
    }
}

// Whether some key was not told in which the trigger fires, which has that place in the setup.
fn has_untold(pairs: &[Bucket], trigger: &Trigger, place: u8) -> bool
    ensures { result ≡ list_any (is_untold trigger.now place) pairs.now }
{
    pairs.iter().any(|pair| pair.is_untold(trigger, place))
}

// Whether the trigger at a place is one of the lane, looks at the bucket, and fires in a key of it that was not told.
fn is_key_untold(buckets: &[Apart], at: usize, lane: u8, triggers: &[Trigger], place: usize) -> bool
    requires bucket { at < length buckets.now }
    requires exists { place < length triggers.now }
    requires few { length triggers.now ≤ MOST_TRIGGERS }
    ensures { result ≡ is_key_untold_of lane triggers.now buckets.now at place }
{
    let trigger = &triggers[place];
    trigger.agg == lane
        && at < settled_count(trigger, false, buckets.len())
        && has_untold(buckets[at].pairs(), trigger, place as u8)
}

/// Whether some trigger of the lane looks at the bucket at a place and fires in a key of it that was not told.
pub(crate) fn is_key_untold_for_any(
    buckets: &[Apart],
    at: usize,
    lane: u8,
    triggers: &[Trigger],
) -> bool
    requires bucket { at < length buckets.now }
    requires few { length triggers.now ≤ MOST_TRIGGERS }
    ensures { result ≡ list_any (is_key_untold_of lane triggers.now buckets.now at) (range_with_len 0 (length triggers.now)) }
{
    let mut is_untold = false;
    for place in 0..triggers.len() {
        if is_key_untold(buckets, at, lane, triggers, place) {
            is_untold = true;
        }
    }
    is_untold
}

// What is kept of an aggregate by key.
ghost use Rattle.std.specs.Prelude.{◌≡◌, ℕ, ◌+◌, ◌-◌, ◌<◌, ◌≤◌, ◌^◌, ◌&&◌, ◌∷◌, ◌++◌, [], length, false, slice_index_or, All, MatchOption, IfOk, OnOk, OnErr};
ghost use Rattle.std.specs.List.{position, remove};
ghost use Rattle.cf_row.specs.Row.{Fits};
ghost use Rattle.cf_shape.specs.Lanes.{key_of, selected_by};
ghost use Rattle.cf_watch.specs.Pairs.{AreSeparate, IsApart, apart_by, begun_apart, forgotten_at, has_bucket, has_pair, is_elsewhere, most_pairs, no_bucket, nothing_apart, pair_count as pair_count_of, placing, with_key, with_one_apart, with_row_apart, without};
ghost use Rattle.cf_watch.specs.PairMarks.{apart_forgets, apart_fresh, apart_marks, apart_telling, crowds_on, crowds_told, is_untold_at as is_untold_at_of};

use crate::apart::Apart;
use crate::marks::settled_count;
use crate::pair_marks::{
    crowded_in, is_key_untold_for_any, marks_in, tell_crowds, tell_first_buckets, untold_marks_in,
};
use crate::{MOST_APART, MOST_PAIRS, MOST_TRIGGERS};
use cf_fold::Trigger;
use cf_plain::Fired;
use cf_row::{Memory, Row};
use cf_shape::{Shape, by, key, measure, selects};
use std::alloc::Global;
use std::marker::Model;

/// The buckets that are kept of an aggregate by key, at most [`MOST_APART`] with at most [`MOST_PAIRS`] pairs of a bucket and a key, and its
/// totals.
#[derive(Drop)]
pub struct KeptApart {
    buckets: Vec<Apart>,
    count: u64,
    sum: u64,
}

impl Model for KeptApart {
    ghost use Rattle.cf_watch.specs.Pairs.{IsKeptApart, KeptApartValue};

    ghost Value = { KeptApartValue };

    ghost view = { λ k. record { buckets = k.buckets.items; count = k.count; sum = k.sum } };

    ghost invariant = { λ k. IsKeptApart k.buckets.items k.count };
}

// The place of the bucket of that number. It looks from the end on, where the bucket of the last record is.
fn place_of(buckets: &[Apart], number: u64) -> Option<usize>
    ensures { MatchOption result (has_bucket buckets.now number ≡ false) (λ place. (place < length buckets.now) × ((slice_index_or buckets.now place no_bucket).bucket ≡ number)) }
{
    let mut place = buckets.len();
    while place > 0 {
        place -= 1;
        if buckets[place].number() == number {
            return Some(place);
        }
    }
    None
}

// How many pairs there are.
fn pair_count(buckets: &[Apart]) -> usize
    requires { pair_count_of buckets.now ≤ most_pairs }
    ensures { result ≡ pair_count_of buckets.now }
{
    let mut count = 0;
    for apart in buckets {
        count += apart.pairs().len();
    }
    count
}

// Whether the pair is kept.
fn has(buckets: &[Apart], number: u64, key: u64) -> bool
    requires { AreSeparate buckets.now }
    ensures { result ≡ has_pair buckets.now number key }
{
    match place_of(buckets, number) {
        Some(place) => buckets[place].has(key),
        None => false,
    }
}

// The place of the first bucket of another number.
fn place_of_other(buckets: &[Apart], number: u64) -> Option<usize>
    ensures { result ≡ position (is_elsewhere number) buckets.now }
{
    buckets.iter().position(|apart| apart.number() != number)
}

// The place of the bucket that is forgotten when a record of the pair comes and there are as many pairs as may be.
fn other(buckets: &[Apart], number: u64, key: u64) -> Option<usize>
    requires separate { AreSeparate buckets.now }
    requires full { most_pairs ≤ pair_count_of buckets.now }
    ensures { result ≡ forgotten_at buckets.now number key }
{
    if has(buckets, number, key) {
        None
    } else {
        place_of_other(buckets, number)
    }
}

// The place of the bucket that is forgotten when a record of the pair comes. Mostly that is clear without a look at the keys.
fn forgotten(buckets: &[Apart], number: u64, key: u64) -> Option<usize>
    requires separate { AreSeparate buckets.now }
    requires bounded { pair_count_of buckets.now ≤ most_pairs }
    ensures { result ≡ forgotten_at buckets.now number key }
{
    if pair_count(buckets) >= MOST_PAIRS {
        return other(buckets, number, key);
    }
    if buckets.len() < MOST_APART {
        return None;
    }
    match place_of(buckets, number) {
        Some(_) => None,
        None => Some(0),
    }
}

// The bucket that has to go for a record of the pair is forgotten.
fn forget(buckets: &mut Vec<Apart>, number: u64, key: u64)
    requires separate { AreSeparate buckets.old.items }
    requires bounded { pair_count_of buckets.old.items ≤ most_pairs }
    ensures { buckets.new.items ≡ without buckets.old.items (forgotten_at buckets.old.items number key) }
{
    if let Some(place) = forgotten(buckets, number, key) {
        let _ = buckets.remove(place);
    }
}

// The bucket at a place takes a record and moves to the end. Without memory nothing has changed.
fn take_at(buckets: &mut [Apart], place: usize, key: u64, value: u32) -> Result<(), Memory>
    requires exists { place < length buckets.old }
    requires few { All (λ pair. pair.quad.count < 2 ^ 53) (slice_index_or buckets.old place no_bucket).pairs }
    ensures ok { OnOk result (buckets.new ≡ remove buckets.old place ++ with_key key value (slice_index_or buckets.old place no_bucket) ∷ []) }
    ensures err { OnErr result (buckets.new ≡ buckets.old) }
{
    let apart = &mut buckets[place];
    apart.take(key, value)?;
    buckets[place..].rotate_left(1);
    Ok(())
}

// A record comes for which there is room. Without memory nothing has changed.
fn place_in(
    alloc: Global,
    buckets: &mut Vec<Apart>,
    number: u64,
    key: u64,
    value: u32,
) -> Result<(), Memory>
    requires separate { AreSeparate buckets.old.items }
    requires apart { All (IsApart (2 ^ 53 - 1)) buckets.old.items }
    ensures ok { OnOk result (buckets.new.items ≡ placing buckets.old.items number key value) }
    ensures err { OnErr result (buckets.new.items ≡ buckets.old.items) }
{
    match place_of(buckets, number) {
        Some(place) => take_at(buckets, place, key, value)?,
        None => buckets.push(Apart::new(alloc, number, key, value)?)?,
    }
    Ok(())
}

impl KeptApart {
    /// Nothing is kept yet. It takes no memory.
    pub fn new(alloc: Global) -> KeptApart
        ensures { result ≡ nothing_apart }
    {
        KeptApart {
            buckets: Vec::new(alloc),
            count: 0,
            sum: 0,
        }
    }

    /// How many records came that the aggregate's filter selects, in whatever bucket.
    pub fn count(&self) -> u64
        ensures { result ≡ self.now.count }
    {
        self.count
    }

    /// The sum of what the aggregate measures of them, modulo 2^64.
    pub fn sum(&self) -> u64
        ensures { result ≡ self.now.sum }
    {
        self.sum
    }

    /// Takes a record that the aggregate's filter selects, by the number of its bucket, its key and what is measured of it. Without memory
    /// the totals are as they were, and a bucket may have been forgotten.
    pub fn take(&mut self, alloc: Global, bucket: u64, key: u64, value: u32) -> Result<(), Memory>
        requires few { self.old.count < 2 ^ 53 }
        ensures ok { OnOk result (self.new ≡ with_one_apart self.old bucket key value) }
        ensures count { self.new.count ≤ self.old.count + 1 }
    {
        forget(&mut self.buckets, bucket, key);
        place_in(alloc, &mut self.buckets, bucket, key, value)?;
        self.count += 1;
        self.sum = self.sum.wrapping_add(u64::from(value));
        Ok(())
    }

    /// Takes a record, of which nothing is kept unless the lane selects it.
    pub fn take_row(
        &mut self,
        alloc: Global,
        shape: &Shape,
        lane: u8,
        row: &Row,
    ) -> Result<(), Memory>
        requires exists { lane < length shape.now.lanes }
        requires fits { Fits shape.now.schema row.now }
        requires few { self.old.count < 2 ^ 53 }
        ensures ok { OnOk result (self.new ≡ with_row_apart shape.now lane self.old row.now) }
        ensures count { self.new.count ≤ self.old.count + 1 }
    {
        if !selects(shape, lane, row) {
            return Ok(());
        }
        let by = by(shape, lane, row).unwrap_or(0);
        self.take(alloc, key(shape, lane, row), by, measure(shape, lane, row))
    }

    // Whether the bucket at a place is crowded or has a mark of one of the triggers of the lane, not yet told.
    fn is_untold_at(&self, lane: u8, triggers: &[Trigger], place: usize) -> bool
        requires exists { place < length self.now.buckets }
        requires few { length triggers.now ≤ MOST_TRIGGERS }
        ensures { result ≡ is_untold_at_of lane triggers.now self.now.buckets (Some place) }
    {
        self.buckets[place].is_crowd_untold()
            || is_key_untold_for_any(&self.buckets, place, lane, triggers)
    }

    /// Whether a record of that bucket and key makes a bucket forgotten that is crowded or has a mark of one of the triggers, not yet told;
    /// those of other lanes don't count.
    pub fn forgets_untold(&self, lane: u8, triggers: &[Trigger], bucket: u64, key: u64) -> bool
        requires { length triggers.now ≤ MOST_TRIGGERS }
        ensures { result ≡ apart_forgets lane triggers.now self.now.buckets bucket key }
    {
        match forgotten(&self.buckets, bucket, key) {
            Some(place) => self.is_untold_at(lane, triggers, place),
            None => false,
        }
    }

    /// The same of a record: false unless the lane selects it.
    pub fn row_forgets_untold(
        &self,
        shape: &Shape,
        lane: u8,
        triggers: &[Trigger],
        row: &Row,
    ) -> bool
        requires exists { lane < length shape.now.lanes }
        requires fits { Fits shape.now.schema row.now }
        requires few { length triggers.now ≤ MOST_TRIGGERS }
        ensures { result ≡ (selected_by shape.now lane row.now && apart_forgets lane triggers.now self.now.buckets (key_of shape.now lane row.now) (apart_by shape.now lane row.now)) }
    {
        if !selects(shape, lane, row) {
            return false;
        }
        let by = by(shape, lane, row).unwrap_or(0);
        self.forgets_untold(lane, triggers, key(shape, lane, row), by)
    }

    /// The marks of a trigger, ascending by bucket and then by key: those of the kept keys in which it fires. If more records may undo its
    /// marks, then only those of buckets behind which two or more stand, but in the final part all.
    pub fn marks(
        &self,
        alloc: Global,
        trigger: &Trigger,
        is_final: bool,
    ) -> Result<Vec<Fired>, Memory>
        ensures { IfOk result (λ marks. marks.items ≡ apart_marks trigger.now is_final self.now.buckets) }
    {
        let count = settled_count(trigger, is_final, self.buckets.len());
        marks_in(alloc, &self.buckets[..count], trigger)
    }

    /// The marks of the trigger at a place of the setup that were not told yet, which are told with this. Without memory nothing has changed.
    pub fn tell(
        &mut self,
        alloc: Global,
        trigger: &Trigger,
        place: u8,
    ) -> Result<Vec<Fired>, Memory>
        requires { place < MOST_TRIGGERS }
        ensures marks { IfOk result (λ marks. marks.items ≡ apart_fresh trigger.now place self.old.buckets) }
        ensures told { OnOk result (self.new ≡ record self.old { buckets = apart_telling trigger.now place self.old.buckets }) }
        ensures err { OnErr result (self.new ≡ self.old) }
    {
        let count = settled_count(trigger, false, self.buckets.len());
        let fresh = untold_marks_in(alloc, &self.buckets[..count], trigger, place)?;
        tell_first_buckets(&mut self.buckets, count, trigger, place);
        Ok(fresh)
    }

    /// The crowded buckets that were not told, ascending, which are told with this: those in which a record came of another key when there
    /// were as many pairs as may be. Without memory nothing has changed.
    pub fn tell_crowded(&mut self, alloc: Global) -> Result<Vec<u64>, Memory>
        ensures crowded { IfOk result (λ crowded. crowded.items ≡ crowds_on self.old.buckets) }
        ensures told { OnOk result (self.new ≡ record self.old { buckets = crowds_told self.old.buckets }) }
        ensures err { OnErr result (self.new ≡ self.old) }
    {
        let crowded = crowded_in(alloc, &self.buckets)?;
        tell_crowds(&mut self.buckets);
        Ok(crowded)
    }
}

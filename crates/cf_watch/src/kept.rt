// What is kept of an aggregate.
ghost use Rattle.std.specs.Prelude.{◌≡◌, ℕ, ◌<◌, ◌≤◌, ◌^◌, ◌&&◌, ◌↔◌, [], ◌∷◌, ◌++◌, length, false, slice_index_or, All, IsTrue, MatchOption, IfOk, OnOk, OnErr};
ghost use Rattle.std.specs.List.{remove};
ghost use Rattle.cf_row.specs.Row.{Fits};
ghost use Rattle.cf_shape.specs.Lanes.{key_of, selected_by};
ghost use Rattle.cf_watch.specs.Kept.{AreApart, begun, is_kept, most_kept, nothing_kept, taking, with_one, with_record, with_room, with_row};
ghost use Rattle.cf_watch.specs.Marks.{forgets_untold as forgets_untold_of, fresh_on, marks_on, telling};

use crate::bucket::Bucket;
use crate::marks::{is_untold_for_any, marks_of, settled_count, tell_first, untold_marks_of};
use crate::{MOST_KEPT, MOST_TRIGGERS};
use cf_fold::Trigger;
use cf_plain::Fired;
use cf_row::{Memory, Row};
use cf_shape::{Shape, key, measure, selects};
use std::alloc::Global;
use std::marker::Model;

/// The whole buckets that are kept of an aggregate, at most [`MOST_KEPT`], and its totals.
#[derive(Drop)]
pub struct Kept {
    buckets: Vec<Bucket>,
    count: u64,
    sum: u64,
}

impl Model for Kept {
    ghost use Rattle.cf_watch.specs.Kept.{IsKept, KeptValue};

    ghost Value = { KeptValue };

    ghost view = { λ k. record { buckets = k.buckets.items; count = k.count; sum = k.sum } };

    ghost invariant = { λ k. IsKept k.buckets.items k.count };
}

// The place of the bucket of that number. It looks from the end on, where the bucket of the last record is.
fn place_of(buckets: &[Bucket], number: u64) -> Option<usize>
    ensures { MatchOption result (is_kept buckets.now number ≡ false) (λ place. (place < length buckets.now) × ((slice_index_or buckets.now place (begun 0 0)).bucket ≡ number)) }
{
    let mut place = buckets.len();
    while place > 0 {
        place -= 1;
        if buckets[place].number() == number {
            return Some(place);
        }
    }
    None
}

// The bucket at a place takes a record and moves to the end.
fn take_at(buckets: &mut [Bucket], place: usize, value: u32)
    requires exists { place < length buckets.old }
    requires few { (slice_index_or buckets.old place (begun 0 0)).quad.count < 2 ^ 53 }
    ensures { buckets.new ≡ remove buckets.old place ++ with_record value (slice_index_or buckets.old place (begun 0 0)) ∷ [] }
{
    let bucket = &mut buckets[place];
    bucket.add(value);
    buckets[place..].rotate_left(1);
}

// A bucket of one record begins at the end, for which the first is forgotten if as many are kept as may be. That takes no memory.
fn begin(buckets: &mut Vec<Bucket>, number: u64, value: u32) -> Result<(), Memory>
    ensures ok { OnOk result (buckets.new.items ≡ with_room buckets.old.items ++ begun number value ∷ []) }
    ensures err { OnErr result (buckets.new.items ≡ buckets.old.items) }
{
    let bucket = Bucket::new(number, value);
    if buckets.len() < MOST_KEPT {
        buckets.push(bucket)?;
        return Ok(());
    }
    buckets[0] = bucket;
    buckets.rotate_left(1);
    Ok(())
}

// The bucket of that number takes a record, or begins with it.
fn take_into(buckets: &mut Vec<Bucket>, number: u64, value: u32) -> Result<(), Memory>
    requires apart { AreApart buckets.old.items }
    requires few { All (λ k. k.quad.count < 2 ^ 53) buckets.old.items }
    ensures ok { OnOk result (buckets.new.items ≡ taking buckets.old.items number value) }
    ensures err { OnErr result (buckets.new.items ≡ buckets.old.items) }
{
    match place_of(buckets, number) {
        Some(place) => {
            take_at(buckets, place, value);
            Ok(())
        }
        None => begin(buckets, number, value),
    }
}

impl Kept {
    /// Nothing is kept yet. It takes no memory.
    pub fn new(alloc: Global) -> Kept
        ensures { result ≡ nothing_kept }
    {
        Kept {
            buckets: Vec::new(alloc),
            count: 0,
            sum: 0,
        }
    }

    /// How many records came that the aggregate's filter selects, in whatever bucket.
    pub fn count(&self) -> u64
        ensures { result ≡ self.now.count }
    {
        self.count
    }

    /// The sum of what the aggregate measures of them, modulo 2^64.
    pub fn sum(&self) -> u64
        ensures { result ≡ self.now.sum }
    {
        self.sum
    }

    /// How many buckets are kept: at most [`MOST_KEPT`].
    pub fn len(&self) -> usize
        ensures is { result ≡ length self.now.buckets }
        ensures few { result ≤ most_kept }
    {
        self.buckets.len()
    }

    /// Whether no bucket is kept, which is so before the first record.
    pub fn is_empty(&self) -> bool
        ensures { IsTrue result ↔ (self.now.buckets ≡ []) }
    {
        self.buckets.is_empty()
    }

    /// Takes a record that the aggregate's filter selects, by the number of its bucket and what is measured of it. The time is
    /// constant if its bucket is that of the record before. Without memory nothing has changed.
    pub fn take(&mut self, bucket: u64, value: u32) -> Result<(), Memory>
        requires few { self.old.count < 2 ^ 53 }
        ensures ok { OnOk result (self.new ≡ with_one self.old bucket value) }
        ensures err { OnErr result (self.new ≡ self.old) }
    {
        take_into(&mut self.buckets, bucket, value)?;
        self.count += 1;
        self.sum = self.sum.wrapping_add(u64::from(value));
        Ok(())
    }

    /// Takes a record, of which nothing is kept unless the lane selects it. Without memory nothing has changed.
    pub fn take_row(&mut self, shape: &Shape, lane: u8, row: &Row) -> Result<(), Memory>
        requires exists { lane < length shape.now.lanes }
        requires fits { Fits shape.now.schema row.now }
        requires few { self.old.count < 2 ^ 53 }
        ensures ok { OnOk result (self.new ≡ with_row shape.now lane self.old row.now) }
        ensures err { OnErr result (self.new ≡ self.old) }
    {
        if !selects(shape, lane, row) {
            return Ok(());
        }
        self.take(key(shape, lane, row), measure(shape, lane, row))
    }

    /// Whether a record of that bucket makes a bucket forgotten that has a mark, not yet told, of one of the triggers; those of
    /// other lanes don't count.
    pub fn forgets_untold(&self, lane: u8, triggers: &[Trigger], bucket: u64) -> bool
        requires { length triggers.now ≤ MOST_TRIGGERS }
        ensures { result ≡ forgets_untold_of lane triggers.now self.now.buckets bucket }
    {
        if self.buckets.len() < MOST_KEPT || place_of(&self.buckets, bucket).is_some() {
            return false;
        }
        is_untold_for_any(&self.buckets[0], lane, triggers)
    }

    /// The same of a record: false unless the lane selects it.
    pub fn row_forgets_untold(
        &self,
        shape: &Shape,
        lane: u8,
        triggers: &[Trigger],
        row: &Row,
    ) -> bool
        requires exists { lane < length shape.now.lanes }
        requires fits { Fits shape.now.schema row.now }
        requires few { length triggers.now ≤ MOST_TRIGGERS }
        ensures { result ≡ (selected_by shape.now lane row.now && forgets_untold_of lane triggers.now self.now.buckets (key_of shape.now lane row.now)) }
    {
        selects(shape, lane, row) && self.forgets_untold(lane, triggers, key(shape, lane, row))
    }

    /// The marks of a trigger, ascending by bucket: those of the kept buckets in which it fires. If more records may undo its
    /// marks, then only those behind which two or more buckets stand, but in the final part all.
    pub fn marks(
        &self,
        alloc: Global,
        trigger: &Trigger,
        is_final: bool,
    ) -> Result<Vec<Fired>, Memory>
        ensures { IfOk result (λ marks. marks.items ≡ marks_on trigger.now is_final self.now.buckets) }
    {
        let count = settled_count(trigger, is_final, self.buckets.len());
        marks_of(alloc, &self.buckets[..count], trigger)
    }

    /// The marks of the trigger at a place of the setup that were not told yet, which are told with this. Without memory nothing
    /// has changed.
    pub fn tell(
        &mut self,
        alloc: Global,
        trigger: &Trigger,
        place: u8,
    ) -> Result<Vec<Fired>, Memory>
        requires { place < MOST_TRIGGERS }
        ensures marks { IfOk result (λ marks. marks.items ≡ fresh_on trigger.now place self.old.buckets) }
        ensures told { OnOk result (self.new ≡ record self.old { buckets = telling trigger.now place self.old.buckets }) }
        ensures err { OnErr result (self.new ≡ self.old) }
    {
        let count = settled_count(trigger, false, self.buckets.len());
        let fresh = untold_marks_of(alloc, &self.buckets[..count], trigger, place)?;
        tell_first(&mut self.buckets, count, trigger, place);
        Ok(fresh)
    }
}

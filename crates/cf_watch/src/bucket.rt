// A bucket that is kept.
ghost use Rattle.std.specs.Prelude.{◌≡◌, ℕ, ◌<◌, ◌^◌, false};
ghost use Rattle.cf_row.specs.Expr.{compares};

use crate::MOST_TRIGGERS;
use cf_fold::{Part, Trigger};
use cf_plain::Fired;
use cf_row::Op;
use std::marker::Model;

// Its number, what is known of its records, and for which triggers it was told.
#[derive(Drop)]
pub(crate) struct Bucket {
    number: u64,
    count: u64,
    sum: u128,
    least: u32,
    greatest: u32,
    told: [bool; MOST_TRIGGERS],
}

impl Model for Bucket {
    ghost use Rattle.std.specs.Prelude.{◌*◌, ◌<◌, ◌≤◌};
    ghost use Rattle.cf_watch.specs.Kept.{BucketValue};

    ghost Value = { BucketValue };

    ghost view = { λ b. record { bucket = b.number; quad = record { count = b.count; sum = b.sum; least = b.least; greatest = b.greatest }; told = b.told } };

    ghost invariant = { λ b. (0 < b.count) × (b.sum ≤ b.count * 4294967295) };
}

// Whether a part that may be above each number of 64 bits meets the operator.
fn meets(op: Op, part: u128, number: u64) -> bool
    ensures { result ≡ compares op part number 0 }
{
    match u64::try_from(part) {
        Ok(part) => op.compares(part, number, 0),
        Err(_) => matches!(op, Op::Ne | Op::Gt | Op::Ge | Op::Outside),
    }
}

impl Bucket {
    ghost use Rattle.cf_fold.specs.Triggers.{part_of};
    ghost use Rattle.cf_watch.specs.Kept.{begun, with_record};
    ghost use Rattle.cf_watch.specs.Marks.{is_told as is_told_of, is_untold as is_untold_of, mark_in, meets as meets_of, with_told};

    // A bucket of one record alone.
    pub(crate) fn new(number: u64, value: u32) -> Bucket
        ensures { result ≡ begun number value }
    {
        Bucket {
            number,
            count: 1,
            sum: u128::from(value),
            least: value,
            greatest: value,
            told: [false; MOST_TRIGGERS],
        }
    }

    // Its number: a time divided by the width of the buckets.
    pub(crate) fn number(&self) -> u64
        ensures { result ≡ self.now.bucket }
    {
        self.number
    }

    // One record more.
    pub(crate) fn add(&mut self, value: u32)
        requires { self.old.quad.count < 2 ^ 53 }
        ensures { self.new ≡ with_record value self.old }
    {
        self.count += 1;
        self.sum += u128::from(value);
        self.least = self.least.min(value);
        self.greatest = self.greatest.max(value);
    }

    fn part(&self, part: Part) -> u128
        ensures { result ≡ part_of part self.now.quad }
    {
        match part {
            Part::Count => u128::from(self.count),
            Part::Sum => self.sum,
            Part::Least => u128::from(self.least),
            Part::Greatest => u128::from(self.greatest),
        }
    }

    // Whether the trigger fires in it.
    pub(crate) fn meets(&self, trigger: &Trigger) -> bool
        ensures { result ≡ meets_of trigger.now self.now }
    {
        let _some = self.count;
        meets(trigger.op, self.part(trigger.part), trigger.number)
    }

    // Its mark of a trigger that fires in it.
    pub(crate) fn mark(&self, trigger: &Trigger) -> Fired
        ensures { result ≡ mark_in trigger.now self.now }
    {
        let value = self.part(trigger.part).min(u128::from(u64::MAX));
        Fired {
            bucket: self.number,
            key: None,
            value: value as u64,
        }
    }

    // Whether it was told for the trigger at a place.
    fn is_told(&self, place: u8) -> bool
        ensures { result ≡ is_told_of place self.now }
    {
        match self.told.get(usize::from(place)) {
            Some(is_told) => *is_told,
            None => false,
        }
    }

    // Whether the trigger at a place fires in it and it was not told for that.
    pub(crate) fn is_untold(&self, trigger: &Trigger, place: u8) -> bool
        ensures { result ≡ is_untold_of trigger.now place self.now }
    {
        self.meets(trigger) && !self.is_told(place)
    }

    // It is told for the trigger at a place, if that fires in it.
    pub(crate) fn tell(&mut self, trigger: &Trigger, place: u8)
        requires { place < MOST_TRIGGERS }
        ensures told { self.new ≡ with_told trigger.now place self.old }
        ensures quiet { is_untold_of trigger.now place self.new ≡ false }
    {
        if self.meets(trigger) {
            self.told[usize::from(place)] = true;
        }
    }
}

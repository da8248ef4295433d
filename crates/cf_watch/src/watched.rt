// What is kept of a lane.
ghost use Rattle.std.specs.Prelude.{◌≡◌, ◌+◌, ◌<◌, ◌≤◌, ◌^◌, length, IfOk, OnErr, OnOk};
ghost use Rattle.cf_row.specs.Row.{Fits};
ghost use Rattle.cf_watch.specs.Watched.{nothing_watched, watched_count, watched_crowds, watched_crowds_told, watched_forgets, watched_fresh, watched_marks, watched_row, watched_sum, watched_telling};

use crate::{Kept, KeptApart, MOST_TRIGGERS};
use cf_fold::Trigger;
use cf_plain::Fired;
use cf_row::{Memory, Row};
use cf_shape::Shape;
use std::alloc::Global;

/// What is kept of a lane: whole buckets, or buckets whose keys are kept apart.
#[derive(Drop)]
pub enum Watched {
    Whole(Kept),
    Apart(KeptApart),
}

impl Watched {
    /// Nothing is kept yet. It takes no memory.
    pub fn new(alloc: Global, is_apart: bool) -> Watched
        ensures { result ≡ nothing_watched is_apart }
    {
        if is_apart {
            Watched::Apart(KeptApart::new(alloc))
        } else {
            Watched::Whole(Kept::new(alloc))
        }
    }

    /// How many records came that the lane selects.
    pub fn count(&self) -> u64
        ensures { result ≡ watched_count self.now }
    {
        match self {
            Watched::Whole(kept) => kept.count(),
            Watched::Apart(kept) => kept.count(),
        }
    }

    /// The sum of what the lane measures of them, modulo 2^64.
    pub fn sum(&self) -> u64
        ensures { result ≡ watched_sum self.now }
    {
        match self {
            Watched::Whole(kept) => kept.sum(),
            Watched::Apart(kept) => kept.sum(),
        }
    }

    /// Takes a record, of which nothing is kept unless the lane selects it.
    pub fn take_row(
        &mut self,
        alloc: Global,
        shape: &Shape,
        lane: u8,
        row: &Row,
    ) -> Result<(), Memory>
        requires exists { lane < length shape.now.lanes }
        requires fits { Fits shape.now.schema row.now }
        requires few { watched_count self.old < 2 ^ 53 }
        ensures ok { OnOk result (self.new ≡ watched_row shape.now lane self.old row.now) }
        ensures count { watched_count self.new ≤ watched_count self.old + 1 }
    {
        match self {
            Watched::Whole(kept) => kept.take_row(shape, lane, row),
            Watched::Apart(kept) => kept.take_row(alloc, shape, lane, row),
        }
    }

    /// Whether a record makes a bucket forgotten that has a mark of one of the triggers, or is crowded, not yet told. Triggers of other
    /// lanes don't count, and it is false unless the lane selects the record.
    pub fn forgets_untold(&self, shape: &Shape, lane: u8, triggers: &[Trigger], row: &Row) -> bool
        requires exists { lane < length shape.now.lanes }
        requires fits { Fits shape.now.schema row.now }
        requires few { length triggers.now ≤ MOST_TRIGGERS }
        ensures { result ≡ watched_forgets shape.now lane triggers.now self.now row.now }
    {
        match self {
            Watched::Whole(kept) => kept.row_forgets_untold(shape, lane, triggers, row),
            Watched::Apart(kept) => kept.row_forgets_untold(shape, lane, triggers, row),
        }
    }

    /// The marks of a trigger, ascending by bucket and then by key. If more records may undo them, then only those of buckets behind which
    /// two or more stand, but in the final part all.
    pub fn marks(
        &self,
        alloc: Global,
        trigger: &Trigger,
        is_final: bool,
    ) -> Result<Vec<Fired>, Memory>
        ensures { IfOk result (λ marks. marks.items ≡ watched_marks trigger.now is_final self.now) }
    {
        match self {
            Watched::Whole(kept) => kept.marks(alloc, trigger, is_final),
            Watched::Apart(kept) => kept.marks(alloc, trigger, is_final),
        }
    }

    /// The marks of the trigger at a place of the setup that were not told yet, which are told with this. Without memory nothing has changed.
    pub fn tell(
        &mut self,
        alloc: Global,
        trigger: &Trigger,
        place: u8,
    ) -> Result<Vec<Fired>, Memory>
        requires { place < MOST_TRIGGERS }
        ensures marks { IfOk result (λ marks. marks.items ≡ watched_fresh trigger.now place self.old) }
        ensures told { OnOk result (self.new ≡ watched_telling trigger.now place self.old) }
        ensures err { OnErr result (self.new ≡ self.old) }
    {
        match self {
            Watched::Whole(kept) => kept.tell(alloc, trigger, place),
            Watched::Apart(kept) => kept.tell(alloc, trigger, place),
        }
    }

    /// The crowded buckets that were not told, ascending, which are told with this. Without memory nothing has changed.
    pub fn tell_crowded(&mut self, alloc: Global) -> Result<Vec<u64>, Memory>
        ensures crowded { IfOk result (λ crowded. crowded.items ≡ watched_crowds self.old) }
        ensures told { OnOk result (self.new ≡ watched_crowds_told self.old) }
        ensures err { OnErr result (self.new ≡ self.old) }
    {
        match self {
            Watched::Whole(_) => Ok(Vec::new(alloc)),
            Watched::Apart(kept) => kept.tell_crowded(alloc),
        }
    }
}

// A log goes on through several segments.
ghost use Rattle.std.specs.Prelude.{◌≡◌, ◌+◌, ◌<◌, ◌≤◌, ◌↔◌, ◌++◌, [], All, length, map, vec_capacity, IfOk, MatchResult, OnErr, OnOk};
ghost use Rattle.std.specs.List.{AllZip, flat_map};
ghost use Rattle.cf_plain.specs.Order.{order_of};
ghost use Rattle.cf_shape.specs.Lanes.{ShapeValue, IsShape};
ghost use Rattle.cf_table.specs.Values.{IsOf};
ghost use Rattle.cf_query.specs.Tags.{nums_of};
ghost use Rattle.cf_segments.specs.Segments.{AllowsSegments, IsSegment, IsOpened, HoldsRows, HasTurnedOver, HasLooked, HaveLooked, all_of, base_of, entries_of, room_of, seen_of, sealed, told_of};
ghost use Rattle.cf_segments.specs.declared.segments.TurnFault.TheVariants.{Memory as NoMemory, Spent};

use cf_query::push_tags;
use cf_row::{Entry, Memory};
use cf_shape::Shape;
use cf_table::{MultiLog, Pass, Root, Seal, Steps};
use std::alloc::Global;
use std::marker::{Brand, Model};
use std::mem;
use std::snapshot::Snapshot;
use std::sync::ledger::{Blank, Ledger};
use thiserror::Error;

/// A log and the pass that holds its books.
#[derive(Drop)]
pub struct Segment {
    pub log: MultiLog,
    pub root: Root,
}

impl Segment {
    // A segment with no row.
    fn open(alloc: Global, shape: Shape) -> Result<Segment, Memory>
        ensures { IfOk result (IsOpened shape) }
    {
        let (log, root) = MultiLog::open(alloc, shape)?;
        Ok(Segment { log, root })
    }

    // All entries.
    fn entries(&mut self, alloc: Global) -> Result<Vec<Entry>, Memory>
        requires of { IsOf self.old.root self.old.log }
        ensures entries { IfOk result (λ entries. entries.items ≡ seen_of self.old) }
        ensures looked { HasLooked self.old self.new }
    {
        self.log.entries(alloc, &mut self.root)
    }

    // Puts the numbers and the writers of all entries behind others.
    fn push_tags<L: Ledger>(
        &mut self,
        nums: &mut Vec<u32>,
        writers: &mut Vec<u8>,
        steps: &mut Steps<L>,
    ) -> Result<(), Memory>
        requires of { IsOf self.old.root self.old.log }
        ensures nums { OnOk result (nums.new.items ≡ nums.old.items ++ nums_of (seen_of self.old)) }
        ensures writers { OnOk result (writers.new.items ≡ writers.old.items ++ order_of (seen_of self.old)) }
        ensures looked { HasLooked self.old self.new }
    {
        push_tags(&self.log, &mut self.root, nums, writers, steps)
    }

    // Nothing more is done with it.
    fn seal(self) -> Seal
        requires { (shape : ShapeValue) × IsSegment shape self }
        ensures { result ≡ sealed self }
    {
        self.log.seal(self.root)
    }
}

/// Why a segment wasn't closed.
#[derive(Clone, Copy, Debug, PartialEq, Eq, Error)]
pub enum TurnFault {
    /// As many segments were opened as there may be.
    #[error("there are as many segments as there may be")]
    Spent,
    /// Want of memory.
    #[error("out of memory")]
    Memory,
}

impl From<Memory> for TurnFault {
    ghost from_gives = { λ _ e. e ≡ NoMemory };

    fn from(_: Memory) -> Self {
        TurnFault::Memory
    }
}

/// The entries of all segments, end to end, and a seal of each.
#[derive(Drop)]
pub struct Closing {
    pub entries: Vec<Entry>,
    pub seals: Vec<Seal>,
}

/// The numbers in the input and the writers of the entries of all segments, end to end, and a seal of each segment.
#[derive(Drop)]
pub struct Sealing {
    pub nums: Vec<u32>,
    pub writers: Vec<u8>,
    pub seals: Vec<Seal>,
}

/// A log in segments of one shape: rows go to the current one, and those before it are closed. With N the shape's capacity,
/// segment k has room for the rows from number k * N on. All books are home between calls.
#[derive(Drop)]
pub struct Segments {
    most: u32,
    pub(crate) closed: Vec<Segment>,
    /// The one that rows go to.
    pub current: Segment,
}

impl Model for Segments {
    ghost use Rattle.std.specs.Prelude.{◌≤◌, vec_capacity};
    ghost use Rattle.cf_segments.specs.Segments.{SegmentsValue, IsSegments, segments_of};

    ghost Value = { SegmentsValue };

    ghost view = { λ s. segments_of s.most s.closed.items s.current };

    ghost invariant = { λ s. IsSegments (segments_of s.most s.closed.items s.current) × (s.most ≤ vec_capacity s.closed) };
}

// Puts the entries of the segments behind others.
fn push_entries(
    alloc: Global,
    segments: &mut [Segment],
    entries: &mut Vec<Entry>,
) -> Result<(), Memory>
    requires of { All (λ segment. IsOf segment.root segment.log) segments.old }
    ensures entries { OnOk result (entries.new.items ≡ entries.old.items ++ flat_map seen_of segments.old) }
    ensures looked { AllZip HasLooked segments.old segments.new }
{
    for segment in segments.iter_mut() {
        let mut more = segment.entries(alloc)?;
        entries.append(&mut more)?;
    }
    Ok(())
}

// Puts the numbers and the writers of the segments' entries behind others.
fn push_each<L: Ledger>(
    segments: &mut [Segment],
    nums: &mut Vec<u32>,
    writers: &mut Vec<u8>,
    steps: &mut Steps<L>,
) -> Result<(), Memory>
    requires of { All (λ segment. IsOf segment.root segment.log) segments.old }
    ensures nums { OnOk result (nums.new.items ≡ nums.old.items ++ nums_of (flat_map seen_of segments.old)) }
    ensures writers { OnOk result (writers.new.items ≡ writers.old.items ++ order_of (flat_map seen_of segments.old)) }
    ensures looked { AllZip HasLooked segments.old segments.new }
{
    for segment in segments.iter_mut() {
        segment.push_tags(nums, writers, steps)?;
    }
    Ok(())
}

// The numbers and the writers of the entries of all these segments, end to end.
fn read_tags<L: Ledger>(
    alloc: Global,
    closed: &mut [Segment],
    current: &mut Segment,
    blank: Blank,
) -> Result<(Vec<u32>, Vec<u8>), Memory>
    requires closed { All (λ segment. IsOf segment.root segment.log) closed.old }
    requires current { IsOf current.old.root current.old.log }
    requires blank { (blank.name ≡ L.name) × (blank.parts ≡ L.parts) × (0 < L.parts) }
    ensures nums { IfOk result (λ tags. tags.0.items ≡ nums_of (flat_map seen_of closed.old ++ seen_of current.old)) }
    ensures writers { IfOk result (λ tags. tags.1.items ≡ order_of (flat_map seen_of closed.old ++ seen_of current.old)) }
    ensures closed { AllZip HasLooked closed.old closed.new }
    ensures current { HasLooked current.old current.new }
{
    let mut steps = Steps::<L>::new(blank);
    let room = current.log.shape().capacity() as usize;
    let last = current.root.covered() as usize;
    let most = closed.len().saturating_mul(room).saturating_add(last);
    let mut nums = Vec::with_capacity(alloc, most)?;
    let mut writers = Vec::with_capacity(alloc, most)?;
    push_each(closed, &mut nums, &mut writers, &mut steps)?;
    current.push_tags(&mut nums, &mut writers, &mut steps)?;
    Ok((nums, writers))
}

// The entries of all these segments, end to end.
fn read_all(
    alloc: Global,
    closed: &mut [Segment],
    current: &mut Segment,
) -> Result<Vec<Entry>, Memory>
    requires closed { All (λ segment. IsOf segment.root segment.log) closed.old }
    requires current { IsOf current.old.root current.old.log }
    ensures entries { IfOk result (λ entries. entries.items ≡ flat_map seen_of closed.old ++ seen_of current.old) }
    ensures closed { AllZip HasLooked closed.old closed.new }
    ensures current { HasLooked current.old current.new }
{
    if closed.is_empty() {
        return current.entries(alloc);
    }
    let room = current.log.shape().capacity() as usize;
    let most = closed.len().saturating_add(1).saturating_mul(room);
    let mut entries = Vec::with_capacity(alloc, most)?;
    push_entries(alloc, closed, &mut entries)?;
    let mut more = current.entries(alloc)?;
    entries.append(&mut more)?;
    Ok(entries)
}

// Puts the segments' seals behind others.
fn push_seals(segments: Vec<Segment>, seals: &mut Vec<Seal>)
    requires each { (shape : ShapeValue) × All (IsSegment shape) segments.items }
    requires room { length seals.old.items + length segments.items ≤ vec_capacity seals.old }
    ensures seals { seals.new.items ≡ seals.old.items ++ map sealed segments.items }
    ensures room { vec_capacity seals.new ≡ vec_capacity seals.old }
{
    for segment in segments {
        seals.push_reserved(segment.seal());
    }
}

impl Segments {
    /// Opens the first of at most so many segments of the shape.
    pub fn open(alloc: Global, shape: Shape, most: u32) -> Result<Segments, Memory>
        requires { AllowsSegments shape most }
        ensures shape { IfOk result (λ segments. segments.shape ≡ shape) }
        ensures most { IfOk result (λ segments. segments.most ≡ most) }
        ensures one { IfOk result (λ segments. segments.closed ≡ []) }
        ensures told { IfOk result (λ segments. told_of segments ≡ []) }
        ensures holds { IfOk result (λ segments. HoldsRows segments []) }
    {
        let closed = Vec::with_capacity(alloc, most as usize)?;
        let current = Segment::open(alloc, shape)?;
        Ok(Segments {
            most,
            closed,
            current,
        })
    }

    /// The shape of each segment.
    pub fn shape(&self) -> &Shape
        ensures shape { result.now ≡ self.now.shape }
        ensures lawful { IsShape self.now.shape }
    {
        self.current.log.shape()
    }

    /// How many rows all segments have room for.
    pub fn room(&self) -> u32
        ensures { result ≡ room_of self.now }
    {
        self.most * self.current.log.shape().capacity()
    }

    /// How many rows the closed segments have room for.
    pub fn base(&self) -> u32
        ensures { result ≡ base_of self.now }
    {
        self.current.log.shape().capacity() * self.closed.len() as u32
    }

    /// Which segments are closed, for contracts alone.
    pub fn closed(&self) -> Snapshot<Vec<Segment>>
        ensures { result.value.items ≡ self.now.closed }
    {
        Snapshot::of(&self.closed)
    }

    /// Closes the current segment, and opens one behind it. Refused, all is as it was.
    pub fn turn(&mut self, alloc: Global) -> Result<(), TurnFault>
        ensures spent { (result ≡ Err Spent) ↔ (length self.old.closed + 1 ≡ self.old.most) }
        ensures stays { OnErr result (self.new ≡ self.old) }
        ensures turned { OnOk result (HasTurnedOver self.old self.new) }
    {
        if self.closed.len() + 1 == self.most as usize {
            return Err(TurnFault::Spent);
        }
        let next = self.open_next(alloc)?;
        self.turn_to(next);
        Ok(())
    }

    /// A segment of the same shape, with no row.
    pub fn open_next(&self, alloc: Global) -> Result<Segment, Memory>
        ensures { IfOk result (IsOpened self.now.shape) }
    {
        let shape = self.shape().copy(alloc)?;
        Segment::open(alloc, shape)
    }

    /// Closes the current segment, and goes on in the next, which has no row.
    pub fn turn_to(&mut self, next: Segment)
        requires next { IsOpened self.old.shape next }
        requires room { length self.old.closed + 1 < self.old.most }
        ensures { HasTurnedOver self.old self.new }
    {
        let last = mem::replace(&mut self.current, next);
        self.closed.push_reserved(last);
    }

    // All entries, and room for as many seals as there are segments.
    fn read(&mut self, alloc: Global) -> Result<(Vec<Entry>, Vec<Seal>), Memory>
        ensures entries { IfOk result (λ read. read.0.items ≡ entries_of self.old) }
        ensures room { IfOk result (λ read. (read.1.items ≡ []) × (length self.old.closed + 1 ≤ vec_capacity read.1)) }
        ensures looked { HaveLooked self.old self.new }
    {
        let seals = Vec::with_capacity(alloc, self.closed.len() + 1)?;
        let entries = read_all(alloc, self.closed.as_mut_slice(), &mut self.current)?;
        Ok((entries, seals))
    }

    // Seals all segments. There is room for a seal of each.
    fn into_seals(self, mut seals: Vec<Seal>) -> Vec<Seal>
        requires none { seals.items ≡ [] }
        requires room { length self.closed + 1 ≤ vec_capacity seals }
        ensures { result.items ≡ map sealed (all_of self) }
    {
        let Segments {
            closed,
            current,
            ..
        } = self;
        push_seals(closed, &mut seals);
        seals.push_reserved(current.seal());
        seals
    }

    // The numbers and the writers of all entries, and room for as many seals as there are segments.
    fn read_columns<L: Ledger>(&mut self, alloc: Global, blank: Blank) -> Result<Sealing, Memory>
        requires blank { (blank.name ≡ L.name) × (blank.parts ≡ L.parts) × (0 < L.parts) }
        ensures nums { IfOk result (λ read. read.nums.items ≡ nums_of (entries_of self.old)) }
        ensures writers { IfOk result (λ read. read.writers.items ≡ order_of (entries_of self.old)) }
        ensures room { IfOk result (λ read. (read.seals.items ≡ []) × (length self.old.closed + 1 ≤ vec_capacity read.seals)) }
        ensures looked { HaveLooked self.old self.new }
    {
        let seals = Vec::with_capacity(alloc, self.closed.len() + 1)?;
        let closed = self.closed.as_mut_slice();
        let (nums, writers) = read_tags::<L>(alloc, closed, &mut self.current, blank)?;
        Ok(Sealing {
            nums,
            writers,
            seals,
        })
    }

    /// Reads the tag of each entry and no other word of it: the entries' numbers and writers, end to end, and a seal of each
    /// segment. After want of memory the segments come back, and only their roots' last looks are others.
    pub fn seal(mut self, alloc: Global) -> Result<Sealing, Segments>
        ensures { MatchResult result (λ sealing. (sealing.nums.items ≡ nums_of (entries_of self)) × (sealing.writers.items ≡ order_of (entries_of self))
            × (sealing.seals.items ≡ map sealed (all_of self))) (HaveLooked self) }
    {
        let Ok(read) = self.read_columns::<Brand>(alloc, Blank::new(1)) else {
            return Err(self);
        };
        let Sealing {
            nums,
            writers,
            seals,
        } = read;
        let seals = self.into_seals(seals);
        Ok(Sealing {
            nums,
            writers,
            seals,
        })
    }

    /// The entries of all segments, end to end, and a seal of each. After want of memory the segments come back, and only their
    /// roots' last looks are others.
    pub fn close(mut self, alloc: Global) -> Result<Closing, Segments>
        ensures { MatchResult result (λ closing. (closing.entries.items ≡ entries_of self) × (closing.seals.items ≡ map sealed (all_of self))) (HaveLooked self) }
    {
        let Ok((entries, seals)) = self.read(alloc) else {
            return Err(self);
        };
        let seals = self.into_seals(seals);
        Ok(Closing { entries, seals })
    }
}

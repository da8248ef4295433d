// The segments of a window.
ghost use Rattle.std.specs.Prelude.{◌≡◌, ◌+◌, ◌-◌, ◌<◌, ◌≤◌, ◌*◌, ◌^◌, All, List, [], ◌∷◌, ◌++◌, drop, not, true, false, length, vec_capacity, slice_index_or, IfOk, IfSome, MatchResult, OnErr, OnOk};
ghost use Rattle.cf_row.specs.Row.{Fits, RowValue};
ghost use Rattle.cf_shape.specs.Lanes.{ShapeValue};
ghost use Rattle.cf_shape.specs.Nodes.{nodes_for};
ghost use Rattle.cf_plain.specs.Asks.{Suits, SuitsTrigger, eval_rows, marks_over};
ghost use Rattle.cf_plain.specs.Segments.{finding_in};
ghost use Rattle.cf_window.specs.Held.{ComesThen, HasPushed, IsOfShape, IsOpenLast, IsWindow, count_of, replaced, rows_each, with_taken, without_oldest};
ghost use Rattle.cf_window.specs.Windows.{drops, goes_in, is_small, rows_in_all};

use crate::find::find_in;
use crate::spare::{Spare, next_segment, prepare_spare};
use crate::{WindowSegment, nodes_needed};
use cf_fold::Trigger;
use cf_plain::{Ask, Body, Finding, Marks};
use cf_row::{Memory, Row};
use cf_shape::Shape;
use std::alloc::Global;
use std::marker::Model;
use std::thread::Threads;

/// What a push did with a row.
#[derive(Clone, Copy, Debug, PartialEq, Eq)]
pub enum Pushed {
    /// Nothing has come: as many rows have come as are counted.
    Full,
    /// It has come.
    Gone,
    /// Nothing has come: the oldest segment has to be dropped for it first.
    NeedsDrop,
    /// Nothing has come: it needs more nodes than an empty segment has.
    NoNodes,
}

/// The last rows of a stream, in at most so many segments. Beside them it has at most one more, which is empty, for the row that needs a new
/// one.
#[derive(Drop)]
pub struct Window {
    shape: Shape,
    most: u32,
    // how many rows were dropped, and how many have come
    from: u64,
    count: u64,
    segments: Vec<WindowSegment>,
    // whether the last segment has refused a row
    is_spent: bool,
    // the next segment, no part of what contracts see
    spare: Option<Spare>,
}

impl Model for Window {
    ghost use Rattle.std.specs.Prelude.{◌≡◌, ◌+◌, ◌≤◌, false, length, vec_capacity, IfSome};
    ghost use Rattle.cf_window.specs.Held.{WindowValue, IsOpenLast, IsWindow, rows_each};
    ghost use Rattle.cf_window.specs.Windows.{rows_in_all};

    ghost Value = { WindowValue };

    ghost view = { λ w. record { shape = w.shape; most = w.most; from = w.from; segments = rows_each w.segments.items; is_spent = w.is_spent } };

    ghost invariant = { λ w. IsWindow w.shape w.most w.segments.items × (w.most ≤ vec_capacity w.segments) × (w.is_spent ≡ false → IsOpenLast w.segments.items)
        × (w.count ≡ w.from + length (rows_in_all (rows_each w.segments.items))) × IfSome w.spare (λ spare. spare ≡ w.shape) };
}

// The last segment takes the row, where there is one.
fn take_last(segments: &mut Vec<WindowSegment>, row: &Row) -> bool
    requires shapes { (shape : ShapeValue) × All (IsOfShape shape) segments.old.items × Fits shape.schema row.now }
    requires open { IsOpenLast segments.old.items }
    ensures taken { (shape : ShapeValue) → All (IsOfShape shape) segments.old.items → result ≡ goes_in shape (rows_each segments.old.items) row.now }
    ensures rows { rows_each segments.new.items ≡ with_taken (rows_each segments.old.items) row.now result }
    ensures shapes { (shape : ShapeValue) → All (IsOfShape shape) segments.old.items → All (IsOfShape shape) segments.new.items }
    ensures long { length segments.new.items ≡ length segments.old.items }
    ensures room { vec_capacity segments.new ≡ vec_capacity segments.old }
    ensures open { result ≡ true → IsOpenLast segments.new.items }
{
    let count = segments.len();
    if count == 0 {
        return false;
    }
    segments[count - 1].take(row)
}

impl Window {
    /// An empty window of at most so many segments of the shape.
    pub fn open(alloc: Global, shape: Shape, most: u32) -> Result<Window, Memory>
        requires one { shape.writers ≡ 1 }
        requires some { 0 < most }
        requires bounded { most * shape.capacity ≤ 2 ^ 20 }
        ensures { IfOk result (λ window. window ≡ record { shape = shape; most = most; from = 0; segments = []; is_spent = false }) }
    {
        Ok(Window {
            shape,
            most,
            from: 0,
            count: 0,
            segments: Vec::with_capacity(alloc, most as usize)?,
            is_spent: false,
            spare: None,
        })
    }

    /// The shape of each segment.
    pub fn shape(&self) -> &Shape
        ensures { result.now ≡ self.now.shape }
    {
        &self.shape
    }

    /// How many rows were dropped, which is the number of its first row.
    pub fn from(&self) -> u64
        ensures { result ≡ self.now.from }
    {
        self.from
    }

    /// How many rows have come, with those that were dropped.
    pub fn count(&self) -> u64
        ensures { result ≡ count_of self.now }
    {
        self.count
    }

    /// How many segments there are, each of which has rows: no more than there may be.
    pub fn segment_count(&self) -> usize
        ensures is { result ≡ length self.now.segments }
        ensures few { result ≤ self.now.most }
    {
        self.segments.len()
    }

    /// Begins to open the segment that comes next, in a thread of its own, unless that has begun. Nothing is begun if a segment's table is
    /// small, if memory runs out or if no thread can be made: then a segment is opened when a row needs it.
    pub fn prepare<R: Threads>(&mut self, rt: &R, alloc: Global)
        ensures { self.new ≡ self.old }
    {
        prepare_spare(rt, alloc, &self.shape, &mut self.spare);
    }

    /// Waits for the thread that opens the segment that comes next, if there is one, and lets that segment go.
    pub fn release<R: Threads>(&mut self, rt: &R)
        ensures { self.new ≡ self.old }
    {
        if let Some(spare) = self.spare.take() {
            let _segment = spare.join(rt);
        }
    }

    // The row comes in the last segment, where there is one that takes it.
    fn go_in(&mut self, row: &Row) -> bool
        requires room { count_of self.old < 2 ^ 64 - 1 }
        requires fits { Fits self.old.shape.schema row.now }
        requires spent { self.old.is_spent ≡ true → goes_in self.old.shape self.old.segments row.now ≡ false }
        ensures answer { result ≡ goes_in self.old.shape self.old.segments row.now }
        ensures rows { self.new ≡ record self.old { segments = with_taken self.old.segments row.now result; is_spent = not result } }
    {
        if self.is_spent {
            return false;
        }
        if take_last(&mut self.segments, row) {
            self.count += 1;
            true
        } else {
            self.is_spent = true;
            false
        }
    }

    // A new segment takes the row.
    fn open_for<R: Threads>(&mut self, rt: &R, alloc: Global, row: &Row) -> Result<(), Memory>
        requires fits { Fits self.old.shape.schema row.now }
        requires small { length (nodes_for self.old.shape row.now) ≤ self.old.shape.nodes }
        requires room { length self.old.segments < self.old.most }
        requires few { count_of self.old < 2 ^ 64 - 1 }
        ensures opened { OnOk result (self.new ≡ record self.old { segments = self.old.segments ++ (row.now ∷ []) ∷ []; is_spent = false }) }
        ensures stays { OnErr result (self.new ≡ self.old) }
    {
        let _lawful = self.shape.lanes();
        let spare = self.spare.take();
        let mut segment = next_segment(rt, alloc, &self.shape, spare)?;
        segment.take(row);
        self.segments.push_reserved(segment);
        self.is_spent = false;
        self.count += 1;
        Ok(())
    }

    /// The row comes, in the last segment or in a new one, unless as many have come as are counted, it needs too many nodes or the
    /// oldest segment has to be dropped for it first.
    pub fn push<R: Threads>(&mut self, rt: &R, alloc: Global, row: &Row) -> Result<Pushed, Memory>
        requires fits { Fits self.old.shape.schema row.now }
        requires spent { self.old.is_spent ≡ true → goes_in self.old.shape self.old.segments row.now ≡ false }
        ensures answer { MatchResult result (HasPushed self.old row.now self.new) (λ _. self.new ≡ record self.old { is_spent = true }) }
    {
        if self.count == u64::MAX {
            return Ok(Pushed::Full);
        }
        if self.go_in(row) {
            return Ok(Pushed::Gone);
        }
        if nodes_needed(&self.shape, row) > self.shape.nodes() {
            return Ok(Pushed::NoNodes);
        }
        if self.segments.len() == self.most as usize {
            return Ok(Pushed::NeedsDrop);
        }
        self.open_for(rt, alloc, row)?;
        Ok(Pushed::Gone)
    }

    // The oldest segment is dropped.
    fn drop_oldest(&mut self)
        requires some { 0 < length self.old.segments }
        ensures dropped { self.new ≡ record self.old { from = self.old.from + length (slice_index_or self.old.segments 0 []); segments = drop 1 self.old.segments } }
        ensures ready { (row : RowValue) → goes_in self.old.shape self.old.segments row ≡ false → goes_in self.new.shape self.new.segments row ≡ false }
        ensures comes { (row : RowValue) → drops self.old.shape self.old.most self.old.segments row ≡ true → ComesThen self.old row self.new }
    {
        let mut oldest = self.segments.remove(0);
        self.from += u64::from(oldest.count());
    }

    /// The oldest segment is dropped, and then the row comes, for which a push has told that it needs that. If memory runs out, the
    /// oldest segment is gone and the row has not come.
    pub fn replace_oldest<R: Threads>(
        &mut self,
        rt: &R,
        alloc: Global,
        row: &Row,
    ) -> Result<(), Memory>
        requires fits { Fits self.old.shape.schema row.now }
        requires room { count_of self.old < 2 ^ 64 - 1 }
        requires needed { drops self.old.shape self.old.most self.old.segments row.now ≡ true }
        requires small { is_small self.old.shape row.now ≡ true }
        ensures same { (self.new.shape ≡ self.old.shape) × (self.new.most ≡ self.old.most) }
        ensures replaced { OnOk result (self.new ≡ replaced self.old row.now) }
        ensures dropped { OnErr result (self.new ≡ without_oldest self.old) }
    {
        let _some = self.most;
        self.drop_oldest();
        self.push(rt, alloc, row)?;
        Ok(())
    }

    /// What the question finds in the rows of all segments.
    pub fn find(&mut self, alloc: Global, question: &Ask) -> Result<Finding, Memory>
        requires suits { Suits self.old.shape question.now }
        ensures stays { self.new ≡ self.old }
        ensures found { IfOk result (λ found. found ≡ finding_in self.old.shape question.now (rows_in_all self.old.segments)) }
    {
        find_in(alloc, &self.shape, self.segments.as_mut_slice(), question)
    }

    /// The question's answer on the rows of all segments. Its places are counted from the first of these rows.
    pub fn answer(&mut self, alloc: Global, question: &Ask) -> Result<Body, Memory>
        requires suits { Suits self.old.shape question.now }
        ensures stays { self.new ≡ self.old }
        ensures answered { IfOk result (λ body. body ≡ eval_rows self.old.shape question.now (rows_in_all self.old.segments)) }
    {
        let found = self.find(alloc, question)?;
        found.body(alloc, question)
    }

    /// The trigger's marks on the rows of all segments.
    pub fn marks(&mut self, alloc: Global, trigger: &Trigger) -> Result<Marks, Memory>
        requires suits { SuitsTrigger self.old.shape trigger.now }
        ensures stays { self.new ≡ self.old }
        ensures fired { IfOk result (λ marks. marks ≡ marks_over self.old.shape trigger.now (rows_in_all self.old.segments)) }
    {
        match self.answer(alloc, &Ask::Fired(*trigger))? {
            Body::Marks(marks) => Ok(marks),
            _ => Ok(Marks::new(Vec::new(alloc))),
        }
    }
}

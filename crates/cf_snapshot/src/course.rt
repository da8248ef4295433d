// A host with the rows that it covers.
ghost use Rattle.std.specs.Prelude.{
  ◌≡◌,
  ◌+◌,
  ◌-◌,
  ◌<◌,
  ◌≤◌,
  All,
  false,
  fold,
  true,
  length,
  map,
  min,
  replicate,
  take,
  IfErr,
  IfOk,
  OnOk,
};
ghost use Rattle.cf_plain.specs.Answered.{answer_on};
ghost use Rattle.cf_plain.specs.Asks.{Suits};
ghost use Rattle.cf_row.specs.Row.{Fits};
ghost use Rattle.cf_shape.specs.Nodes.{distinct};
ghost use Rattle.cf_snapshot.specs.Courses.{IsCourse, StandsIn, NeedsMore, idle_course, answers_on};
ghost use Rattle.cf_snapshot.specs.Hosts.{StandsFor};
ghost use Rattle.cf_snapshot.specs.Snapshots.{IsSnapshot, is_lawful, is_under_way, after};
ghost use Rattle.cf_snapshot.specs.declared.event.SnapEvent.TheVariants.{Cover, Freeze, Thaw};
ghost use Rattle.cf_snapshot.specs.declared.course.Untaken.TheVariants as untaken;

use crate::{Host, Snap, SnapEvent, snap_step};
use cf_append::AppendFault;
use cf_plain::{Answer, Ask};
use cf_row::{Memory, Row};
use cf_shape::Shape;
use std::alloc::{AllocError, AllocFailed, Global};
use std::marker::Model;

/// Why there is no snapshot.
#[derive(Clone, Copy, Debug, PartialEq, Eq)]
pub enum Untaken {
    /// The paths of some host's rows need more nodes than it has.
    Nodes,
    /// Memory ran out.
    Memory,
}

impl From<AllocError> for Untaken {
    ghost from_gives = { λ _ why. why ≡ untaken.Memory };

    fn from(_error: AllocError) -> Untaken {
        Untaken::Memory
    }
}

impl<T: Drop> From<AllocFailed<T>> for Untaken {
    ghost from_gives = { λ _ why. why ≡ untaken.Memory };

    fn from(_failed: AllocFailed<T>) -> Untaken {
        Untaken::Memory
    }
}

/// A host and the rows that it covers, one after another.
#[derive(Drop)]
pub struct Course {
    host: Host,
    rows: Vec<Row>,
}

impl Model for Course {
    ghost use Rattle.cf_snapshot.specs.Courses.{CourseValue, IsCourse, course_of};

    ghost Value = { CourseValue };

    ghost view = { λ c. course_of c.rows.items c.host };

    ghost invariant = { λ c. IsCourse c.rows.items c.host };
}

/// Makes the snapshot take the event, which is lawful.
pub(crate) fn step(snap: &mut Snap, event: SnapEvent)
    requires { is_lawful snap.old event ≡ true }
    ensures { snap.new ≡ after snap.old event }
{
    let is_taken = snap_step(snap, event);
    prove!(is_taken);
}

// Covers the host's next rows, up to the place `end`, each by an event.
fn cover_rows(
    snap: &mut Snap,
    host: &mut Host,
    number: u8,
    rows: &[Row],
    end: usize,
) -> Result<(), Untaken>
    requires course { IsCourse rows.now host.old }
    requires free { host.old.is_frozen ≡ false }
    requires sized { IsSnapshot snap.old }
    requires stands { StandsFor snap.old number host.old }
    requires end { (length host.old.entries ≤ end) × (end ≤ length rows.now) }
    ensures course { IsCourse rows.now host.new }
    ensures host { (host.new.shape ≡ host.old.shape) × (host.new.is_frozen ≡ false) }
    ensures covered { OnOk result (length host.new.entries ≡ end) }
    ensures events { OnOk result (snap.new ≡ fold after snap.old (replicate (end - length host.old.entries) (Cover number))) }
    ensures nodes { IfErr result (λ why. why ≡ untaken.Nodes → host.old.shape.nodes < distinct host.old.shape rows.now) }
{
    for place in host.covered() as usize..end {
        match host.cover(&rows[place]) {
            Ok(_) => step(snap, SnapEvent::Cover(number)),
            Err(AppendFault::NodesFull) => return Err(Untaken::Nodes),
            // There is a place for each row.
            Err(AppendFault::Full) => unreachable!(),
        }
    }
    Ok(())
}

// The answers of the frozen host to the questions, in their order.
fn ask_frozen(alloc: Global, host: &mut Host, asks: &[Ask]) -> Result<Vec<Answer>, Memory>
    requires frozen { host.old.is_frozen ≡ true }
    requires suits { All (Suits host.old.shape) asks.now }
    ensures host { host.new ≡ host.old }
    ensures answers { IfOk result (λ answers. answers.items ≡ map (answer_on host.old.shape host.old.entries) asks.now) }
{
    let mut answers = Vec::with_capacity(alloc, asks.len())?;
    for question in asks {
        answers.push(host.ask(alloc, question)?)?;
    }
    Ok(answers)
}

impl Course {
    /// A host whose log has the shape, and which has covered none of the rows.
    pub fn open(alloc: Global, shape: Shape, rows: Vec<Row>) -> Result<Course, Memory>
        requires one { shape.writers ≡ 1 }
        requires fit { All (Fits shape.schema) rows.items }
        requires few { length rows.items ≤ shape.capacity }
        ensures { IfOk result (λ course. course ≡ idle_course shape rows.items) }
    {
        let host = Host::open(alloc, shape)?;
        Ok(Course { host, rows })
    }

    /// All its rows.
    pub fn rows(&self) -> &[Row]
        ensures { result.now ≡ self.now.task.rows }
    {
        &self.rows
    }

    // Takes a turn: covers the next `turn` rows, or what is left.
    pub(crate) fn take_turn(
        &mut self,
        snap: &mut Snap,
        number: u8,
        turn: u32,
    ) -> Result<(), Untaken>
        requires free { self.old.is_frozen ≡ false }
        requires stands { StandsIn snap.old number self.old }
        ensures course { OnOk result (self.new ≡ record self.old { covered = min (length self.old.task.rows) (self.old.covered + turn) }) }
        ensures events { OnOk result (snap.new ≡ fold after snap.old (replicate (min (length self.old.task.rows) (self.old.covered + turn) - self.old.covered) (Cover number))) }
        ensures nodes { IfErr result (λ why. why ≡ untaken.Nodes → NeedsMore self.old.task) }
    {
        let end = self
            .rows
            .len()
            .min(self.host.covered() as usize + turn as usize);
        cover_rows(snap, &mut self.host, number, &self.rows, end)
    }

    // Covers all rows that are left.
    pub(crate) fn cover_rest(&mut self, snap: &mut Snap, number: u8) -> Result<(), Untaken>
        requires free { self.old.is_frozen ≡ false }
        requires stands { StandsIn snap.old number self.old }
        ensures course { OnOk result (self.new ≡ record self.old { covered = length self.old.task.rows }) }
        ensures events { OnOk result (snap.new ≡ fold after snap.old (replicate (length self.old.task.rows - self.old.covered) (Cover number))) }
        ensures enough { OnOk result (distinct self.old.task.shape self.old.task.rows ≤ self.old.task.shape.nodes) }
        ensures nodes { IfErr result (λ why. why ≡ untaken.Nodes → NeedsMore self.old.task) }
    {
        cover_rows(snap, &mut self.host, number, &self.rows, self.rows.len())
    }

    // Freezes the host.
    pub(crate) fn freeze(&mut self, snap: &mut Snap, number: u8)
        requires free { self.old.is_frozen ≡ false }
        requires stands { StandsIn snap.old number self.old }
        requires time { is_under_way snap.old ≡ true }
        ensures course { self.new ≡ record self.old { is_frozen = true } }
        ensures event { snap.new ≡ after snap.old (Freeze number) }
    {
        self.host.freeze();
        step(snap, SnapEvent::Freeze(number));
    }

    // Lets the host go on.
    pub(crate) fn thaw(&mut self, snap: &mut Snap, number: u8)
        requires frozen { self.old.is_frozen ≡ true }
        requires stands { StandsIn snap.old number self.old }
        requires time { snap.old.is_released ≡ true }
        ensures course { self.new ≡ record self.old { is_frozen = false } }
        ensures event { snap.new ≡ after snap.old (Thaw number) }
    {
        self.host.thaw();
        step(snap, SnapEvent::Thaw(number));
    }

    // The answers of the frozen host to the questions, in their order.
    pub(crate) fn ask_each(&mut self, alloc: Global, asks: &[Ask]) -> Result<Vec<Answer>, Memory>
        requires frozen { self.old.is_frozen ≡ true }
        requires suits { All (Suits self.old.task.shape) asks.now }
        ensures course { self.new ≡ self.old }
        ensures answers { IfOk result (λ answers. answers.items ≡ answers_on self.old.task.shape (take self.old.covered self.old.task.rows) asks.now) }
    {
        ask_frozen(alloc, &mut self.host, asks)
    }
}

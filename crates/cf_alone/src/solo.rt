// A log with its one writer's pass.
ghost use Rattle.std.specs.Prelude.{◌≡◌, ◌<◌, ◌≤◌, length, IfOk};
ghost use Rattle.cf_row.specs.Row.{Fits};
ghost use Rattle.cf_shape.specs.Lanes.{IsShape};
ghost use Rattle.cf_plain.specs.Asks.{Suits};
ghost use Rattle.cf_alone.specs.Solos.{HasCome, IsAnswerOn, IsFoundIn, IsSolo, IsStill, MayAsk, empty_solo, solo_of};

use cf_append::{AppendFault, Leaves, append_near, settle};
use cf_plain::{Answer, Ask, Finding};
use cf_query::{ask, finding};
use cf_row::{Memory, Row};
use cf_shape::Shape;
use cf_table::{MultiLog, Pass, Root, Steps, WriterPass};
use std::alloc::Global;
use std::marker::{Brand, Model};
use std::sync::ledger::{Blank, Ledger};

/// A log of one writer, which covers each row as it is appended.
#[derive(Drop)]
pub struct Solo {
    log: MultiLog,
    // its one book is dealt to the pass
    _root: Root,
    pass: WriterPass,
    // where the last row's paths end, so that the next row's begin there if they can
    leaves: Leaves,
}

impl Model for Solo {
    ghost use Rattle.cf_alone.specs.Solos.{SoloValue, IsSolo, solo_of};

    ghost Value = { SoloValue };

    ghost view = { λ s. solo_of s.log s.pass };

    ghost invariant = { λ s. IsSolo s.log s.pass s.leaves };
}

// Appends the row and moves the read tail on.
fn append_counted<L: Ledger>(
    log: &MultiLog,
    pass: &mut WriterPass,
    leaves: &mut Leaves,
    row: &Row,
    blank: Blank,
) -> Result<u32, AppendFault>
    requires solo { IsSolo log.now pass.old leaves.old }
    requires fits { Fits log.now.shape.schema row.now }
    requires blank { (blank.name ≡ L.name) × (blank.parts ≡ L.parts) × (0 < L.parts) }
    ensures solo { IsSolo log.now pass.new leaves.new }
    ensures come { HasCome row.now (solo_of log.now pass.old) (solo_of log.now pass.new) result }
{
    let mut steps = Steps::<L>::new(blank);
    let answer = append_near(log, pass, row, leaves, &mut steps);
    let _lawful = log.shape();
    let offset = answer.unwrap_or(0);
    settle(log, pass, offset, &mut steps);
    answer
}

// Asks by the writer's pass.
fn ask_counted<L: Ledger>(
    log: &MultiLog,
    alloc: Global,
    pass: &mut WriterPass,
    question: &Ask,
    blank: Blank,
) -> Result<Answer, Memory>
    requires may { MayAsk log.now pass.old question.now }
    requires blank { (blank.name ≡ L.name) × (blank.parts ≡ L.parts) × (0 < L.parts) }
    ensures still { IsStill log.now pass.old pass.new }
    ensures ok { IfOk result (IsAnswerOn (solo_of log.now pass.old) question.now) }
{
    let mut steps = Steps::<L>::new(blank);
    ask(log, alloc, pass, question, &mut steps)
}

// Finds by the writer's pass.
fn find_counted<L: Ledger>(
    log: &MultiLog,
    alloc: Global,
    pass: &mut WriterPass,
    question: &Ask,
    blank: Blank,
) -> Result<(u32, Finding), Memory>
    requires may { MayAsk log.now pass.old question.now }
    requires blank { (blank.name ≡ L.name) × (blank.parts ≡ L.parts) × (0 < L.parts) }
    ensures still { IsStill log.now pass.old pass.new }
    ensures ok { IfOk result (IsFoundIn (solo_of log.now pass.old) question.now) }
{
    let mut steps = Steps::<L>::new(blank);
    finding(log, alloc, pass, question, &mut steps)
}

impl Solo {
    /// An empty log of the shape, which has one writer.
    pub fn open(alloc: Global, shape: Shape) -> Result<Solo, Memory>
        requires one { shape.writers ≡ 1 }
        ensures { IfOk result (λ solo. solo ≡ empty_solo shape) }
    {
        let (log, mut root) = MultiLog::open(alloc, shape)?;
        let mut passes = log.deal(alloc, &mut root)?;
        let pass = passes.swap_remove(0);
        Ok(Solo {
            log,
            _root: root,
            pass,
            leaves: Leaves::new(),
        })
    }

    /// The shape of the log.
    pub fn shape(&self) -> &Shape
        ensures shape { result.now ≡ self.now.shape }
        ensures lawful { IsShape self.now.shape }
    {
        self.log.shape()
    }

    /// Appends the row, covers it as the next record, and answers its place. `Full` comes where all places are covered, and
    /// `NodesFull` where a path of the row wants a node and all are used; nothing is covered then. In a lane where its key has the
    /// front of the last one, the row costs no walk from the root.
    pub fn append(&mut self, row: &Row) -> Result<u32, AppendFault>
        requires fits { Fits self.old.shape.schema row.now }
        ensures come { HasCome row.now self.old self.new result }
    {
        let blank = Blank::new(1);
        append_counted::<Brand>(&self.log, &mut self.pass, &mut self.leaves, row, blank)
    }

    /// How many records are covered.
    pub fn count(&self) -> u32
        ensures { result ≡ length self.now.entries }
    {
        self.pass.covered()
    }

    /// The question's meaning on the covered records, and how many they are.
    pub fn ask(&mut self, alloc: Global, question: &Ask) -> Result<Answer, Memory>
        requires suits { Suits self.old.shape question.now }
        ensures stays { self.new ≡ self.old }
        ensures ok { IfOk result (IsAnswerOn self.old question.now) }
    {
        ask_counted::<Brand>(&self.log, alloc, &mut self.pass, question, Blank::new(1))
    }

    /// What the question finds in the rows of the covered records, and how many they are.
    pub fn find(&mut self, alloc: Global, question: &Ask) -> Result<(u32, Finding), Memory>
        requires suits { Suits self.old.shape question.now }
        ensures stays { self.new ≡ self.old }
        ensures few { length self.old.entries ≤ self.old.shape.capacity }
        ensures found { IfOk result (IsFoundIn self.old question.now) }
    {
        find_counted::<Brand>(&self.log, alloc, &mut self.pass, question, Blank::new(1))
    }
}

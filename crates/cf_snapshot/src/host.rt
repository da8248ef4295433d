// A host, whose log is appended to by one writer.
ghost use Rattle.std.specs.Prelude.{◌≡◌, length, true, false, Err, IfOk};
ghost use Rattle.cf_row.specs.Row.{Fits};
ghost use Rattle.cf_append.specs.declared.appends.AppendFault.TheVariants.{NodesFull};
ghost use Rattle.cf_plain.specs.Asks.{Suits, eval};
ghost use Rattle.cf_alone.specs.Alone.{HasCovered, HasUsedFor};
ghost use Rattle.cf_alone.specs.Solos.{LacksNodes};
ghost use Rattle.cf_snapshot.specs.Hosts.{HasEnough, IsEvent, empty_host};
ghost use Rattle.cf_snapshot.specs.Snapshots.{is_under_way};
ghost use Rattle.cf_snapshot.specs.declared.event.SnapEvent.TheVariants.{Cover, Freeze, Thaw};

use cf_alone::Solo;
use cf_append::AppendFault;
use cf_plain::{Answer, Ask};
use cf_row::{Memory, Row};
use cf_shape::Shape;
use std::alloc::Global;
use std::marker::Model;

/// A host of a snapshot: a log with one writer, whose records are covered one by one while it isn't frozen.
#[derive(Drop)]
pub struct Host {
    solo: Solo,
    is_frozen: bool,
}

impl Model for Host {
    ghost use Rattle.cf_snapshot.specs.Hosts.{HostValue, host_of};

    ghost Value = { HostValue };

    ghost view = { λ h. host_of h.solo h.is_frozen };
}

impl Host {
    /// An empty log of the shape, which has one writer, not frozen.
    pub fn open(alloc: Global, shape: Shape) -> Result<Host, Memory>
        requires one { shape.writers ≡ 1 }
        ensures { IfOk result (λ host. host ≡ empty_host shape) }
    {
        Ok(Host {
            solo: Solo::open(alloc, shape)?,
            is_frozen: false,
        })
    }

    /// The shape of its log.
    pub fn shape(&self) -> &Shape
        ensures { result.now ≡ self.now.shape }
    {
        self.solo.shape()
    }

    /// Covers the row as the host's next record, and answers the record's place. `Full` comes where all places are covered, and
    /// `NodesFull` where a path of the row wants a node and all are used; nothing is covered then.
    pub fn cover(&mut self, row: &Row) -> Result<u32, AppendFault>
        requires free { self.old.is_frozen ≡ false }
        requires fits { Fits self.old.shape.schema row.now }
        ensures stays { (self.new.shape ≡ self.old.shape) × (self.new.is_frozen ≡ false) }
        ensures answer { HasCovered self.old.shape row.now self.old.entries self.new.entries result }
        ensures nodes { HasUsedFor self.old.shape row.now self.old.used self.new.used result }
        ensures enough { IfOk result (λ _. HasEnough self.new) }
        ensures lacks { result ≡ Err NodesFull → LacksNodes self.old.shape row.now self.old.used }
        ensures event { IfOk result (λ _. IsEvent Cover (λ _. true) self.old self.new) }
    {
        let _lawful = self.solo.shape();
        self.solo.append(row)
    }

    /// How many records are covered.
    pub fn covered(&self) -> u32
        ensures { result ≡ length self.now.entries }
    {
        self.solo.count()
    }

    /// Freezes the host's tail, and answers how many records are covered.
    pub fn freeze(&mut self) -> u32
        requires free { self.old.is_frozen ≡ false }
        ensures host { self.new ≡ record self.old { is_frozen = true } }
        ensures tail { result ≡ length self.old.entries }
        ensures event { IsEvent Freeze is_under_way self.old self.new }
    {
        let tail = self.covered();
        self.is_frozen = true;
        tail
    }

    /// Lets the host go on.
    pub fn thaw(&mut self)
        requires frozen { self.old.is_frozen ≡ true }
        ensures host { self.new ≡ record self.old { is_frozen = false } }
        ensures event { IsEvent Thaw (λ s. s.is_released) self.old self.new }
    {
        self.is_frozen = false;
    }

    /// Whether the host is frozen.
    pub fn frozen(&self) -> bool
        ensures { result ≡ self.now.is_frozen }
    {
        self.is_frozen
    }

    /// The question's meaning on the covered records, and how many they are.
    pub fn ask(&mut self, alloc: Global, question: &Ask) -> Result<Answer, Memory>
        requires suits { Suits self.old.shape question.now }
        ensures host { self.new ≡ self.old }
        ensures ok { IfOk result (λ answer. (answer.tail ≡ length self.old.entries) × (answer.body ≡ eval self.old.shape question.now self.old.entries)) }
    {
        self.solo.ask(alloc, question)
    }
}

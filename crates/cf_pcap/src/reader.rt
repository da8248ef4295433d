// The reader of a capture, which comes in pieces.
ghost use Rattle.std.specs.Prelude.{◌≡◌, ◌≢◌, ℕ, List, [], ◌++◌, ◌≤◌, length, IfOk, MatchResult, Err};
ghost use Rattle.cf_pcap.specs.Capture.{FrameValue};
ghost use Rattle.cf_pcap.specs.declared.links.LinkSet.TheVariants.{Basic};
ghost use Rattle.cf_pcap.specs.Links.{limited};
ghost use Rattle.cf_pcap.specs.Reading.{front_of};
ghost use Rattle.cf_pcap.specs.Stream.{IsStateOf, IsFed, IsEnded, AnswersFound, AreGiven};
ghost use Rattle.cf_pcap.specs.Stages.{found_at};
ghost use Rattle.cf_pcap.specs.Truncated.{Says, Breaks};

use crate::form::FileHeader;
use crate::taking::{Place, late_of, take_piece};
use crate::{Frame, LIMIT, Length, LinkSet, PcapFault, Scope, Stage};
use std::alloc::{AllocError, Global};
use std::marker::Model;

/// A reader of one capture. It keeps no more of the stream than the begin of a record. Contracts speak of every stream
/// whose state it has.
#[derive(Drop)]
pub struct Pcap {
    alloc: Global,
    scope: Scope,
    stage: Stage<PcapFault>,
    // How many bytes were taken, while the reader runs and they are limited.
    total: usize,
    // What the file header states, once that was read.
    header: Option<FileHeader>,
    // How many frames came.
    count: u64,
    held: Vec<u8>,
}

impl Model for Pcap {
    ghost use Rattle.cf_pcap.specs.Links.{limited};
    ghost use Rattle.cf_pcap.specs.Reading.{front_of};
    ghost use Rattle.cf_pcap.specs.Limits.{IsShort};
    ghost use Rattle.cf_pcap.specs.Stream.{PcapValue, IsSound};

    ghost Value = { PcapValue };

    ghost view = { λ p. record { scope = p.scope; stage = p.stage; total = p.total; state = record { header = p.header; count = p.count }; held = p.held.items } };

    ghost invariant = { λ p. IsSound (record { scope = p.scope; stage = p.stage; total = p.total; state = record { header = p.header; count = p.count }; held = p.held.items }) };
}

// The bytes of a piece that are taken, where so many came before: those up to the one that makes a limited stream 2^32 bytes long.
fn front(length: Length, total: usize, piece: &[u8]) -> &[u8]
    ensures { result.now ≡ front_of length total piece.now }
{
    length.cut(piece, LIMIT.saturating_sub(total)).0
}

impl Pcap {
    /// A reader of captures of Ethernet and Linux SLL, below 2^32 bytes, that was fed nothing yet.
    pub fn new(alloc: Global) -> Result<Self, AllocError>
        ensures scope { IfOk result (λ pcap. pcap.scope ≡ limited Basic) }
        ensures state { IfOk result (λ pcap. IsStateOf pcap []) }
    {
        Pcap::for_scope(alloc, Scope::limited(LinkSet::Basic))
    }

    /// A reader of the captures of this scope that was fed nothing yet.
    pub fn for_scope(alloc: Global, scope: Scope) -> Result<Self, AllocError>
        ensures scope { IfOk result (λ pcap. pcap.scope ≡ scope) }
        ensures state { IfOk result (λ pcap. IsStateOf pcap []) }
    {
        Ok(Pcap {
            alloc,
            scope,
            stage: Stage::Running,
            total: 0,
            header: None,
            count: 0,
            held: Vec::new(alloc),
        })
    }

    /// Takes the next piece of the stream, and adds to `out` the frames whose last byte lies in it and before any fault.
    /// A fault is found by its place: the magic after 4 bytes, the version after 8, the link after 24, a captured length
    /// after its record's 16, `TooManyBytes` at the byte that makes a limited stream 2^32 bytes. After a fault every call
    /// answers it. After `Memory` nothing of the piece is taken, and it may be fed again.
    pub fn feed(&mut self, piece: &[u8], out: &mut Vec<Frame>) -> Result<(), PcapFault>
        ensures fed { result ≢ Err PcapFault.Memory → (given : List FrameValue) × (out.new.items ≡ out.old.items ++ given)
            × ((stream : List ℕ) → IsStateOf self.old stream → IsFed stream piece.now given result self.new) }
        ensures scope { self.new.scope ≡ self.old.scope }
        ensures stopped { AnswersFound self.old result }
        ensures memory { result ≡ Err PcapFault.Memory → (self.new ≡ self.old) × (out.new.items ≡ out.old.items) }
    {
        if let Stage::Stopped(fault) = self.stage {
            return Err(fault);
        }
        let length = self.scope.length;
        let taken = front(length, self.total, piece);
        let total = length.total_after(self.total, taken.len());
        let late = late_of(length, total);
        let place = Place {
            scope: self.scope,
            header: self.header,
            count: self.count,
        };
        let given = take_piece(self.alloc, place, late, &mut self.held, taken, out)?;
        self.stage = given.stage;
        self.total = total;
        self.header = given.header;
        self.count = given.count;
        self.stage.answer()
    }

    /// How many bytes of the stream are held: those of a file header or a record that has only begun.
    pub fn held(&self) -> usize
        ensures value { result ≡ length self.now.held }
        ensures few { result ≤ 262159 }
    {
        self.held.len()
    }

    /// The fault that was found, if one was. The stream has it, whatever follows.
    pub fn fault(&self) -> Option<PcapFault>
        ensures { result ≡ found_at self.now.stage }
    {
        self.stage.fault()
    }

    /// The number of frames of the stream that was fed, and 2^53 - 1 if there are more, or its fault. It takes no memory.
    pub fn finish(self) -> Result<u64, PcapFault>
        ensures ended { (stream : List ℕ) → IsStateOf self stream → IsEnded self.scope stream result }
        ensures no_memory { result ≢ Err PcapFault.Memory }
    {
        match self.stage {
            Stage::Stopped(fault) => Err(fault),
            Stage::Running if self.header.is_some() && self.held.is_empty() => Ok(self.count),
            Stage::Running => Err(PcapFault::Cut(self.count)),
        }
    }

    /// What the end of the stream says: nothing where it ends well, or its fault. Where it may be truncated, a stream that ends within a
    /// record is one of the records before it: how many they are then. One that ends within its file header has its fault.
    pub fn finish_as(self, truncated: bool) -> Result<Option<u64>, PcapFault>
        ensures ended { (stream : List ℕ) (frames : List FrameValue) → IsStateOf self stream → AreGiven self.scope stream frames
            → MatchResult result (Says truncated self.scope stream frames) (Breaks truncated self.scope stream) }
        ensures no_memory { result ≢ Err PcapFault.Memory }
    {
        let has_begun = self.header.is_some();
        let Err(fault) = self.finish() else {
            return Ok(None);
        };
        match fault {
            PcapFault::Cut(count) if truncated && has_begun => Ok(Some(count)),
            _ => Err(fault),
        }
    }
}

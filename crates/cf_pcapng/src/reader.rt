// The reader of a capture, which comes in pieces.
ghost use Rattle.std.specs.Prelude.{◌≡◌, ◌≢◌, ℕ, List, [], ◌++◌, ◌≤◌, ◌+◌, length, IfOk, OnErr, MatchResult, is_ok, if◌then◌else◌, Err};
ghost use Rattle.cf_pcap.specs.Capture.{FrameValue};
ghost use Rattle.cf_pcap.specs.declared.limit.Length.TheVariants.{Any};
ghost use Rattle.cf_pcap.specs.declared.links.LinkSet.TheVariants.{Basic};
ghost use Rattle.cf_pcap.specs.Links.{limited};
ghost use Rattle.cf_pcap.specs.Limits.{HasRoom};
ghost use Rattle.cf_pcap.specs.Streams.{AreGiven};
ghost use Rattle.cf_pcap.specs.declared.stage.Stage.TheVariants.{Running};
ghost use Rattle.cf_pcapng.specs.File.{pcapng};
ghost use Rattle.cf_pcapng.specs.Position.{listed, state_of};
ghost use Rattle.cf_pcapng.specs.Reading.{KeepsLastField, AreFew, MayGoOn, early_bytes, late_bytes};
ghost use Rattle.cf_pcapng.specs.Reader.{IsStateOf, IsFed, IsEnded, AnswersFound, IsStageAtLimit, IsStageAfter, IsCalled, IsKept, reader_after};
ghost use Rattle.cf_pcap.specs.Stages.{found_at, kept_at};
ghost use Rattle.cf_pcapng.specs.Truncated.{Says, Breaks};

use crate::fault::NgFault;
use crate::interfaces::Interface;
use crate::passed::{Passed, StreamRead, read_piece, stays_within};
use crate::position::{Position, Reached};
use cf_pcap::{Frame, LIMIT, Length, LinkSet, Order, Scope, Stage};
use std::alloc::{AllocError, Global};
use std::marker::Model;

/// The most bytes of a limited capture.
const LAST: usize = LIMIT - 1;

/// A reader of one capture. It keeps no more of the stream than the begin of a block that is read, and the interfaces of
/// the section. Contracts speak of every stream whose state it has.
#[derive(Drop)]
pub struct PcapNg {
    alloc: Global,
    scope: Scope,
    stage: Stage<NgFault>,
    // How many bytes were taken, while the reader runs and they are limited.
    total: usize,
    // The byte order of the section, if one has begun.
    order: Option<Order>,
    // The interfaces of the section.
    interfaces: Vec<Interface>,
    // How many frames came.
    count: u64,
    // The block at hand, where it is only passed over.
    passed: Option<Passed>,
    held: Vec<u8>,
}

impl Model for PcapNg {
    ghost use Rattle.cf_pcapng.specs.Reader.{PcapNgValue, IsSound};

    ghost Value = { PcapNgValue };

    ghost view = { λ p. record {
      scope = p.scope;
      stage = p.stage;
      total = p.total;
      passed = p.passed;
      held = p.held.items;
      state = record { order = p.order; interfaces = p.interfaces.items; count = p.count };
    } };

    ghost invariant = { λ p. IsSound (record {
      scope = p.scope;
      stage = p.stage;
      total = p.total;
      passed = p.passed;
      held = p.held.items;
      state = record { order = p.order; interfaces = p.interfaces.items; count = p.count };
    }) };
}

/// What a call that takes a piece comes to: the frames that it gives, and the reader after it.
#[derive(Drop)]
struct Called {
    stage: Stage<NgFault>,
    total: usize,
    reached: Reached,
    passed: Option<Passed>,
    held: Vec<u8>,
    frames: Vec<Frame>,
}

// The stage where a byte comes that makes the stream 2^32 bytes long.
fn stage_at_limit(
    alloc: Global,
    scope: Scope,
    given: &StreamRead<'_>,
    byte: &[u8],
) -> Result<Stage<NgFault>, AllocError>
    requires one { length byte.now ≡ 1 }
    requires block { KeepsLastField given.now.passed }
    requires room { HasRoom scope.length (given.now.position.count + length given.now.held.items + 1) }
    requires few { AreFew scope.length (state_of given.now.position).interfaces }
    ensures { IfOk result (IsStageAtLimit scope (state_of given.now.position) given.now.passed given.now.held.items byte.now) }
{
    let position = given.position.copy(alloc)?;
    let last = read_piece(alloc, scope, position, given.passed, &given.held, byte)?;
    match last.flaw {
        Some(flaw) => Ok(Stage::Stopped(flaw.after(last.position.count()))),
        None => Ok(Stage::Stopped(NgFault::TooManyBytes)),
    }
}

// The stage after the bytes that came early enough, where these come late.
fn stage_after(
    alloc: Global,
    scope: Scope,
    given: &StreamRead<'_>,
    late: &[u8],
) -> Result<Stage<NgFault>, AllocError>
    requires { MayGoOn scope.length (state_of given.now.position) given.now.passed given.now.held.items given.now.flaw }
    ensures { IfOk result (IsStageAfter scope (state_of given.now.position) given.now.passed given.now.held.items given.now.flaw late.now) }
{
    if let Some(flaw) = given.flaw {
        return Ok(Stage::Stopped(flaw.after(given.position.count())));
    }
    if late.is_empty() {
        return Ok(Stage::Running);
    }
    stage_at_limit(alloc, scope, given, late.split_at(1).0)
}

// Splits a piece, after so many bytes: those that come early enough for a frame, and the others.
fn split_late(limit: Length, total: usize, piece: &[u8]) -> (&[u8], &[u8])
    ensures early { result.0.now ≡ early_bytes limit total piece.now }
    ensures late { result.1.now ≡ late_bytes limit total piece.now }
{
    limit.cut(piece, LAST.saturating_sub(total))
}

// The held bytes, of which a reader that has stopped keeps none.
fn keep_if_running(alloc: Global, stage: Stage<NgFault>, held: Vec<u8>) -> Vec<u8>
    ensures { result.items ≡ kept_at stage held.items }
{
    match stage {
        Stage::Stopped(_) => Vec::new(alloc),
        Stage::Running => held,
    }
}

// Takes over what a piece brought: its interfaces and its frames, or none of them if memory runs out.
fn take_over(
    interfaces: &mut Vec<Interface>,
    anew: bool,
    mut came: Vec<Interface>,
    out: &mut Vec<Frame>,
    mut frames: Vec<Frame>,
) -> Result<(), AllocError>
    ensures interfaces { interfaces.new.items ≡ (if is_ok result then listed interfaces.old.items anew came.items else interfaces.old.items) }
    ensures frames { out.new.items ≡ (if is_ok result then out.old.items ++ frames.items else out.old.items) }
{
    if anew {
        out.append(&mut frames)?;
        *interfaces = came;
        return Ok(());
    }
    interfaces.reserve(came.len())?;
    out.append(&mut frames)?;
    interfaces.append(&mut came)
}

impl PcapNg {
    /// A reader of captures of Ethernet and Linux SLL, below 2^32 bytes, that was fed nothing yet.
    pub fn new(alloc: Global) -> Result<Self, AllocError>
        ensures scope { IfOk result (λ pcapng. pcapng.scope ≡ limited Basic) }
        ensures state { IfOk result (λ pcapng. IsStateOf pcapng []) }
    {
        PcapNg::for_scope(alloc, Scope::limited(LinkSet::Basic))
    }

    /// A reader of the captures of this scope that was fed nothing yet.
    pub fn for_scope(alloc: Global, scope: Scope) -> Result<Self, AllocError>
        ensures scope { IfOk result (λ pcapng. pcapng.scope ≡ scope) }
        ensures state { IfOk result (λ pcapng. IsStateOf pcapng []) }
    {
        Ok(PcapNg {
            alloc,
            scope,
            stage: Stage::Running,
            total: 0,
            order: None,
            interfaces: Vec::new(alloc),
            count: 0,
            passed: None,
            held: Vec::new(alloc),
        })
    }

    /// Takes the next piece of the stream, and adds to `out` the frames whose last byte lies in it and before any fault.
    /// A fault is found by its place: the type of the first block after 4 bytes, a total length after 8 bytes of its block,
    /// a byte-order magic and a section header's total length after 12, and others at the end of their block;
    /// `TooManyBytes` at the byte that makes a limited stream 2^32 bytes. After a fault every call answers it. After `Memory`
    /// nothing of the piece is taken, and it may be fed again.
    pub fn feed(&mut self, piece: &[u8], out: &mut Vec<Frame>) -> Result<(), NgFault>
        ensures fed { result ≢ Err NgFault.Memory → (given : List FrameValue) × (out.new.items ≡ out.old.items ++ given)
            × ((stream : List ℕ) → IsStateOf self.old stream → IsFed stream piece.now given result self.new) }
        ensures scope { self.new.scope ≡ self.old.scope }
        ensures stopped { AnswersFound self.old result }
        ensures memory { result ≡ Err NgFault.Memory → (self.new ≡ self.old) × (out.new.items ≡ out.old.items) }
    {
        if let Stage::Stopped(fault) = self.stage {
            return Err(fault);
        }
        if self.keep_within(piece)? {
            return Ok(());
        }
        let Called {
            stage,
            total,
            reached,
            passed,
            held,
            frames,
        } = self.call(piece)?;
        take_over(
            &mut self.interfaces,
            reached.anew,
            reached.came,
            out,
            frames,
        )?;
        self.stage = stage;
        self.total = total;
        self.order = reached.order;
        self.count = reached.count;
        self.passed = passed;
        self.held = held;
        stage.answer()
    }

    // Keeps a piece that lies within a block that is read, and says whether it does. The held bytes are not copied then.
    fn keep_within(&mut self, piece: &[u8]) -> Result<bool, AllocError>
        requires { self.old.stage ≡ Running }
        ensures kept { IfOk result (λ kept. IsKept kept self.old piece.now self.new) }
        ensures memory { OnErr result (self.new ≡ self.old) }
    {
        let limit = self.scope.length;
        let (early, late) = split_late(limit, self.total, piece);
        if !late.is_empty() || !stays_within(self.order, self.passed, &self.held, early) {
            return Ok(false);
        }
        self.held.extend_from_slice(early)?;
        self.total = limit.total_after(self.total, early.len());
        Ok(true)
    }

    // What a call that takes a piece comes to.
    fn call(&self, piece: &[u8]) -> Result<Called, AllocError>
        requires { self.now.stage ≡ Running }
        ensures { IfOk result (λ called. IsCalled self.now piece.now called.frames.items (reader_after self.now called)) }
    {
        let limit = self.scope.length;
        let (early, late) = split_late(limit, self.total, piece);
        let position = Position::new(self.alloc, self.order, &self.interfaces, self.count);
        let given = read_piece(
            self.alloc,
            self.scope,
            position,
            self.passed,
            &self.held,
            early,
        )?;
        let stage = stage_after(self.alloc, self.scope, &given, late)?;
        Ok(Called {
            stage,
            total: limit.total_after(self.total, early.len()),
            reached: given.position.reached(),
            passed: given.passed,
            held: keep_if_running(self.alloc, stage, given.held),
            frames: given.frames,
        })
    }

    /// How many bytes of the stream are held: those of a block that has only begun.
    pub fn held(&self) -> usize
        ensures value { result ≡ length self.now.held }
        ensures few { result ≤ 1048580 }
    {
        self.held.len()
    }

    /// How many interfaces of the section are kept beside the held bytes: in a stream of any length 65,536 at most.
    pub fn interfaces(&self) -> usize
        ensures value { result ≡ length self.now.state.interfaces }
        ensures few { self.now.scope.length ≡ Any → result ≤ 65536 }
    {
        self.interfaces.len()
    }

    /// The fault that was found, if one was. The stream has it, whatever follows.
    pub fn fault(&self) -> Option<NgFault>
        ensures { result ≡ found_at self.now.stage }
    {
        self.stage.fault()
    }

    /// The number of frames of the stream that was fed, and 2^53 - 1 if there are more, or its fault. It takes no memory.
    pub fn finish(self) -> Result<u64, NgFault>
        ensures ended { (stream : List ℕ) → IsStateOf self stream → IsEnded self.scope stream result }
        ensures no_memory { result ≢ Err NgFault.Memory }
    {
        match self.stage {
            Stage::Stopped(fault) => Err(fault),
            Stage::Running => {
                if self.passed.is_some() || !self.held.is_empty() {
                    return Err(NgFault::Cut(self.count));
                }
                if self.order.is_none() {
                    return Err(NgFault::Cut(self.count));
                }
                Ok(self.count)
            }
        }
    }

    /// What the end of the stream says: nothing where it ends well, or its fault. Where it may be truncated, a stream that ends within a
    /// block is one of the blocks before it: how many frames they have then. One that ends within its first section header has its fault.
    pub fn finish_as(self, truncated: bool) -> Result<Option<u64>, NgFault>
        ensures ended { (stream : List ℕ) (frames : List FrameValue) → IsStateOf self stream → AreGiven (pcapng self.scope) stream frames
            → MatchResult result (Says truncated self.scope stream frames) (Breaks truncated self.scope stream) }
        ensures no_memory { result ≢ Err NgFault.Memory }
    {
        let has_begun = self.order.is_some();
        let Err(fault) = self.finish() else {
            return Ok(None);
        };
        match fault {
            NgFault::Cut(count) if truncated && has_begun => Ok(Some(count)),
            _ => Err(fault),
        }
    }
}

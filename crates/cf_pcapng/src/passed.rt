// Blocks that are passed over.
ghost use Rattle.std.specs.Prelude.{◌≡◌, ℕ, List, ◌++◌, ◌+◌, ◌<◌, ◌≤◌, length, IfOk, IsTrue};
ghost use Rattle.cf_pcap.specs.Limits.{HasRoom};
ghost use Rattle.cf_pcap.specs.declared.scope.Scope.{Scope};
ghost use Rattle.cf_pcapng.specs.File.{State};
ghost use Rattle.cf_pcapng.specs.Position.{state_of};
ghost use Rattle.cf_pcapng.specs.Blocks.{head_of as head_at};
ghost use Rattle.cf_pcap.specs.Capture.{FrameValue};
ghost use Rattle.cf_pcapng.specs.Reading.{WasPassed, IsResumed, IsLetGo, IsPassedAt, KeepsLastField, AreFew, MayReadOn, StaysWithin, Gave, GaveAfter, IsFew, LetsGo, size_by, missing_of};

use crate::blocks::{BlocksRead, read_blocks};
use crate::fault::Flaw;
use crate::head::{BlockHead, BlockKind, head_of};
use crate::position::Position;
use cf_pcap::{Frame, Order, Scope, cut_at};
use std::alloc::{AllocError, Global};

/// So many bytes show the head of any block, and no block has fewer.
const HEAD: usize = 12;

/// The length of a block's last field.
const LAST_FIELD: usize = 4;

/// A block at hand that is only passed over, and may be very long: its bytes are let go up to the last field.
#[derive(Clone, Copy, Debug, PartialEq, Eq)]
pub(crate) struct Passed {
    pub order: Order,
    pub total: u32,
    /// How many of its bytes were let go.
    pub gone: u32,
}

/// What comes of a block at hand.
#[derive(Clone, Copy, Debug, PartialEq, Eq)]
pub(crate) enum Resumed {
    /// It goes on, with so many bytes more let go.
    Within(Passed, usize),
    /// Its last field is false.
    Flawed,
    /// It ends after so many bytes.
    Over(usize),
}

/// What was read of the bytes of a stream, and what a reader has of the block at hand.
#[derive(Drop)]
pub(crate) struct StreamRead<'a> {
    pub position: Position<'a>,
    pub frames: Vec<Frame>,
    pub passed: Option<Passed>,
    pub held: Vec<u8>,
    pub flaw: Option<Flaw>,
}

impl Passed {
    // Lets go what comes before the last field.
    fn within(self, bytes: &[u8]) -> (Passed, usize)
        requires room { self.gone + 4 ≤ self.total }
        requires short { self.gone + length bytes.now < self.total }
        ensures { IsLetGo self (length bytes.now) result.0 result.1 }
    {
        let some = bytes.len().min((self.total - 4 - self.gone) as usize);
        let passed = Passed {
            order: self.order,
            total: self.total,
            gone: self.gone + some as u32,
        };
        (passed, some)
    }

    // Goes on with the next bytes.
    fn resume(self, bytes: &[u8]) -> Resumed
        requires { self.gone + 4 ≤ self.total }
        ensures { IsResumed self bytes.now result }
    {
        let left = (self.total - self.gone) as usize;
        if bytes.len() < left {
            let (passed, some) = self.within(bytes);
            return Resumed::Within(passed, some);
        }
        if self.order.read_u32(&bytes[left - 4..]) != self.total {
            return Resumed::Flawed;
        }
        Resumed::Over(left)
    }
}

// The block that begins here, where it is only passed over.
fn passed_at(section: Option<Order>, rest: &[u8]) -> Option<Passed>
    ensures { IsPassedAt section rest.now result }
{
    match head_of(section, rest) {
        BlockHead::Stands(order, BlockKind::Other, total) if rest.len() < total as usize => Some(
            Passed {
                order,
                total,
                gone: 0,
            },
        ),
        _ => None,
    }
}

// The held bytes and those that come, as one.
fn join_bytes(alloc: Global, held: &[u8], more: &[u8]) -> Result<Vec<u8>, AllocError>
    ensures { IfOk result (λ bytes. bytes.items ≡ held.now ++ more.now) }
{
    let mut bytes = held.to_vec(alloc)?;
    bytes.extend_from_slice(more)?;
    Ok(bytes)
}

// How long the block is that begins so, as far as its head shows. One that is passed over is let go at its head.
fn size_of(section: Option<Order>, bytes: &[u8]) -> usize
    ensures { result ≡ size_by (head_at section bytes.now) }
{
    match head_of(section, bytes) {
        BlockHead::Stands(_, BlockKind::Other, _) => HEAD,
        BlockHead::Stands(_, _, total) => total as usize,
        _ => HEAD,
    }
}

// Whether a block that is read begins with the held bytes and isn't whole with those that come either.
pub(crate) fn stays_within(
    section: Option<Order>,
    passed: Option<Passed>,
    held: &[u8],
    more: &[u8],
) -> bool
    ensures { IsTrue result → StaysWithin section passed held.now more.now }
{
    if passed.is_some() {
        return false;
    }
    match head_of(section, held) {
        BlockHead::Stands(_, BlockKind::Other, _) => false,
        BlockHead::Stands(_, _, total) => held.len() + more.len() < total as usize,
        _ => false,
    }
}

// How many bytes more the block needs that hung over, as far as its head shows with those that come.
fn missing(
    alloc: Global,
    section: Option<Order>,
    passed: Option<Passed>,
    held: &[u8],
    more: &[u8],
) -> Result<usize, AllocError>
    ensures { IfOk result (λ count. count ≡ missing_of section passed held.now more.now) }
{
    if held.is_empty() {
        return Ok(0);
    }
    if passed.is_some() {
        return Ok(LAST_FIELD.saturating_sub(held.len()));
    }
    let first = cut_at(more, HEAD.saturating_sub(held.len())).0;
    let seen = join_bytes(alloc, cut_at(held, HEAD).0, first)?;
    Ok(size_of(section, &seen).saturating_sub(held.len()))
}

// Drops the bytes of a block that is only passed over, up to its last field, if one begins where the reading ended.
fn drop_passed_block<'a>(
    alloc: Global,
    read: BlocksRead<'a, '_>,
) -> Result<StreamRead<'a>, AllocError>
    ensures read { IfOk result (LetsGo read.entry) }
    ensures had { IfOk result (λ given. given.position.listed.had ≡ read.entry.position.listed.had) }
{
    let BlocksRead {
        position,
        frames,
        rest,
        flaw,
    } = read;
    if flaw.is_some() {
        return Ok(StreamRead {
            position,
            frames,
            passed: None,
            held: Vec::new(alloc),
            flaw,
        });
    }
    match passed_at(position.order(), rest) {
        None => {
            let held = rest.to_vec(alloc)?;
            Ok(StreamRead {
                position,
                frames,
                passed: None,
                held,
                flaw,
            })
        }
        Some(block) => {
            let (passed, some) = block.within(rest);
            let held = rest.split_at(some).1.to_vec(alloc)?;
            Ok(StreamRead {
                position,
                frames,
                passed: Some(passed),
                held,
                flaw,
            })
        }
    }
}

// Passes over the next bytes of a block at hand, and reads the blocks after it.
fn resume_passed_block<'a>(
    alloc: Global,
    scope: Scope,
    position: Position<'a>,
    frames: Vec<Frame>,
    block: Passed,
    bytes: &[u8],
) -> Result<StreamRead<'a>, AllocError>
    requires block { block.gone + 4 ≤ block.total }
    requires room { HasRoom scope.length (position.count + length bytes.now) }
    requires few { AreFew scope.length (state_of position).interfaces }
    ensures sound { IfOk result (IsFew scope.length (state_of position.entry) (length bytes.now)) }
    ensures read { IfOk result (GaveAfter scope (state_of position.entry) (Some block) bytes.now frames.items) }
    ensures had { IfOk result (λ given. given.position.listed.had ≡ position.entry.listed.had) }
{
    match block.resume(bytes) {
        Resumed::Over(left) => {
            let read = read_blocks(alloc, scope, position, frames, bytes.split_at(left).1)?;
            drop_passed_block(alloc, read)
        }
        Resumed::Within(passed, some) => {
            let held = bytes.split_at(some).1.to_vec(alloc)?;
            Ok(StreamRead {
                position,
                frames,
                passed: Some(passed),
                held,
                flaw: None,
            })
        }
        Resumed::Flawed => Ok(StreamRead {
            position,
            frames,
            passed: None,
            held: Vec::new(alloc),
            flaw: Some(Flaw::BadLength),
        }),
    }
}

// Reads the bytes after those that were let go, and adds their frames to those before them.
fn read_next<'a>(
    alloc: Global,
    scope: Scope,
    position: Position<'a>,
    frames: Vec<Frame>,
    passed: Option<Passed>,
    bytes: &[u8],
) -> Result<StreamRead<'a>, AllocError>
    requires block { KeepsLastField passed }
    requires room { HasRoom scope.length (position.count + length bytes.now) }
    requires few { AreFew scope.length (state_of position).interfaces }
    ensures sound { IfOk result (IsFew scope.length (state_of position.entry) (length bytes.now)) }
    ensures read { IfOk result (GaveAfter scope (state_of position.entry) passed bytes.now frames.items) }
    ensures had { IfOk result (λ given. given.position.listed.had ≡ position.entry.listed.had) }
{
    match passed {
        Some(block) => resume_passed_block(alloc, scope, position, frames, block, bytes),
        None => {
            let read = read_blocks(alloc, scope, position, frames, bytes)?;
            drop_passed_block(alloc, read)
        }
    }
}

// Reads on, where the bytes lie if none are held.
fn read_on<'a>(
    alloc: Global,
    scope: Scope,
    given: StreamRead<'a>,
    more: &[u8],
) -> Result<StreamRead<'a>, AllocError>
    requires { MayReadOn scope.length (state_of given.position) given.passed given.held.items given.flaw (length more.now) }
    ensures sound { IfOk result (λ after. (s : State) (size : ℕ) → IsFew scope.length s size given.entry → IsFew scope.length s (size + length more.now) after) }
    ensures read { IfOk result (λ after. (s : State) (bytes : List ℕ) → Gave scope s bytes given.entry → Gave scope s (bytes ++ more.now) after) }
    ensures had { IfOk result (λ after. after.position.listed.had ≡ given.entry.position.listed.had) }
{
    if given.flaw.is_some() || more.is_empty() {
        return Ok(given);
    }
    let StreamRead {
        position,
        frames,
        passed,
        held,
        ..
    } = given;
    if held.is_empty() {
        return read_next(alloc, scope, position, frames, passed, more);
    }
    let bytes = join_bytes(alloc, &held, more)?;
    read_next(alloc, scope, position, frames, passed, &bytes)
}

// Reads the held bytes and those of a piece. Of the piece no more is copied than completes the held block.
pub(crate) fn read_piece<'a>(
    alloc: Global,
    scope: Scope,
    position: Position<'a>,
    passed: Option<Passed>,
    held: &[u8],
    more: &[u8],
) -> Result<StreamRead<'a>, AllocError>
    requires block { KeepsLastField passed }
    requires room { HasRoom scope.length (position.count + length (held.now ++ more.now)) }
    requires few { AreFew scope.length (state_of position).interfaces }
    ensures sound { IfOk result (IsFew scope.length (state_of position.entry) (length (held.now ++ more.now))) }
    ensures read { IfOk result (λ given. (gone : List ℕ) → WasPassed position.entry.order passed gone
        → Gave scope (state_of position.entry) (gone ++ (held.now ++ more.now)) given) }
    ensures had { IfOk result (λ given. given.position.listed.had ≡ position.entry.listed.had) }
{
    let count = missing(alloc, position.order(), passed, held, more)?;
    let (first, others) = cut_at(more, count);
    let bytes = join_bytes(alloc, held, first)?;
    let given = read_next(alloc, scope, position, Vec::new(alloc), passed, &bytes)?;
    read_on(alloc, scope, given, others)
}

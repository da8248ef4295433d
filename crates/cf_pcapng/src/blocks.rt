// The blocks of a file.
ghost use Rattle.std.specs.Prelude.{◌≡◌, ◌+◌, ◌<◌, ◌≤◌, ◌^◌, length, IfOk};
ghost use Rattle.cf_pcap.specs.Limits.{HasRoom};
ghost use Rattle.cf_pcapng.specs.Position.{state_of};
ghost use Rattle.cf_pcapng.specs.Reading.{next_of as next_block, IsNextIn, AreReadAfter};

use crate::content::{Content, content_of};
use crate::fault::Flaw;
use crate::head::{BlockHead, head_of};
use crate::position::Position;
use cf_pcap::{Frame, Scope};
use std::alloc::{AllocError, Global};

/// What stands at the front of some bytes.
#[derive(Clone, Copy, Debug, PartialEq, Eq)]
pub(crate) enum Next {
    /// Only the begin of a block.
    Wants,
    Flawed(Flaw),
    /// A lawful block of so many bytes.
    Block(u32, Content),
}

/// What was read of some bytes: the frames, with those before them, the bytes after the blocks, and the flaw that stands there.
#[derive(Drop)]
pub(crate) struct BlocksRead<'a, 'b> {
    pub position: Position<'a>,
    pub frames: Vec<Frame>,
    pub rest: &'b [u8],
    pub flaw: Option<Flaw>,
}

// The block at the front.
fn next_of(scope: Scope, position: &Position<'_>, bytes: &[u8]) -> Next
    ensures value { result ≡ next_block scope (state_of position.now) bytes.now }
    ensures within { IsNextIn (length bytes.now) result }
{
    match head_of(position.order(), bytes) {
        BlockHead::Short => Next::Wants,
        BlockHead::Flawed(flaw) => Next::Flawed(flaw),
        BlockHead::Stands(order, kind, total) => {
            if bytes.len() < total as usize {
                return Next::Wants;
            }
            let block = bytes.split_at(total as usize).0;
            match content_of(scope, position.interfaces(), order, kind, block) {
                Ok(content) => Next::Block(total, content),
                Err(flaw) => Next::Flawed(flaw),
            }
        }
    }
}

// What was read, where the blocks end.
fn finish_read<'a, 'b>(
    position: Position<'a>,
    frames: Vec<Frame>,
    rest: &'b [u8],
    flaw: Option<Flaw>,
) -> BlocksRead<'a, 'b>
    ensures position { result.position ≡ position.entry }
    ensures frames { result.frames.items ≡ frames.items }
    ensures rest { result.rest.now ≡ rest.now }
    ensures flaw { result.flaw ≡ flaw }
{
    BlocksRead {
        position,
        frames,
        rest,
        flaw,
    }
}

// Reads the blocks at the front, and adds their frames to those before them.
pub(crate) fn read_blocks<'a, 'b>(
    alloc: Global,
    scope: Scope,
    mut position: Position<'a>,
    mut frames: Vec<Frame>,
    bytes: &'b [u8],
) -> Result<BlocksRead<'a, 'b>, AllocError>
    requires { HasRoom scope.length (position.count + length bytes.now) }
    ensures read { IfOk result (λ read. AreReadAfter scope (state_of position.entry) bytes.now frames.items read.frames.items (state_of read.position) read.rest.now read.flaw) }
    ensures had { IfOk result (λ read. read.position.listed.had ≡ position.entry.listed.had) }
{
    let mut left = bytes;
    loop {
        match next_of(scope, &position, left) {
            Next::Block(total, content) => {
                let (block, after) = left.split_at(total as usize);
                position.pass(alloc, scope.length, content, block, &mut frames)?;
                left = after;
            }
            Next::Wants => return Ok(finish_read(position, frames, left, None)),
            Next::Flawed(flaw) => return Ok(finish_read(position, frames, left, Some(flaw))),
        }
    }
}

// A piece is taken.
ghost use Rattle.std.specs.Prelude.{◌≡◌, List, [], ◌++◌, ◌≤◌, ◌+◌, ◌*◌, length, take, drop, IfOk, OnErr};
ghost use Rattle.cf_pcap.specs.Limits.{HasRoom};
ghost use Rattle.cf_pcap.specs.Reading.{state_of, IsStageAfter, AreTaken, IsTaken, IsOneRecord, late_of as late_of_total};

use crate::form::FileHeader;
use crate::records::{RECORD_HEADER, caplen_of, fault_at, first_frame, is_one_record, read_frames};
use crate::{Frame, LIMIT, Length, PcapFault, Scope, Stage};
use std::alloc::{AllocError, Global};

/// What the bytes at hand gave: the frames, the reader after them, and how many of the bytes it lets go.
#[derive(Drop)]
struct BytesTaken {
    stage: Stage<PcapFault>,
    header: Option<FileHeader>,
    frames: Vec<Frame>,
    count: u64,
    used: usize,
}

/// How far a stream was read: what its header states, once that was read, and how many frames came.
#[derive(Clone, Copy)]
pub(crate) struct Place {
    pub scope: Scope,
    pub header: Option<FileHeader>,
    pub count: u64,
}

/// Where a piece brings a reader.
#[derive(Clone, Copy)]
pub(crate) struct Reached {
    pub stage: Stage<PcapFault>,
    pub header: Option<FileHeader>,
    pub count: u64,
}

// How many of the last bytes of a stream that long come too late for a frame.
pub(crate) fn late_of(length: Length, total: usize) -> usize
    ensures { result ≡ late_of_total length total }
{
    match length {
        Length::Any => 0,
        Length::Limited => { if total == LIMIT { 1 } else { 0 } }
    }
}

// The stage where this is left.
fn stage_after(
    scope: Scope,
    header: Option<FileHeader>,
    count: u64,
    late: usize,
    rest: &[u8],
) -> Stage<PcapFault>
    ensures { IsStageAfter scope (state_of header count) late rest.now result }
{
    match fault_at(scope, header, count, rest) {
        Some(fault) => Stage::Stopped(fault),
        None if late > 0 => Stage::Stopped(PcapFault::TooManyBytes),
        None => Stage::Running,
    }
}

// Reads the bytes at hand, and the stage at which they leave the reader.
fn read_with_stage(
    alloc: Global,
    place: Place,
    late: usize,
    bytes: &[u8],
) -> Result<BytesTaken, AllocError>
    requires late { late ≤ length bytes.now }
    requires room { HasRoom place.scope.length (16 * place.count + length bytes.now) }
    ensures taken { IfOk result (λ given. AreTaken place.scope (state_of place.header place.count) late bytes.now given.frames.items
        (state_of given.header given.count) given.stage (drop given.used bytes.now)) }
    ensures used { IfOk result (λ given. given.used ≤ length bytes.now) }
{
    let early = bytes.split_at(bytes.len() - late).0;
    let read = read_frames(alloc, place.scope, place.header, place.count, early)?;
    let stage = stage_after(
        place.scope,
        read.header,
        read.count,
        late,
        bytes.split_at(read.used).1,
    );
    let used = match stage {
        Stage::Running => read.used,
        Stage::Stopped(_) => bytes.len(),
    };
    Ok(BytesTaken {
        stage,
        header: read.header,
        frames: read.frames,
        count: read.count,
        used,
    })
}

// Lets so many bytes at the front go.
fn drop_front(bytes: &mut Vec<u8>, count: usize)
    requires { count ≤ length bytes.old.items }
    ensures { bytes.new.items ≡ drop count bytes.old.items }
{
    if count == 0 {
        return;
    }
    let left = bytes.len() - count;
    bytes.copy_within(count.., 0);
    bytes.truncate(left);
}

// Reads the bytes at hand, adds their frames to `out`, and leaves them where they are.
fn read_into(
    alloc: Global,
    place: Place,
    late: usize,
    bytes: &[u8],
    out: &mut Vec<Frame>,
) -> Result<(Reached, usize), AllocError>
    requires late { late ≤ length bytes.now }
    requires room { HasRoom place.scope.length (16 * place.count + length bytes.now) }
    ensures given { IfOk result (λ given. IsTaken place late bytes.now out.old.items out.new.items given.0 (drop given.1 bytes.now)) }
    ensures used { IfOk result (λ given. given.1 ≤ length bytes.now) }
    ensures memory { OnErr result (out.new.items ≡ out.old.items) }
{
    let mut given = read_with_stage(alloc, place, late, bytes)?;
    out.append(&mut given.frames)?;
    let reached = Reached {
        stage: given.stage,
        header: given.header,
        count: given.count,
    };
    Ok((reached, given.used))
}

// Takes a piece when nothing is held: its bytes are read where they are.
fn take_with_none_held(
    alloc: Global,
    place: Place,
    late: usize,
    held: &mut Vec<u8>,
    bytes: &[u8],
    out: &mut Vec<Frame>,
) -> Result<Reached, AllocError>
    requires none { held.old.items ≡ [] }
    requires late { late ≤ length bytes.now }
    requires room { HasRoom place.scope.length (16 * place.count + length bytes.now) }
    ensures given { IfOk result (λ reached. IsTaken place late bytes.now out.old.items out.new.items reached held.new.items) }
    ensures memory { OnErr result ((out.new.items ≡ out.old.items) × (held.new.items ≡ held.old.items)) }
{
    let mut given = read_with_stage(alloc, place, late, bytes)?;
    held.extend_from_slice(bytes.split_at(given.used).1)?;
    match out.append(&mut given.frames) {
        Ok(()) => Ok(Reached {
            stage: given.stage,
            header: given.header,
            count: given.count,
        }),
        Err(error) => {
            held.clear();
            Err(error)
        }
    }
}

// Fills the held bytes up to that length, as far as those that come go, and says how many it took.
fn fill(held: &mut Vec<u8>, size: usize, more: &[u8]) -> Result<usize, AllocError>
    ensures filled { IfOk result (λ count. (count ≤ length more.now) × (held.new.items ≡ held.old.items ++ take count more.now)) }
    ensures memory { OnErr result (held.new.items ≡ held.old.items) }
{
    let count = size.saturating_sub(held.len()).min(more.len());
    held.extend_from_slice(more.split_at(count).0)?;
    Ok(count)
}

// Completes the record that the held bytes begin, as far as those that come go, and says how many it took.
fn complete(header: FileHeader, held: &mut Vec<u8>, more: &[u8]) -> Result<usize, AllocError>
    ensures filled { IfOk result (λ count. (count ≤ length more.now) × (held.new.items ≡ held.old.items ++ take count more.now)) }
    ensures memory { OnErr result (held.new.items ≡ held.old.items) }
{
    let before = held.len();
    let first = fill(held, RECORD_HEADER, more)?;
    if held.len() < RECORD_HEADER {
        return Ok(first);
    }
    let size = RECORD_HEADER + caplen_of(header, held) as usize;
    match fill(held, size, more.split_at(first).1) {
        Ok(second) => Ok(first + second),
        Err(error) => {
            held.truncate(before);
            Err(error)
        }
    }
}

// Reads the held bytes, which are one record, and then those that come, where these are.
fn take_after(
    alloc: Global,
    place: Place,
    late: usize,
    held: &mut Vec<u8>,
    more: &[u8],
    out: &mut Vec<Frame>,
) -> Result<Reached, AllocError>
    requires record { IsOneRecord place.header held.old.items }
    requires late { late ≤ length more.now }
    requires room { HasRoom place.scope.length (16 * place.count + (length held.old.items + length more.now)) }
    ensures given { IfOk result (λ reached. IsTaken place late (held.old.items ++ more.now) out.old.items out.new.items reached held.new.items) }
    ensures memory { OnErr result ((out.new.items ≡ out.old.items) × (held.new.items ≡ held.old.items)) }
{
    let Some(header) = place.header else {
        unreachable!();
    };
    let num = place.scope.length.frame_number(place.count);
    let frame = first_frame(alloc, header, num, held)?;
    let next = Place {
        scope: place.scope,
        header: place.header,
        count: place.scope.length.number_after(place.count),
    };
    let mut given = read_with_stage(alloc, next, late, more)?;
    let kept = more.split_at(given.used).1.to_vec(alloc)?;
    let mut frames = Vec::new(alloc);
    frames.push(frame)?;
    frames.append(&mut given.frames)?;
    out.append(&mut frames)?;
    *held = kept;
    Ok(Reached {
        stage: given.stage,
        header: given.header,
        count: given.count,
    })
}

// Reads the bytes that are held and those that come as one.
fn take_joined(
    alloc: Global,
    place: Place,
    late: usize,
    held: &mut Vec<u8>,
    more: &[u8],
    out: &mut Vec<Frame>,
) -> Result<Reached, AllocError>
    requires late { late ≤ length held.old.items + length more.now }
    requires room { HasRoom place.scope.length (16 * place.count + (length held.old.items + length more.now)) }
    ensures given { IfOk result (λ reached. IsTaken place late (held.old.items ++ more.now) out.old.items out.new.items reached held.new.items) }
    ensures memory { OnErr result ((out.new.items ≡ out.old.items) × (held.new.items ≡ held.old.items)) }
{
    let before = held.len();
    held.extend_from_slice(more)?;
    match read_into(alloc, place, late, held, out) {
        Ok((reached, used)) => {
            drop_front(held, used);
            Ok(reached)
        }
        Err(error) => {
            held.truncate(before);
            Err(error)
        }
    }
}

// Takes what is left of a piece when some bytes are held, which mostly are one record.
fn take_with_held(
    alloc: Global,
    place: Place,
    late: usize,
    held: &mut Vec<u8>,
    more: &[u8],
    out: &mut Vec<Frame>,
) -> Result<Reached, AllocError>
    requires late { late ≤ length held.old.items + length more.now }
    requires room { HasRoom place.scope.length (16 * place.count + (length held.old.items + length more.now)) }
    ensures given { IfOk result (λ reached. IsTaken place late (held.old.items ++ more.now) out.old.items out.new.items reached held.new.items) }
    ensures memory { OnErr result ((out.new.items ≡ out.old.items) × (held.new.items ≡ held.old.items)) }
{
    if late <= more.len() && is_one_record(place.header, held) {
        return take_after(alloc, place, late, held, more, out);
    }
    take_joined(alloc, place, late, held, more, out)
}

// Takes a piece: reads the held bytes and those of the piece, adds their frames to `out`, and holds what is left. If memory
// runs out, nothing changes. Of the piece no more is copied than completes the held record.
pub(crate) fn take_piece(
    alloc: Global,
    place: Place,
    late: usize,
    held: &mut Vec<u8>,
    more: &[u8],
    out: &mut Vec<Frame>,
) -> Result<Reached, AllocError>
    requires late { late ≤ length more.now }
    requires room { HasRoom place.scope.length (16 * place.count + (length held.old.items + length more.now)) }
    ensures given { IfOk result (λ reached. IsTaken place late (held.old.items ++ more.now) out.old.items out.new.items reached held.new.items) }
    ensures memory { OnErr result ((out.new.items ≡ out.old.items) × (held.new.items ≡ held.old.items)) }
{
    if held.is_empty() {
        return take_with_none_held(alloc, place, late, held, more, out);
    }
    let Some(header) = place.header else {
        return take_joined(alloc, place, late, held, more, out);
    };
    let before = held.len();
    let count = complete(header, held, more)?;
    match take_with_held(alloc, place, late, held, more.split_at(count).1, out) {
        Ok(reached) => Ok(reached),
        Err(error) => {
            held.truncate(before);
            Err(error)
        }
    }
}

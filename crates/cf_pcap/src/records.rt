// The file header and the records of a capture.
ghost use Rattle.std.specs.Prelude.{◌≡◌, ℕ, List, ◌<◌, ◌≤◌, ◌+◌, ◌*◌, Some, None, drop, length, IfOk, true, false};
ghost use Rattle.cf_pcap.specs.Capture.{FrameValue, HasRecord, HasLongRecord, frame_at, caplen_at};
ghost use Rattle.cf_pcap.specs.Limits.{HasRoom};
ghost use Rattle.cf_pcap.specs.Reading.{state_of, AreRead, IsFaultAt, IsOneRecord};

use crate::form::FileHeader;
use crate::head::{HEADER, HeaderShown, head_of};
use crate::{Frame, PcapFault, Scope};
use std::alloc::{AllocError, Global};

/// The length of a record's header.
pub(crate) const RECORD_HEADER: usize = 16;

/// The most bytes that a record may hold of its frame: libpcap's `MAXIMUM_SNAPLEN`.
pub const LONGEST: u32 = 262_144;

/// What was read of some bytes: what the file header states, the frames, how many came before the next, and how many of the bytes they take.
#[derive(Drop)]
pub(crate) struct RecordsRead {
    pub header: Option<FileHeader>,
    pub frames: Vec<Frame>,
    pub count: u64,
    pub used: usize,
}

// The captured length that the record header at the front states.
pub(crate) fn caplen_of(header: FileHeader, bytes: &[u8]) -> u32
    requires { 16 ≤ length bytes.now }
    ensures { result ≡ caplen_at header bytes.now }
{
    header.layout.order.read_u32(&bytes[8..])
}

// Whether a lawful record stands whole at the front.
fn has_record(header: FileHeader, bytes: &[u8]) -> bool
    ensures yes { result ≡ true → HasRecord header bytes.now }
    ensures no { result ≡ false → HasRecord header bytes.now → ⊥ }
{
    if bytes.len() < RECORD_HEADER {
        return false;
    }
    let caplen = caplen_of(header, bytes);
    caplen <= LONGEST && RECORD_HEADER + caplen as usize <= bytes.len()
}

// Whether the bytes are one lawful record.
pub(crate) fn is_one_record(header: Option<FileHeader>, bytes: &[u8]) -> bool
    ensures { result ≡ true → IsOneRecord header bytes.now }
{
    match header {
        Some(header) if has_record(header, bytes) => {
            RECORD_HEADER + caplen_of(header, bytes) as usize == bytes.len()
        }
        _ => false,
    }
}

// Whether a record header at the front states too many bytes.
fn is_too_long(header: FileHeader, bytes: &[u8]) -> bool
    ensures yes { result ≡ true → HasLongRecord header bytes.now }
    ensures no { result ≡ false → HasLongRecord header bytes.now → ⊥ }
{
    bytes.len() >= RECORD_HEADER && caplen_of(header, bytes) > LONGEST
}

// The frame of the record at the front.
#[inline(always)]
pub(crate) fn first_frame(
    alloc: Global,
    header: FileHeader,
    num: u32,
    bytes: &[u8],
) -> Result<Frame, AllocError>
    requires { HasRecord header bytes.now }
    ensures { IfOk result (λ frame. frame ≡ frame_at header num bytes.now) }
{
    let order = header.layout.order;
    let seconds = order.read_u32(bytes);
    let fraction = order.read_u32(&bytes[4..]);
    let caplen = order.read_u32(&bytes[8..]);
    let len = order.read_u32(&bytes[12..]);
    let end = RECORD_HEADER + caplen as usize;
    let captured = bytes[RECORD_HEADER..end].to_vec(alloc)?;
    Ok(Frame {
        num,
        ts: seconds as u64 * 1_000_000_000 + fraction as u64 * header.layout.precision.tick(),
        caplen,
        len,
        link: header.link,
        bytes: captured,
    })
}

// Reads the records at the front, which come after so many others.
fn read_records(
    alloc: Global,
    scope: Scope,
    header: FileHeader,
    num: u64,
    bytes: &[u8],
) -> Result<RecordsRead, AllocError>
    requires { HasRoom scope.length (16 * num + length bytes.now) }
    ensures read { IfOk result (λ read. AreRead scope (state_of (Some header) num) bytes.now read.frames.items (state_of read.header read.count) (drop read.used bytes.now)) }
    ensures used { IfOk result (λ read. read.used ≤ length bytes.now) }
{
    let mut frames = Vec::new(alloc);
    let mut count = num;
    let mut rest = bytes;
    while has_record(header, rest) {
        let frame = first_frame(alloc, header, scope.length.frame_number(count), rest)?;
        let end = frame.record_len();
        frames.push(frame)?;
        count = scope.length.number_after(count);
        rest = rest.split_at(end).1;
    }
    Ok(RecordsRead {
        header: Some(header),
        frames,
        count,
        used: bytes.len() - rest.len(),
    })
}

// Reads the first bytes of a file.
fn read_first(
    alloc: Global,
    scope: Scope,
    num: u64,
    bytes: &[u8],
) -> Result<RecordsRead, AllocError>
    requires { HasRoom scope.length (16 * num + length bytes.now) }
    ensures read { IfOk result (λ read. AreRead scope (state_of None num) bytes.now read.frames.items (state_of read.header read.count) (drop read.used bytes.now)) }
    ensures used { IfOk result (λ read. read.used ≤ length bytes.now) }
{
    match head_of(scope.links, bytes) {
        HeaderShown::Stands(header) => {
            let mut read = read_records(alloc, scope, header, num, bytes.split_at(HEADER).1)?;
            read.used += HEADER;
            Ok(read)
        }
        _ => Ok(RecordsRead {
            header: None,
            frames: Vec::new(alloc),
            count: num,
            used: 0,
        }),
    }
}

// Reads the frames of the bytes that come after so many frames, of a file whose header states this, if it was read.
pub(crate) fn read_frames(
    alloc: Global,
    scope: Scope,
    header: Option<FileHeader>,
    num: u64,
    bytes: &[u8],
) -> Result<RecordsRead, AllocError>
    requires { HasRoom scope.length (16 * num + length bytes.now) }
    ensures read { IfOk result (λ read. AreRead scope (state_of header num) bytes.now read.frames.items (state_of read.header read.count) (drop read.used bytes.now)) }
    ensures used { IfOk result (λ read. read.used ≤ length bytes.now) }
{
    match header {
        Some(header) => read_records(alloc, scope, header, num, bytes),
        None => read_first(alloc, scope, num, bytes),
    }
}

// The fault that the bytes at the front show.
pub(crate) fn fault_at(
    scope: Scope,
    header: Option<FileHeader>,
    num: u64,
    bytes: &[u8],
) -> Option<PcapFault>
    ensures { IsFaultAt scope (state_of header num) bytes.now result }
{
    match header {
        Some(header) if is_too_long(header, bytes) => Some(PcapFault::FrameTooLong(num)),
        Some(_) => None,
        None => match head_of(scope.links, bytes) {
            HeaderShown::Faulty(fault) => Some(fault),
            _ => None,
        },
    }
}

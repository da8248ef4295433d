// Reads files whole, and writes texts whole.
ghost use Rattle.std.specs.Prelude.{◌≡◌, ◌^◌, IfOk, OnOk, OnErr};
ghost use Rattle.std.specs.Io.KnownBytes.{Appends};
ghost use Rattle.cf_outside.specs.Causes.{HasCause};
ghost use Rattle.cf_intake.specs.Causes.{HasReadCause};
ghost use Rattle.cf_intake.specs.Devices.{TakesUpTo, TakesAtMost, ReadsFile, WritesFront};
ghost use Rattle.cf_intake.specs.Refusals.{unopened};

use cf_outside::{Failed, OpenFault, Shelf, Sink};
use cf_pcap::cut_at;
use std::alloc::Global;

/// Why a file was not read.
#[derive(Clone, Copy, Debug, PartialEq, Eq)]
pub(crate) enum ReadError {
    Missing,
    Failed,
    Memory,
}

impl From<OpenFault> for ReadError {
    ghost from_gives = { λ fault error. error ≡ unopened fault };

    fn from(fault: OpenFault) -> ReadError {
        match fault {
            OpenFault::Missing => ReadError::Missing,
            OpenFault::Failed => ReadError::Failed,
            OpenFault::Memory => ReadError::Memory,
        }
    }
}

/// The most bytes of one read.
const CHUNK: usize = 4096;

/// The most bytes of one write.
const PIECE: usize = 4096;

// Reads the opened file to its end, or until that many bytes were taken, and no further.
fn read_rest<F: Shelf>(alloc: Global, shelf: &mut F, limit: usize) -> Result<Vec<u8>, ReadError>
    ensures files { F.files shelf.new ≡ F.files shelf.old }
    ensures taken { IfOk result (λ bytes. TakesUpTo (F.rest shelf.old) (F.rest shelf.new) limit bytes.items) }
    ensures stopped { OnErr result (TakesAtMost (F.rest shelf.old) (F.rest shelf.new) limit) }
    ensures cause { HasReadCause (F.faults shelf.old) (F.faults shelf.new) result }
    ensures present { result ≡ Err ReadError.Missing → ⊥ }
{
    let mut bytes = Vec::new(alloc);
    let mut buf = [0u8; CHUNK];
    while bytes.len() < limit {
        let size = CHUNK.min(limit - bytes.len());
        let Ok(count) = shelf.read(&mut buf[..size]) else {
            return Err(ReadError::Failed);
        };
        if count == 0 {
            return Ok(bytes);
        }
        if bytes.extend_from_slice(&buf[..count]).is_err() {
            return Err(ReadError::Memory);
        }
    }
    Ok(bytes)
}

/// Reads the file of that name to its end, or until that many bytes were taken, and no further.
pub(crate) fn read_file<F: Shelf>(
    alloc: Global,
    shelf: &mut F,
    name: &str,
    limit: usize,
) -> Result<Vec<u8>, ReadError>
    ensures files { F.files shelf.new ≡ F.files shelf.old }
    ensures read { ReadsFile (F.files shelf.old) name.now limit (F.rest shelf.old) (F.rest shelf.new) result }
    ensures cause { HasReadCause (F.faults shelf.old) (F.faults shelf.new) result }
{
    shelf.open(name)?;
    read_rest(alloc, shelf, limit)
}

/// Writes the text in pieces. After an error a front of it is written.
pub fn write_all<K: Sink>(sink: &mut K, text: &[u8]) -> Result<(), Failed>
    ensures ok { OnOk result (Appends (K.held sink.old) (K.held sink.new) text.now) }
    ensures err { OnErr result (WritesFront (K.held sink.old) (K.held sink.new) text.now) }
    ensures cause { HasCause (K.faults sink.old) (K.faults sink.new) result }
{
    let mut rest = text;
    while !rest.is_empty() {
        let count = sink.write(cut_at(rest, PIECE).0)?;
        rest = rest.split_at(count).1;
    }
    Ok(())
}

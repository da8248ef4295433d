// The real devices. As shelves and sinks they say nothing about content. They count every call that fails
// except, at an open, for a missing file or for want of memory. A call that a signal interrupts is tried again.
ghost use Rattle.std.specs.Prelude.{◌≡◌, [], take, if◌then◌else◌, is_err, IfOk, OnErr, OnOk, Some};
ghost use Rattle.std.specs.Io.{ReadsAtMost, WritesAtMost};
ghost use Rattle.std.specs.Io.KnownBytes.{Appends, Keeps, ReadConsumes, WriteAppends};
ghost use Rattle.std.specs.declared.option.Option.TheVariants.{None};
ghost use Rattle.cf_outside.specs.Causes.{HasCause, HasOpenCause, TakesSome, count_up, is_failed};
ghost use Rattle.cf_outside.specs.Files.{Notes, Opens};
ghost use Rattle.cf_outside.specs.Tries.{Means, Settles, TakesOpened};

use crate::{Failed, OpenFault, Shelf, Sink};
use std::io::{ErrorKind, Read, Write};
use std::marker::Model;
use std::rt::Files;
use std::{fs, io};

/// A call that was interrupted so often in a row has failed.
const TRIES: u32 = 1 << 20;

// What an error of std's means at an open.
fn fault_of(kind: ErrorKind) -> OpenFault
    ensures { Means kind result }
{
    match kind {
        ErrorKind::NotFound => OpenFault::Missing,
        ErrorKind::OutOfMemory => OpenFault::Memory,
        _ => OpenFault::Failed,
    }
}

// What a try comes to. One that a signal interrupted has done nothing, and is made again.
fn settled<T: Drop>(tried: io::Result<T>) -> Option<Result<T, Failed>>
    ensures { Settles tried result }
{
    match tried {
        Ok(done) => Some(Ok(done)),
        Err(error) => {
            if error.kind() == ErrorKind::Interrupted {
                None
            } else {
                Some(Err(Failed))
            }
        }
    }
}

// Reads, again after each interruption.
fn read_on<F: Read>(file: &mut F, buf: &mut [u8]) -> Result<usize, Failed>
    ensures bound { ReadsAtMost result buf.new }
    ensures bytes { ReadConsumes (F.remaining file.old) (F.remaining file.new) result buf.new }
{
    for _ in 0..TRIES {
        if let Some(outcome) = settled(file.read(buf)) {
            return outcome;
        }
    }
    Err(Failed)
}

// Writes, again after each interruption.
fn write_on<W: Write>(writer: &mut W, piece: &[u8]) -> Result<usize, Failed>
    ensures bound { WritesAtMost result piece.now }
    ensures bytes { WriteAppends (W.contents writer.old) (W.contents writer.new) result piece.now }
{
    for _ in 0..TRIES {
        if let Some(outcome) = settled(writer.write(piece)) {
            return outcome;
        }
    }
    Err(Failed)
}

// Flushes, again after each interruption.
fn flush_on<W: Write>(writer: &mut W) -> Result<(), Failed>
    ensures { Keeps (W.contents writer.old) (W.contents writer.new) }
{
    for _ in 0..TRIES {
        if let Some(outcome) = settled(writer.flush()) {
            return outcome;
        }
    }
    Err(Failed)
}

/// The files of the system. Contracts see its count of faults and what the opened file has left,
/// where the file tells it.
#[derive(Drop)]
pub struct FileShelf<'a, R: Files> {
    rt: &'a R,
    file: Option<R::File>,
    faults: u64,
}

impl<'a, R: Files> Model for FileShelf<'a, R> {
    ghost use Rattle.cf_outside.specs.Shown.{EdgeValue, left_of};

    ghost Value = { EdgeValue };

    ghost view = { λ s. record { faults = s.faults; known = left_of R.File.remaining s.file } };
}

impl<'a, R: Files> FileShelf<'a, R> {
    /// A shelf of which no file is open yet.
    pub fn new(rt: &'a R) -> Self
        ensures faults { result.faults ≡ 0 }
        ensures left { result.known ≡ Some [] }
    {
        FileShelf {
            rt,
            file: None,
            faults: 0,
        }
    }

    // Takes what the system answered to an open: this file, which is read next, or this error.
    fn take_opened(&mut self, opened: io::Result<R::File>) -> Result<(), OpenFault>
        ensures taken { TakesOpened R.File.remaining opened self.old.known self.new.known result }
        ensures cause { HasOpenCause self.old.faults self.new.faults result }
        ensures counted { self.new.faults ≡ (if is_failed result then count_up self.old.faults else self.old.faults) }
    {
        match opened {
            Ok(file) => {
                self.file = Some(file);
                Ok(())
            }
            Err(error) => {
                let fault = fault_of(error.kind());
                if fault == OpenFault::Failed {
                    self.faults = self.faults.saturating_add(1);
                }
                Err(fault)
            }
        }
    }
}

impl<'a, R: Files> Shelf for FileShelf<'a, R> {
    ghost files = { λ _. None };

    ghost rest = { λ _. None };

    ghost moved = { λ _. None };

    ghost faults = { λ s. s.faults };

    /// `Missing` is the system's answer that there is no such file, and `Memory` that it is out of memory.
    fn open(&mut self, name: &str) -> Result<(), OpenFault>
        ensures opens { Opens None name.now None None result }
        ensures cause { HasOpenCause self.old.faults self.new.faults result }

        // Each failure is counted, once, and nothing else is.
        ensures counted { self.new.faults ≡ (if is_failed result then count_up self.old.faults else self.old.faults) }
        ensures refused { OnErr result (self.new.known ≡ self.old.known) }

        // What is read next is what some opened file has left.
        ensures opened { OnOk result ((file : R.File) × (self.new.known ≡ R.File.remaining file)) }
    {
        let rt = self.rt;
        self.take_opened(fs::open(rt, name))
    }

    fn read(&mut self, buf: &mut [u8]) -> Result<usize, Failed>
        ensures bound { ReadsAtMost result buf.new }
        ensures bytes { ReadConsumes None None result buf.new }
        ensures noted { Notes None None result }
        ensures cause { HasCause self.old.faults self.new.faults result }

        ensures counted { self.new.faults ≡ (if is_err result then count_up self.old.faults else self.old.faults) }
        ensures known { ReadConsumes self.old.known self.new.known result buf.new }
    {
        match &mut self.file {
            Some(file) => match read_on(file, buf) {
                Ok(count) => Ok(count),
                Err(_) => {
                    self.faults = self.faults.saturating_add(1);
                    Err(Failed)
                }
            },
            None => Ok(0),
        }
    }
}

/// A writer of std's, as standard output. Contracts see its count of faults and what the writer
/// holds, where the writer tells it.
#[derive(Drop)]
pub struct StdSink<W: Write + Drop> {
    inner: W,
    faults: u64,
}

impl<W: Write + Drop> Model for StdSink<W> {
    ghost use Rattle.cf_outside.specs.Shown.{EdgeValue};

    ghost Value = { EdgeValue };

    ghost view = { λ s. record { faults = s.faults; known = W.contents s.inner } };
}

impl<W: Write + Drop> StdSink<W> {
    /// A sink over that writer.
    pub fn new(inner: W) -> Self
        ensures faults { result.faults ≡ 0 }
        ensures held { result.known ≡ W.contents inner }
    {
        StdSink { inner, faults: 0 }
    }
}

impl<W: Write + Drop> Sink for StdSink<W> {
    ghost held = { λ _. None };

    ghost faults = { λ s. s.faults };

    /// Writes and then flushes. A refused flush is a fault, and so is a writer that takes no byte of
    /// a piece that isn't empty.
    fn write(&mut self, piece: &[u8]) -> Result<usize, Failed>
        ensures bound { TakesSome result piece.now }
        ensures bytes { WriteAppends None None result piece.now }
        ensures cause { HasCause self.old.faults self.new.faults result }

        ensures counted { self.new.faults ≡ (if is_err result then count_up self.old.faults else self.old.faults) }
        ensures known { IfOk result (λ n. Appends self.old.known self.new.known (take n piece.now)) }
    {
        let taken = match write_on(&mut self.inner, piece) {
            Ok(count) if count > 0 || piece.is_empty() => {
                flush_on(&mut self.inner).map(|()| count).ok()
            }
            _ => None,
        };
        match taken {
            Some(count) => Ok(count),
            None => {
                self.faults = self.faults.saturating_add(1);
                Err(Failed)
            }
        }
    }
}

// Devices of which no call fails.
ghost use Rattle.std.specs.Prelude.{◌≡◌, ◌≢◌, [], ◌∷◌, length, min, OnOk, OnErr, Some, Ok};
ghost use Rattle.std.specs.Io.{ReadsAtMost};
ghost use Rattle.std.specs.Io.KnownBytes.{ReadConsumes, WriteAppends};
ghost use Rattle.std.specs.declared.option.Option.TheVariants.{None};
ghost use Rattle.cf_outside.specs.Causes.{HasCause, HasOpenCause, TakesSome, is_failed};
ghost use Rattle.cf_outside.specs.Files.{Notes, Opens};

use crate::pile::Pile;
use crate::{Failed, Memory, OpenFault, Shelf, Sink};
use std::alloc::Global;
use std::marker::Model;

/// Files in memory, of which no call fails. It tells them, and takes memory in `put` alone.
#[derive(Drop)]
pub struct SteadyShelf {
    alloc: Global,
    pile: Pile,
}

impl Model for SteadyShelf {
    ghost use Rattle.cf_outside.specs.Files.{PileValue};

    ghost Value = { PileValue };

    ghost view = { λ s. s.pile };
}

impl SteadyShelf {
    /// A shelf without files.
    pub fn new(alloc: Global) -> Self
        ensures files { result.files ≡ [] }
        ensures rest { result.rest ≡ [] }
    {
        SteadyShelf {
            alloc,
            pile: Pile::new(alloc),
        }
    }

    /// Gives the name that file, in place of one that it had. What is left of the opened file stays.
    pub fn put(&mut self, name: &str, bytes: &[u8]) -> Result<(), Memory>
        ensures ok { OnOk result (self.new.files ≡ record { name = name.now; bytes = bytes.now } ∷ self.old.files) }
        ensures err { OnErr result (self.new.files ≡ self.old.files) }
        ensures rest { self.new.rest ≡ self.old.rest }
    {
        self.pile.put(self.alloc, name, bytes)
    }
}

impl Shelf for SteadyShelf {
    ghost use Rattle.std.specs.declared.option.Option.TheVariants.{Some, None};

    ghost files = { λ s. Some s.files };

    ghost rest = { λ s. Some s.rest };

    ghost moved = { λ _. None };

    ghost faults = { λ _. 0 };

    fn open(&mut self, name: &str) -> Result<(), OpenFault>
        ensures files { Some self.new.files ≡ Some self.old.files }
        ensures opens { Opens (Some self.old.files) name.now (Some self.old.rest) (Some self.new.rest) result }
        ensures cause { HasOpenCause 0 0 result }

        // It never fails, and takes no memory.
        ensures no_fault { result ≢ Err OpenFault.Failed }
        ensures no_memory { result ≢ Err OpenFault.Memory }
    {
        if self.pile.open(name) {
            Ok(())
        } else {
            Err(OpenFault::Missing)
        }
    }

    fn read(&mut self, buf: &mut [u8]) -> Result<usize, Failed>
        ensures files { Some self.new.files ≡ Some self.old.files }
        ensures bound { ReadsAtMost result buf.new }
        ensures bytes { ReadConsumes (Some self.old.rest) (Some self.new.rest) result buf.new }
        ensures noted { Notes None None result }
        ensures cause { HasCause 0 0 result }

        // It never fails, and fills the buffer or reads to the end.
        ensures moved { result ≡ Ok (min (length buf.old) (length self.old.rest)) }
    {
        Ok(self.pile.read(usize::MAX, buf))
    }
}

/// Keeps no byte and tells nothing, and no call fails.
#[derive(Drop)]
pub struct SteadySink;

impl SteadySink {
    /// A sink that takes all.
    pub fn new() -> Self {
        SteadySink
    }
}

impl Sink for SteadySink {
    ghost use Rattle.std.specs.declared.option.Option.TheVariants.{None};

    ghost held = { λ _. None };

    ghost faults = { λ _. 0 };

    fn write(&mut self, piece: &[u8]) -> Result<usize, Failed>
        ensures bound { TakesSome result piece.now }
        ensures bytes { WriteAppends None None result piece.now }
        ensures cause { HasCause 0 0 result }

        // It takes the whole piece.
        ensures taken { result ≡ Ok (length piece.now) }
    {
        Ok(piece.len())
    }
}

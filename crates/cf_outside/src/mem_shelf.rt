// A shelf in memory, of which chosen calls fail.
ghost use Rattle.std.specs.Prelude.{◌≡◌, ◌≢◌, ◌↔◌, ◌<◌, [], ◌∷◌, length, min, true, OnOk, OnErr, IfOk, is_err, Some};
ghost use Rattle.std.specs.Io.{ReadsAtMost};
ghost use Rattle.std.specs.Io.KnownBytes.{ReadConsumes};
ghost use Rattle.cf_outside.specs.Causes.{HasCause, HasOpenCause, is_failed};
ghost use Rattle.cf_outside.specs.Files.{Notes, Opens};
ghost use Rattle.cf_outside.specs.Script.{script_of, fails_next, after_call};

use crate::pile::Pile;
use crate::script::Script;
use crate::{Failed, Memory, OpenFault, Shelf};
use std::alloc::Global;
use std::marker::Model;

/// Files in memory. It tells them, and takes memory in `put` alone.
#[derive(Drop)]
pub struct MemShelf {
    alloc: Global,
    pile: Pile,
    script: Script,
    most: usize,
}

impl Model for MemShelf {
    ghost use Rattle.std.specs.Prelude.{◌<◌};
    ghost use Rattle.cf_outside.specs.Shown.{MemShelfValue};

    ghost Value = { MemShelfValue };

    ghost view = { λ s. record { files = s.pile.files; rest = s.pile.rest; most = s.most; script = s.script } };

    ghost invariant = { λ s. 0 < s.most };
}

impl MemShelf {
    /// A shelf without files. `failing` has the numbers of the calls that are to fail, counted from
    /// 1 over `open` and `read` together. A read moves at most `most` bytes.
    pub fn new(alloc: Global, failing: Vec<u64>, most: usize) -> Self
        requires { 0 < most }
        ensures files { result.files ≡ [] }
        ensures rest { result.rest ≡ [] }
        ensures most { result.most ≡ most }
        ensures script { result.script ≡ script_of failing.items }
    {
        MemShelf {
            alloc,
            pile: Pile::new(alloc),
            script: Script::new(failing),
            most,
        }
    }

    /// Gives the name that file, in place of one that it had. What is left of the opened file stays.
    pub fn put(&mut self, name: &str, bytes: &[u8]) -> Result<(), Memory>
        ensures ok { OnOk result (self.new.files ≡ record { name = name.now; bytes = bytes.now } ∷ self.old.files) }
        ensures err { OnErr result (self.new.files ≡ self.old.files) }
        ensures rest { self.new.rest ≡ self.old.rest }
        ensures most { self.new.most ≡ self.old.most }
        ensures script { self.new.script ≡ self.old.script }
    {
        self.pile.put(self.alloc, name, bytes)
    }
}

impl Shelf for MemShelf {
    ghost use Rattle.std.specs.declared.option.Option.TheVariants.{Some, None};

    ghost files = { λ s. Some s.files };

    ghost rest = { λ s. Some s.rest };

    ghost moved = { λ _. None };

    ghost faults = { λ s. s.script.faults };

    fn open(&mut self, name: &str) -> Result<(), OpenFault>
        ensures files { Some self.new.files ≡ Some self.old.files }
        ensures opens { Opens (Some self.old.files) name.now (Some self.old.rest) (Some self.new.rest) result }
        ensures cause { HasOpenCause self.old.script.faults self.new.script.faults result }

        // It fails exactly where this call is to fail, and takes no memory.
        ensures failed { is_failed result ≡ fails_next self.old.script }
        ensures no_memory { result ≢ Err OpenFault.Memory }
        ensures script { self.new.script ≡ after_call (is_failed result) self.old.script }
        ensures most { self.new.most ≡ self.old.most }
    {
        let fails = self.script.fails_next();
        self.script.count(fails);
        if fails {
            return Err(OpenFault::Failed);
        }
        if self.pile.open(name) {
            Ok(())
        } else {
            Err(OpenFault::Missing)
        }
    }

    fn read(&mut self, buf: &mut [u8]) -> Result<usize, Failed>
        ensures files { Some self.new.files ≡ Some self.old.files }
        ensures bound { ReadsAtMost result buf.new }
        ensures bytes { ReadConsumes (Some self.old.rest) (Some self.new.rest) result buf.new }
        ensures noted { Notes None None result }
        ensures cause { HasCause self.old.script.faults self.new.script.faults result }

        // It fails exactly where this call is to fail, and else moves as many bytes as it may.
        ensures failed { is_err result ≡ fails_next self.old.script }
        ensures moved { IfOk result (λ n. n ≡ min self.old.most (min (length buf.old) (length self.old.rest))) }
        ensures script { self.new.script ≡ after_call (is_err result) self.old.script }
        ensures most { self.new.most ≡ self.old.most }
    {
        let fails = self.script.fails_next();
        self.script.count(fails);
        if fails {
            return Err(Failed);
        }
        Ok(self.pile.read(self.most, buf))
    }
}

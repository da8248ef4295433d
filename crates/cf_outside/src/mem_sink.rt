// A sink in memory, of a fixed room, of which chosen calls fail.
ghost use Rattle.std.specs.Prelude.{◌≡◌, ◌<◌, ◌-◌, ◌++◌, [], length, min, take, IfOk, MatchResult, is_err, Some};
ghost use Rattle.std.specs.Io.KnownBytes.{WriteAppends};
ghost use Rattle.cf_outside.specs.Causes.{HasCause, TakesSome};
ghost use Rattle.cf_outside.specs.Script.{script_of, after_call};
ghost use Rattle.cf_outside.specs.Shown.{IsFresh, refuses};

use crate::script::Script;
use crate::{Failed, Memory, Sink};
use std::alloc::Global;
use std::marker::Model;

/// Keeps what is written to it, and tells it. Memory is taken in `new` alone.
#[derive(Drop)]
pub struct MemSink {
    bytes: Vec<u8>,
    room: usize,
    script: Script,
    most: usize,
}

impl Model for MemSink {
    ghost use Rattle.std.specs.Prelude.{◌<◌, ◌≤◌, vec_capacity, vec_len, ◌+◌};
    ghost use Rattle.cf_outside.specs.Shown.{MemSinkValue};

    ghost Value = { MemSinkValue };

    ghost view = { λ s. record { held = s.bytes.items; room = s.room; most = s.most; script = s.script } };

    ghost invariant = { λ s. (0 < s.most) × (vec_len s.bytes + s.room ≤ vec_capacity s.bytes) };
}

impl MemSink {
    /// An empty sink with room for that many bytes. `failing` has the numbers of the writes that
    /// are to fail, counted from 1. A write takes at most `most` bytes.
    pub fn new(alloc: Global, room: usize, failing: Vec<u64>, most: usize) -> Result<Self, Memory>
        requires { 0 < most }
        ensures { IfOk result (IsFresh room most failing.items) }
    {
        Ok(MemSink {
            bytes: Vec::with_capacity(alloc, room)?,
            room,
            script: Script::new(failing),
            most,
        })
    }

    /// What the sink holds.
    pub fn held(&self) -> &[u8]
        ensures { result.now ≡ self.now.held }
    {
        &self.bytes
    }

    // Whether a write of that piece fails.
    fn refuses(&self, piece: &[u8]) -> bool
        ensures { result ≡ refuses self.now piece.now }
    {
        if self.script.fails_next() {
            return true;
        }
        self.room == 0 && !piece.is_empty()
    }
}

impl Sink for MemSink {
    ghost use Rattle.std.specs.declared.option.Option.TheVariants.{Some};

    ghost held = { λ s. Some s.held };

    ghost faults = { λ s. s.script.faults };

    /// A piece that isn't empty is refused where no room is left.
    fn write(&mut self, piece: &[u8]) -> Result<usize, Failed>
        ensures bound { TakesSome result piece.now }
        ensures bytes { WriteAppends (Some self.old.held) (Some self.new.held) result piece.now }
        ensures cause { HasCause self.old.script.faults self.new.script.faults result }

        // It fails exactly where this call is to fail or there is a byte and no room, and else
        // takes as many bytes as it may.
        ensures failed { is_err result ≡ refuses self.old piece.now }
        ensures taken { IfOk result (λ n. n ≡ min self.old.most (min self.old.room (length piece.now))) }
        ensures room { MatchResult result (λ n. self.new.room ≡ self.old.room - n) (λ _. self.new.room ≡ self.old.room) }
        ensures script { self.new.script ≡ after_call (is_err result) self.old.script }
        ensures most { self.new.most ≡ self.old.most }
    {
        let fails = self.refuses(piece);
        self.script.count(fails);
        if fails {
            return Err(Failed);
        }
        let count = self.most.min(self.room).min(piece.len());
        match self.bytes.extend_from_slice(&piece[..count]) {
            Ok(()) => {
                self.room -= count;
                Ok(count)
            }
            // The room was taken when the sink was made.
            Err(_) => unreachable!(),
        }
    }
}

// Which calls of a device in memory fail.
ghost use Rattle.std.specs.Prelude.{◌≡◌, ◌≤◌};
ghost use Rattle.cf_outside.specs.Script.{script_of, fails_next, after_call};

use std::marker::Model;

// The numbers of the calls that are to fail, counted from 1.
#[derive(Drop)]
pub(crate) struct Script {
    calls: u64,
    failing: Vec<u64>,
    faults: u64,
}

impl Model for Script {
    ghost use Rattle.cf_outside.specs.Script.{ScriptValue};

    ghost Value = { ScriptValue };

    ghost view = { λ s. record { calls = s.calls; failing = s.failing.items; faults = s.faults } };
}

impl Script {
    pub(crate) fn new(failing: Vec<u64>) -> Self
        ensures { result ≡ script_of failing.items }
    {
        Script {
            calls: 0,
            failing,
            faults: 0,
        }
    }

    // Whether the next call is to fail.
    pub(crate) fn fails_next(&self) -> bool
        ensures { result ≡ fails_next self.now }
    {
        self.failing.contains(&self.calls.saturating_add(1))
    }

    // Counts a call, and a fault where it failed.
    pub(crate) fn count(&mut self, failed: bool)
        ensures after { self.new ≡ after_call failed self.old }
        ensures later { self.old.faults ≤ self.new.faults }
    {
        self.calls = self.calls.saturating_add(1);
        if failed {
            self.faults = self.faults.saturating_add(1);
        }
    }
}

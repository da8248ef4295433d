// A gate that brings writers and a reader into one order.
ghost use Rattle.std.specs.Prelude.{◌≡◌, ◌≤◌, false};
ghost use Rattle.cf_outside.specs.Gate.{most_turns as turns_at_most};

use crate::Gate;
use std::sync::atomic::{AtomicU64, Ordering};
use std::thread::yield_now;

// How many turns a wait takes at most.
const TURNS: u32 = 10_000_000;

/// What the waits of a gate came to.
#[derive(Clone, Copy, Debug, PartialEq, Eq)]
pub enum Held {
    /// No call came.
    Unused,

    /// Each wait ended by its cause; the number of turns that all of them took.
    Answered(u64),

    /// Some wait came to the end of its turns.
    Exhausted,
}

// Where a call waits.
#[derive(Clone, Copy)]
enum Place {
    // Before a writer's first append.
    First,

    // After the first round of asks.
    Asked,

    // Before a writer's second append.
    Second,
}

// What one wait came to.
#[derive(Clone, Copy)]
struct Wait {
    // How many turns it took.
    turns: u32,

    // Whether what it waited for has come.
    came: bool,
}

/// Holds writers and a reader, so that each writer appends one record, the reader asks while those
/// records are there and no others, and then the writers go on while it asks again.
///
/// A writer's first `before_append` waits until each writer has made one and `after_ask(0)` was
/// called; `after_ask(0)` until each writer has called `before_append` twice; a writer's second
/// `before_append` until `after_ask(1)` was called. Other calls wait for nothing. A wait gives up
/// after ten million turns.
///
/// This is a test's tool: contracts say how many turns a wait takes at most, that it takes all of them before it gives up,
/// and that each call returns, but not what a wait waits for.
#[derive(Drop)]
pub struct HoldGate {
    writers: u8,
    most_turns: u32,
    calls: [AtomicU64; 16],
    asked: AtomicU64,
    asked_again: AtomicU64,
    turns: AtomicU64,
    exhausted: AtomicU64,
}

impl HoldGate {
    /// A gate for the writers from 0 on, of which 16 are counted at most.
    pub fn new(writers: u8) -> HoldGate
        ensures { turns_at_most result ≡ 10000000 }
    {
        HoldGate::with_turns(writers, TURNS)
    }

    // The same, with waits that give up after that many turns.
    pub(crate) fn with_turns(writers: u8, most_turns: u32) -> HoldGate
        ensures { turns_at_most result ≡ most_turns }
    {
        HoldGate {
            writers,
            most_turns,
            calls: [
                AtomicU64::new(0),
                AtomicU64::new(0),
                AtomicU64::new(0),
                AtomicU64::new(0),
                AtomicU64::new(0),
                AtomicU64::new(0),
                AtomicU64::new(0),
                AtomicU64::new(0),
                AtomicU64::new(0),
                AtomicU64::new(0),
                AtomicU64::new(0),
                AtomicU64::new(0),
                AtomicU64::new(0),
                AtomicU64::new(0),
                AtomicU64::new(0),
                AtomicU64::new(0),
            ],
            asked: AtomicU64::new(0),
            asked_again: AtomicU64::new(0),
            turns: AtomicU64::new(0),
            exhausted: AtomicU64::new(0),
        }
    }

    /// What the waits came to so far.
    pub fn report(&self) -> Held {
        if self.exhausted.load(Ordering::SeqCst) > 0 {
            Held::Exhausted
        } else if self.is_used() {
            Held::Answered(self.turns.load(Ordering::SeqCst))
        } else {
            Held::Unused
        }
    }

    // Whether some call came.
    fn is_used(&self) -> bool {
        self.asked.load(Ordering::SeqCst) > 0
            || self.asked_again.load(Ordering::SeqCst) > 0
            || self
                .calls
                .iter()
                .any(|count| count.load(Ordering::SeqCst) > 0)
    }

    // Whether each writer has called so often.
    fn all_called(&self, times: u64) -> bool {
        self.calls
            .iter()
            .take(usize::from(self.writers))
            .all(|count| count.load(Ordering::SeqCst) >= times)
    }

    // Whether what this place waits for has come.
    fn has_come(&self, place: Place) -> bool {
        match place {
            Place::First => self.all_called(1) && self.asked.load(Ordering::SeqCst) > 0,
            Place::Asked => self.all_called(2),
            Place::Second => self.asked_again.load(Ordering::SeqCst) > 0,
        }
    }

    // Waits at this place.
    fn wait_at(&self, place: Place) -> Wait
        ensures most { result.turns ≤ turns_at_most self.now }
        ensures gave_up { result.came ≡ false → result.turns ≡ turns_at_most self.now }
    {
        let most = self.most_turns;
        let mut turns = 0;
        while turns < most {
            if self.has_come(place) {
                return Wait { turns, came: true };
            }
            yield_now();
            turns += 1;
        }
        Wait { turns, came: false }
    }

    // Waits at this place, and notes what that came to.
    fn hold_at(&self, place: Place) {
        let wait = self.wait_at(place);
        self.turns
            .fetch_add(u64::from(wait.turns), Ordering::SeqCst);
        if !wait.came {
            self.exhausted.fetch_add(1, Ordering::SeqCst);
        }
    }
}

impl Gate for HoldGate {
    fn before_append(&self, writer: u8, _num: u32) {
        let Some(count) = self.calls.get(usize::from(writer)) else {
            return;
        };
        match count.fetch_add(1, Ordering::SeqCst) {
            0 => self.hold_at(Place::First),
            1 => self.hold_at(Place::Second),
            _ => {}
        }
    }

    fn after_ask(&self, round: u32) {
        match round {
            0 => {
                if self.asked.fetch_add(1, Ordering::SeqCst) == 0 {
                    self.hold_at(Place::Asked);
                }
            }
            1 => {
                self.asked_again.fetch_add(1, Ordering::SeqCst);
            }
            _ => {}
        }
    }
}

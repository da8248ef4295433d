// Gates: one notes what calls it, and one holds the threads of the second batch.
use cf_outside::{Gate, Held, HoldGate};
use cf_row::Memory;
use std::alloc::Global;
use std::sync::atomic::{AtomicU64, Ordering};

// Counts the calls of a load by two writers with two rounds beside each batch. Row k is writer k modulo 2's, and the rounds of a
// batch come in order, beside its own appends.
#[derive(Drop)]
pub(crate) struct NoteGate {
    // How often each row came, by its number.
    rows: Vec<AtomicU64>,
    appends: AtomicU64,
    rounds: AtomicU64,
    // How many calls were out of place.
    strays: AtomicU64,
}

impl NoteGate {
    // A gate for so many rows.
    pub(crate) fn new(alloc: Global, count: u32) -> Result<NoteGate, Memory> {
        let mut rows = Vec::new(alloc);
        for _ in 0..count {
            rows.push(AtomicU64::new(0))?;
        }
        Ok(NoteGate {
            rows,
            appends: AtomicU64::new(0),
            rounds: AtomicU64::new(0),
            strays: AtomicU64::new(0),
        })
    }

    // Whether each row came once, by its writer, and so many rounds, each in its place.
    pub(crate) fn has_noted(&self, rounds: u64) -> bool {
        self.rows
            .iter()
            .all(|count| count.load(Ordering::SeqCst) == 1)
            && self.rounds.load(Ordering::SeqCst) == rounds
            && self.strays.load(Ordering::SeqCst) == 0
    }
}

impl Gate for NoteGate {
    fn before_append(&self, writer: u8, num: u32) {
        self.appends.fetch_add(1, Ordering::SeqCst);
        match self.rows.get(num as usize) {
            Some(count) if num % 2 == u32::from(writer) => {
                count.fetch_add(1, Ordering::SeqCst);
            }
            _ => {
                self.strays.fetch_add(1, Ordering::SeqCst);
            }
        }
    }

    fn after_ask(&self, round: u32) {
        let before = self.rounds.fetch_add(1, Ordering::SeqCst);
        let first = (before / 2).saturating_mul(4096);
        let begun = self.appends.load(Ordering::SeqCst);
        let is_beside = first <= begun && begun <= first.saturating_add(4096);
        if u64::from(round) != before % 2 || !is_beside {
            self.strays.fetch_add(1, Ordering::SeqCst);
        }
    }
}

// Holds two writers and the reader of the second batch as a `HoldGate` does. Two rounds are made beside each batch.
#[derive(Drop)]
pub(crate) struct SecondGate {
    gate: HoldGate,
    rounds: AtomicU64,
}

impl SecondGate {
    pub(crate) fn new() -> SecondGate {
        SecondGate {
            gate: HoldGate::new(2),
            rounds: AtomicU64::new(0),
        }
    }

    // What the waits came to.
    pub(crate) fn report(&self) -> Held {
        self.gate.report()
    }
}

impl Gate for SecondGate {
    fn before_append(&self, writer: u8, num: u32) {
        if num >= 4096 {
            self.gate.before_append(writer, num);
        }
    }

    fn after_ask(&self, round: u32) {
        if self.rounds.fetch_add(1, Ordering::SeqCst) >= 2 {
            self.gate.after_ask(round);
        }
    }
}

//! What the store reaches outside itself: a shelf of files, a sink of bytes, and a gate where tests
//! hold workers. Each comes as a trait, as devices in memory whose contracts say all that they do,
//! and as the real device.
#![tactic(auto)]

mod gate;
mod hold_gate;
mod mem_shelf;
mod mem_sink;
mod noting;
mod pile;
mod script;
mod shelf;
mod sink;
mod steady;
mod system;

pub use gate::{FreeGate, Gate};
pub use hold_gate::{Held, HoldGate};
pub use mem_shelf::MemShelf;
pub use mem_sink::MemSink;
pub use noting::NotingShelf;
pub use shelf::{Failed, OpenFault, Shelf};
pub use sink::Sink;
use std::alloc::AllocError;
pub use steady::{SteadyShelf, SteadySink};
pub use system::{FileShelf, StdSink};

/// Out of memory, of a call that fails for no other reason.
pub type Memory = AllocError;

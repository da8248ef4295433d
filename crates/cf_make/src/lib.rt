//! Captures for tests: TCP and UDP packets whose fields a linear congruential generator draws from a seed.
#![tactic(auto)]

mod capture;
mod draw;
mod headers;
mod laws;
mod put;

pub use capture::make_capture;
pub use laws::each_generated_file_is_a_capture;

/// Want of memory.
pub type Memory = std::alloc::AllocError;

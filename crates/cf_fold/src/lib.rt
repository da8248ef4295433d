//! Quads of measured values, and the triggers that watch them.
#![tactic(auto)]

mod cell;
mod quad;
mod trigger;

pub use cell::{CellWords, link_in};
pub use quad::Quad;
pub use trigger::{Part, Trigger, fires};

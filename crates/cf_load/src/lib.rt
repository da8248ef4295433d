//! A log is loaded, segment by segment: its rows go into the current segment by as many writers as it has, each in a thread of
//! its own, while a reader asks the live questions of all entries so far.
#![tactic(auto)]

mod batch;
mod finals;
mod loader;
mod loads;
mod plan;
mod prior;
mod reader;
mod segment_asks;
mod writers;

pub use cf_segments::{Closing, Sealing, Segments, TurnFault};
pub use loader::Loader;
pub use loads::{BATCH, LoadFault, load};
pub use plan::LivePlan;

//! A log in segments, each a log of its own. They share one shape, and rows go to the last; those before it are closed.
//!
//! Their entries, end to end, are a log of all rows that they hold.
#![tactic(auto)]

mod cuts;
mod readers;
mod segments;

pub use segments::{Closing, Sealing, Segment, Segments, TurnFault};

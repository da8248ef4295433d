//! A log of one writer, whose pass has seen all that it has finished. A host of a snapshot has one, and so has each segment of a window.
//!
//! `Solo` covers a row as soon as it is appended, and keeps the last leaf in each lane, so that a row beside the one before costs
//! no walk from the root. The definitions in specs/ also say which nodes the rows of a log need.
#![tactic(auto)]

mod solo;

pub use solo::Solo;

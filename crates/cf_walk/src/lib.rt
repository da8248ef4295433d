//! The trees and chains of a shared log are walked: the entries of a lane whose key is in a range, and the quads of what it
//! measures of them, are found by the lane's nodes, heads and cells, and no other entry is looked at.
#![tactic(auto)]

mod chain;
mod finds;
mod key_range;
mod leaves;
mod measures;
mod quads;
mod range;
mod tree;

pub use finds::find;
pub use leaves::groups;
pub use measures::measure_range;

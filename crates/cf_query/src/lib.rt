//! Questions are asked of a shared log by any pass, while writers append.
//!
//! A list and a total go over all entries below their read tail, by the words that their expression compares, and so do
//! questions for groups of a lane that keeps the rows of a bucket apart, by the words of its expression, key and measure. All
//! other questions walk the tree and chains of their lane. Of what a pass has seen, a row, and all numbers and writers, are read
//! back.
#![tactic(auto)]

mod apart;
mod asks;
mod findings;
mod history;
mod rows;
mod scans;
mod selection;
mod tags;

pub use apart::groups_seen;
pub use asks::{ask, ask_seen, groups, measure, tail};
pub use findings::{finding, finding_seen};
pub use history::{questions_keep_their_place, seals_are_histories};
pub use rows::row;
pub use scans::{finding_stretch, goes_over_all};
pub use tags::push_tags;

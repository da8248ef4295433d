//! A capture is followed while it comes: what its rounds say is written read by read.
//!
//! `follow` reads the opened capture to its end. What it writes, and how it ends, is in `specs/Followed.antt`: the text of the rounds
//! on the window (cf_rounds), for the reads that the shelf made, and no more is held than the window and the rows of one read. Of a row
//! that goes into the window only the attributes are left that the setup names, and `ts` (cf_project). The text is the same:
//! `watching_means_the_same`.
#![tactic(auto)]

mod end;
mod ending;
mod gone;
mod laws;
mod left;
mod said;
mod truncated;
mod watch;

pub use cf_rounds::Intervals;
pub use ending::Ending;
pub use laws::{one_ending_is_due, watching_means_the_same};
pub use left::Left;
pub use truncated::push_truncated;
pub use watch::{Watch, follow};

//! What the rounds of a watched stream write, and its end.
#![tactic(auto)]

mod asked;
mod asks;
mod beat;
mod body;
mod fresh;
mod lanes;
mod laws;
mod lives;
mod marks;
mod rounds;

pub use laws::{none_goes_unseen, rounds_are_on_windows, windows_are_of_records};
pub use rounds::{Intervals, Rounds, Taken};

//! The last records of a stream, in segments that can be asked.
#![tactic(auto)]

mod find;
mod laws;
mod needed;
mod segment;
mod spare;
mod window;

pub use laws::{none_goes_unseen, rounds_are_on_windows, windows_are_few, windows_are_of_records};
pub use needed::nodes_needed;
pub use segment::WindowSegment;
pub use window::{Pushed, Window};

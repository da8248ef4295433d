//! Questions that go over all entries, split among threads by `rayon`.
//!
//! The entries of a log are cut into parts, and each part is scanned in place by a pass of its own. `scan` and `scan_total` do the
//! same to entries that stand in no log.
#![tactic(auto)]

mod found;
mod laws;
mod logs;
mod parts;
mod total;

pub use found::scan;
pub use laws::{scans_are_lists, scans_are_totals};
pub use logs::{answer_seen, scan_parts};
pub use parts::{Part, push_parts};
pub use total::scan_total;

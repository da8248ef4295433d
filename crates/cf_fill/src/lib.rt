//! A log that rows fill as they come, and the report of it.
//!
//! `fill_rows` fills it with the rows of a capture while the rest is read, `fill_drawn` with those of drawn packets. `report_of`
//! closes it, and writes what its setup asks.
#![tactic(auto)]

mod asked;
mod context;
mod drawn;
mod fill;
mod filling;
mod log;

pub use asked::plan_of;
pub use context::Context;
pub use drawn::fill_drawn;
pub use fill::fill_rows;
pub use filling::Filling;
pub use log::{Product, Unmade, closed_log, final_of, opened, report_of};

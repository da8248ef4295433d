//! A record is appended to a shared log by a writer's pass, and the read tail is moved over what is finished.
//!
//! A record's paths are made before its ticket is taken, and it is linked in each lane that selects its row before it is
//! finished.
#![tactic(auto)]

mod appends;
mod leaves;
mod links;
mod paths;
mod settles;

pub use appends::{AppendFault, append, append_near, append_wait};
pub use leaves::Leaves;
pub use settles::{Settled, settle};

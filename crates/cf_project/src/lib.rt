//! What a log needs of its rows: the attributes that its lanes and questions name, and `ts`.
//!
//! `named_by` says which these are, of a setup, and `named_attributes` of a shape and questions. `kept_setup`, `kept_shape`, `kept_asks` and
//! `kept_rows` leave the others out. What is left means the same.
#![tactic(auto)]

mod keep;
mod laws;
mod names;
mod setups;

pub use keep::{kept_asks, kept_rows, kept_shape};
pub use laws::{kept_are_lawful, kept_mean_the_same, named_are_kept, nothing_is_lost};
pub use names::named_attributes;
pub use setups::{kept_setup, kept_setups_are_setups, named_by};

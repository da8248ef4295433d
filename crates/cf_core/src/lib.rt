//! A world that runs: the words of a table and the passes over it, moved by events one at a time. An executable model of
//! the law, and no part of the program.
#![tactic(auto)]

mod cells;
mod event;
mod lanes;
mod world;

pub use event::{Act, Event};
pub use world::{World, step};

//! The shared table of a log, which any number of threads step on at once, without a lock.
//!
//! The table's words and the passes over it keep the law of `cf_law` as the rule of an `atomic_table`. Each step call
//! makes the event of its name by one atomic step on one word: it asks for a lawful `Step` of its pass, and tells its
//! caller what the word was and what its pass is afterwards (`HasStepped`).
#![tactic(auto)]

mod closes;
mod count;
mod deals;
mod loads;
mod log;
mod moves;
mod pass;
mod reads;
mod rule;
mod settles;
mod steps;
mod writes;

pub use closes::{Closed, Seal};
pub use count::Steps;
pub use log::MultiLog;
pub use pass::{BookNotes, Note, Pass, PassWith, ReaderPass, Root, WriterPass};
pub use rule::{Gives, Parts, Token};

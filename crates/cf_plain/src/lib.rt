//! A log of one thread: a list of rows, and what questions mean on it.
#![tactic(auto)]

mod answer;
mod ask;
mod calls;
mod finding;
mod heaviest;
mod history;
mod keys;
mod loaded;
mod plain;
mod scan;
mod segments;
mod total;

pub use answer::{Answer, Body, Fired, Group, Groups, Marks, Places};
pub use ask::{Ask, copy_asks, suits};
pub use calls::{Call, Reply, run_calls};
pub use finding::Finding;
pub use heaviest::{top, tops_are_heaviest};
pub use history::{replies_are_histories, spelled_are_histories};
pub use keys::read_keys;
pub use loaded::{Live, Loaded};
pub use plain::Plain;
pub use segments::{findings_tell_answers, merge_groups};
pub use total::{amount, total_of_expr};

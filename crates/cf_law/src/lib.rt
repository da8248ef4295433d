//! The steps of the passes over a log's table, and the law that they keep.
//!
//! A world has the words of a table and the passes that act on them. Each event is one step or move of one pass. `Step`
//! says when a step is lawful, which word it touches, what it leaves there and what the pass is afterwards; `IsEvent`
//! says the same of events; `Lawful` is the law. The functions here run nothing: their contracts are the theorems.
#![tactic(auto)]

mod laws;

pub use laws::{
    every_list_keeps_the_law, lawful_worlds_say_plainly, opening_is_empty,
    read_tail_covers_finished, seen_never_changes, steps_tell, words_tell, write_tail_is_bounded,
};

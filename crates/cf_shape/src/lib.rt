//! The shape of a log: its schema, its lanes and its sizes, and from these the place of every word of its table.
//!
//! A lane says which rows it takes, by which key, and what it measures of them. The table has the two tails, then the
//! words of each ticket, then the children of each lane's root, and last the words of each writer's nodes.
#![tactic(auto)]

mod keys;
mod kinds;
mod lane;
mod laws;
mod places;
mod shape;

pub use keys::{by, cell_size, keeps_apart, key, levels, measure, measures, selects};
pub use kinds::{is_lawful_measure, is_narrow, is_number};
pub use lane::{Key, Lane, belongs, copy_lanes};
pub use laws::places_differ;
pub use places::{
    place_cell, place_child, place_done, place_head, place_label, place_read_tail, place_root,
    place_ticket, place_word, place_write_tail, word_total,
};
pub use shape::{Shape, ShapeFault};

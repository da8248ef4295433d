//! The passes of a world and their books: what one caller holds and knows, and what each of its steps makes of that. An
//! executable model of the law, and no part of the program.
#![tactic(auto)]

mod nodes;
mod pass;

pub use nodes::{KnownNode, NodeSpot};
pub use pass::{OpenTicket, OwnTicket, PassState, WriterBook, empty_books};

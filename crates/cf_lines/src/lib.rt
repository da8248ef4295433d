//! The lines of a setup's text, the words of a line, and the list of a schema's attributes.
//!
//! A list states a schema where it is written as `specs/Schemas.antt` says, and no other text does.
#![tactic(auto)]

mod lines;
mod list;

pub use lines::{
    first_line, is_blank, is_name, is_silent, last_word, new_name, next_word, word_of,
};
pub use list::schema_of;

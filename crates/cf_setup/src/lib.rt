//! The text of a setup, and the shape of its log.
//!
//! A text is a setup, or has one first faulty line with the least code of a rule that it breaks. What lines state and which
//! rules they break are relations (`specs/SetupText.antt`), and `one_outcome` says that each text has just one outcome.
#![tactic(auto)]

mod aggregate;
mod ask;
mod ask_buckets;
mod ask_find;
mod ask_fired;
mod ask_groups;
mod ask_list;
mod ask_top;
mod ask_total;
mod draft;
mod fault;
mod filter;
mod form;
mod index;
mod line;
mod live;
mod parse;
mod schema;
mod setup;
mod source;
mod statement;
mod tally;
mod trigger;
mod values;
mod width;

pub use parse::{SetupFault, one_outcome, parse_setup};
pub use setup::{Setup, shape_of};
pub use source::Source;

//! The text of values and of filter expressions.
//!
//! A text is an expression of the schema, or has one first fault from the left, with its place in bytes. The grammar is a
//! relation between a text and its outcome (`specs/Grammar.antt`), and `one_outcome` says that each text has just one.
#![tactic(auto)]

mod atom;
mod bytes;
mod expr;
mod fault;
mod range;
mod value;

pub use atom::named_op;
pub use bytes::{Class, strip, unspaced};
pub use expr::{find_attr, one_outcome, parse_bytes, parse_expr};
pub use fault::{FilterFault, Offence, OffenceAt};
pub use value::{are_all, read_value};

// What is wrong with a text, and where.

use thiserror::Error;

/// What is wrong with a token.
#[derive(Clone, Copy, Debug, PartialEq, Eq)]
pub enum Offence {
    /// Another kind of token is wanted, or a value in one of the forms.
    Syntax,
    /// No attribute of the schema has this name.
    UnknownName,
    /// No operator, or none that the attribute has.
    BadOperator,
    /// In a form of values, but no value of the attribute, or a range whose low end is above the high one.
    ValueRange,
    /// The name of a 33rd atom would begin here.
    TooLong,
}

/// The first offending token, told by how many bytes are left where it begins.
#[derive(Clone, Copy, Debug, PartialEq, Eq)]
pub struct OffenceAt {
    pub offence: Offence,
    pub left: usize,
}

/// Why a text is no expression of the schema. A place is the number of bytes before the first offending token.
#[derive(Clone, Copy, Debug, PartialEq, Eq, Error)]
pub enum FilterFault {
    /// A token of another kind than the one that is wanted there, or a value in none of the forms.
    #[error("another token is wanted after {0} bytes")]
    Syntax(u32),
    /// A name that no attribute of the schema has.
    #[error("no attribute has the name after {0} bytes")]
    UnknownName(u32),
    /// A word that is no operator, or one that the attribute doesn't have: byte strings have `==` and `!=` alone.
    #[error("the attribute has no such operator as that after {0} bytes")]
    BadOperator(u32),
    /// A value that the attribute can't have, or a range whose low end is above the high one.
    #[error("the attribute has no such value as that after {0} bytes")]
    ValueRange(u32),
    /// More than 32 atoms.
    #[error("more than 32 atoms")]
    TooLong,
    /// Out of memory.
    #[error("out of memory")]
    Memory,
}

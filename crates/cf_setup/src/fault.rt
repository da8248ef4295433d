// The rules that lines break, by their codes, and why a line is not taken.
ghost use Rattle.std.specs.Prelude.{◌≡◌};
ghost use Rattle.cf_setup.specs.Codes.{code_number};
ghost use Rattle.cf_setup.specs.declared.fault.LineFault.TheVariants.{Breaks, Memory};

use std::alloc::{AllocError, AllocFailed};

/// The code of a rule that a line breaks.
#[derive(Clone, Copy, Debug, PartialEq, Eq)]
pub(crate) enum Code {
    /// A byte that is no printed ASCII.
    NotText = 1,
    /// No statement, or one that is out of place.
    BadStatement = 2,
    /// Not in the statement's form.
    BadForm = 3,
    /// A list that is of no schema.
    BadSchema = 4,
    /// A new name that is used, or an ask that is live.
    NameTaken = 5,
    /// A name of nothing of that kind.
    NoSuchName = 6,
    /// No number or value, or one out of range.
    BadNumber = 7,
    /// An attribute of another kind.
    BadAttribute = 8,
    /// A lane, trigger or ask that has no room, or a text that is too large.
    TooMany = 9,
    /// An expression that cannot be read.
    Syntax = 10,
    /// An expression over a name that is no attribute's.
    UnknownName = 11,
    /// An expression with an operator that its attribute does not have.
    BadOperator = 12,
    /// An expression with a value that its attribute cannot have.
    ValueRange = 13,
    /// An expression of more than 32 comparisons.
    TooLong = 14,
}

impl Code {
    /// The number that reports give for it.
    pub(crate) fn number(self) -> u8
        ensures { result ≡ code_number self }
    {
        self as u8
    }
}

/// Why a line is not taken.
#[derive(Clone, Copy, Debug, PartialEq, Eq)]
pub(crate) enum LineFault {
    /// It breaks the rule of this code, and none of a lesser code.
    Breaks(Code),
    /// Want of memory.
    Memory,
}

impl From<Code> for LineFault {
    ghost from_gives = { λ code e. e ≡ Breaks code };

    fn from(code: Code) -> Self {
        LineFault::Breaks(code)
    }
}

impl From<AllocError> for LineFault {
    ghost from_gives = { λ _ e. e ≡ Memory };

    fn from(_: AllocError) -> Self {
        LineFault::Memory
    }
}

impl<T: Drop> From<AllocFailed<T>> for LineFault {
    ghost from_gives = { λ _ e. e ≡ Memory };

    fn from(_: AllocFailed<T>) -> Self {
        LineFault::Memory
    }
}

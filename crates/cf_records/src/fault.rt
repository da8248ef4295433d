// What is wrong with a file of records.
ghost use Rattle.std.specs.Prelude.{◌≡◌};
ghost use Rattle.cf_records.specs.declared.fault.RecordFault.TheVariants.{Memory};

use std::alloc::{AllocError, AllocFailed};
use thiserror::Error;

/// Why a text is no file of the schema's records. Records are numbered from 0 behind the header, columns from 0.
#[derive(Clone, Copy, Debug, PartialEq, Eq, Error)]
pub enum RecordFault {
    /// No record at all.
    #[error("no record at all")]
    NoHeader,
    /// The first record is not the schema's names in order.
    #[error("the first record is not the names of the schema in order")]
    BadHeader,
    /// The record of that number has another number of fields than the schema.
    #[error("record {0} has another number of fields than the schema")]
    BadCount(u32),
    /// The record of that number has no lawful value in that column, and lawful ones before it.
    #[error("record {0} has no lawful value in column {1}")]
    BadValue(u32, u8),
    /// 2^24 bytes or more.
    #[error("the text has 2^24 bytes or more")]
    TooManyBytes,
    /// Out of memory.
    #[error("out of memory")]
    Memory,
}

impl From<AllocError> for RecordFault {
    ghost from_gives = { λ _ e. e ≡ Memory };

    fn from(_: AllocError) -> Self {
        RecordFault::Memory
    }
}

impl<T: Drop> From<AllocFailed<T>> for RecordFault {
    ghost from_gives = { λ _ e. e ≡ Memory };

    fn from(_: AllocFailed<T>) -> Self {
        RecordFault::Memory
    }
}

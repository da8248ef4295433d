// Why a stream is refused.
ghost use Rattle.std.specs.Prelude.{◌≡◌};
ghost use Rattle.cf_pcap.specs.declared.fault.PcapFault.TheVariants.{Memory};

use std::alloc::{AllocError, AllocFailed};
use thiserror::Error;

/// Why a stream is no capture. The number is that of the whole records before the fault, and 2^53 - 1 if there are more.
#[derive(Clone, Copy, Debug, PartialEq, Eq, Error)]
pub enum PcapFault {
    /// The first four bytes are no magic.
    #[error("the first four bytes are no magic of a capture")]
    BadMagic,
    /// The version isn't 2.4.
    #[error("the version isn't 2.4")]
    BadVersion,
    /// The link is none of those that are read ([`crate::LinkSet`]).
    #[error("the link is none of those that are read")]
    BadLink,
    /// A record's captured length is above 262,144 bytes ([`crate::LONGEST`]).
    #[error("the captured length of record {0} is above 262144 bytes")]
    FrameTooLong(u64),
    /// The stream ends inside the file header or a record.
    #[error("the stream ends inside the file header or a record, after {0} whole records")]
    Cut(u64),
    /// The stream has 2^32 bytes or more, and these are too many ([`crate::Scope`]).
    #[error("the stream has 2^32 bytes or more")]
    TooManyBytes,
    /// Out of memory, which is no fault of the stream.
    #[error("out of memory")]
    Memory,
}

impl From<AllocError> for PcapFault {
    ghost from_gives = { λ _ e. e ≡ Memory };

    fn from(_: AllocError) -> Self {
        PcapFault::Memory
    }
}

impl<T: Drop> From<AllocFailed<T>> for PcapFault {
    ghost from_gives = { λ _ e. e ≡ Memory };

    fn from(_: AllocFailed<T>) -> Self {
        PcapFault::Memory
    }
}

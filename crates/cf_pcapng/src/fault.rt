// Why a stream is refused.
ghost use Rattle.std.specs.Prelude.{◌≡◌};
ghost use Rattle.cf_pcapng.specs.File.{fault_of};
ghost use Rattle.cf_pcapng.specs.declared.fault.NgFault.TheVariants.{Memory};

use std::alloc::{AllocError, AllocFailed};
use thiserror::Error;

/// Why a stream is no capture. The number is that of the frames before the fault, and 2^53 - 1 if there are more.
#[derive(Clone, Copy, Debug, PartialEq, Eq, Error)]
pub enum NgFault {
    /// The first block is no section header, or a section header's byte-order magic is in neither order.
    #[error("a section header is missing or in neither byte order, after {0} frames")]
    BadMagic(u64),
    /// A section's major version isn't 1.
    #[error("a section's major version isn't 1, after {0} frames")]
    BadVersion(u64),
    /// A packet's interface has a link that is none of those that are read ([`cf_pcap::LinkSet`]).
    #[error("the link of packet {0} is none of those that are read")]
    BadLink(u64),
    /// A packet's captured length is above 262,144 bytes ([`cf_pcap::LONGEST`]).
    #[error("the captured length of packet {0} is above 262144 bytes")]
    FrameTooLong(u64),
    /// The stream ends inside a block, or before its first section header.
    #[error("the stream ends inside a block or before its first section header, after {0} frames")]
    Cut(u64),
    /// The stream has 2^32 bytes or more, and these are too many ([`cf_pcap::Scope`]).
    #[error("the stream has 2^32 bytes or more")]
    TooManyBytes,
    /// A total length is unlawful or stands differently at the block's end, or a packet's bytes don't fit.
    #[error("a length of a block is unlawful, after {0} frames")]
    BadLength(u64),
    /// A packet's interface isn't one of its section.
    #[error("the interface of packet {0} isn't one of its section")]
    NoInterface(u64),
    /// A section has more than 65,536 interfaces, in a stream of any length ([`cf_pcap::Length::Any`]), whose reader keeps them.
    #[error("a section has more than 65536 interfaces, after {0} frames")]
    TooManyInterfaces(u64),
    /// Out of memory, which is no fault of the stream.
    #[error("out of memory")]
    Memory,
}

/// What is wrong with a block.
#[derive(Clone, Copy, Debug, PartialEq, Eq)]
pub(crate) enum Flaw {
    BadMagic,
    BadVersion,
    BadLink,
    FrameTooLong,
    BadLength,
    NoInterface,
    TooManyInterfaces,
}

impl Flaw {
    // The fault of a stream that has it after so many frames.
    pub(crate) fn after(self, count: u64) -> NgFault
        ensures { result ≡ fault_of count self }
    {
        match self {
            Flaw::BadMagic => NgFault::BadMagic(count),
            Flaw::BadVersion => NgFault::BadVersion(count),
            Flaw::BadLink => NgFault::BadLink(count),
            Flaw::FrameTooLong => NgFault::FrameTooLong(count),
            Flaw::BadLength => NgFault::BadLength(count),
            Flaw::NoInterface => NgFault::NoInterface(count),
            Flaw::TooManyInterfaces => NgFault::TooManyInterfaces(count),
        }
    }
}

impl From<AllocError> for NgFault {
    ghost from_gives = { λ _ e. e ≡ Memory };

    fn from(_: AllocError) -> Self {
        NgFault::Memory
    }
}

impl<T: Drop> From<AllocFailed<T>> for NgFault {
    ghost from_gives = { λ _ e. e ≡ Memory };

    fn from(_: AllocFailed<T>) -> Self {
        NgFault::Memory
    }
}

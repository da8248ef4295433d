// How long a stream may be, and how what comes in it is counted.
ghost use Rattle.std.specs.Prelude.{◌≡◌, ◌+◌};
ghost use Rattle.cf_pcap.specs.Limits.{IsShort, HasRoom, first_of, others_of, total_on, count_on, num_of};

use crate::cut_at;

/// A limited stream has fewer bytes.
pub const LIMIT: usize = 1 << 32;

/// The greatest number by which a place in a stream is told.
const LAST: u64 = (1 << 53) - 1;

/// How long a file or a stream may be.
#[derive(Clone, Copy, Debug, PartialEq, Eq)]
pub enum Length {
    /// Below 2^32 bytes.
    Limited,
    /// Any number of bytes. Its bytes are not counted, and its frames only up to 2^53 - 1.
    Any,
}

impl Length {
    /// The first bytes of a piece and the others: where a stream's bytes are limited that many at most, and all where they are not.
    pub fn cut(self, piece: &[u8], most: usize) -> (&[u8], &[u8])
        ensures first { result.0.now ≡ first_of self most piece.now }
        ensures others { result.1.now ≡ others_of self most piece.now }
    {
        match self {
            Length::Any => (piece, &[]),
            Length::Limited => cut_at(piece, most),
        }
    }

    /// How many bytes a stream has after `more` of them: counted where their number is limited.
    pub fn total_after(self, total: usize, more: usize) -> usize
        requires { HasRoom self (total + more) }
        ensures { result ≡ total_on self total more }
    {
        match self {
            Length::Limited => total + more,
            Length::Any => total,
        }
    }

    /// How many frames came, after one more. They are counted up to 2^53 - 1.
    pub fn number_after(self, number: u64) -> u64
        requires { IsShort self (number + 1) }
        ensures { result ≡ count_on self number 1 }
    {
        if number < LAST { number + 1 } else { number }
    }

    /// The number of the frame that comes after so many others. Behind 2^32 - 1 of them it is always 2^32 - 1.
    pub fn frame_number(self, count: u64) -> u32
        requires { IsShort self count }
        ensures { result ≡ num_of self count }
    {
        count.min(u32::MAX as u64) as u32
    }
}

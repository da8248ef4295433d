// The byte order, the unit of time and the link of a capture, and its numbers.
ghost use Rattle.std.specs.Prelude.{◌≡◌, ◌≤◌, length};
ghost use Rattle.cf_pcap.specs.Capture.{number_in, tick_of as nanoseconds_of, layout_of as layout_at};

use byteorder::{BigEndian, ByteOrder, LittleEndian};

/// The magic of times in microseconds.
const MICROSECONDS: u32 = 0xa1b2_c3d4;

/// The magic of times in nanoseconds.
const NANOSECONDS: u32 = 0xa1b2_3c4d;

/// How numbers stand in the file.
#[derive(Clone, Copy, Debug, PartialEq, Eq)]
pub enum Order {
    Little,
    Big,
}

/// The unit of the fraction of a second.
#[derive(Clone, Copy, Debug, PartialEq, Eq)]
pub(crate) enum Precision {
    Micro,
    Nano,
}

/// What the magic states.
#[derive(Clone, Copy, Debug, PartialEq, Eq)]
pub(crate) struct Layout {
    pub order: Order,
    pub precision: Precision,
}

/// What the file header states.
#[derive(Clone, Copy, Debug, PartialEq, Eq)]
pub(crate) struct FileHeader {
    pub layout: Layout,
    pub link: u16,
}

impl Order {
    /// The 16-bit number at the front of the bytes.
    pub fn read_u16(self, bytes: &[u8]) -> u16
        requires { 2 ≤ length bytes.now }
        ensures { result ≡ number_in self 2 bytes.now }
    {
        match self {
            Order::Little => LittleEndian::read_u16(bytes),
            Order::Big => BigEndian::read_u16(bytes),
        }
    }

    /// The 32-bit number at the front of the bytes.
    #[inline]
    pub fn read_u32(self, bytes: &[u8]) -> u32
        requires { 4 ≤ length bytes.now }
        ensures { result ≡ number_in self 4 bytes.now }
    {
        match self {
            Order::Little => LittleEndian::read_u32(bytes),
            Order::Big => BigEndian::read_u32(bytes),
        }
    }
}

impl Precision {
    // The nanoseconds of a unit.
    pub(crate) fn tick(self) -> u64
        ensures value { result ≡ nanoseconds_of self }
        ensures small { result ≤ 1000 }
    {
        match self {
            Precision::Micro => 1000,
            Precision::Nano => 1,
        }
    }
}

// The layout that the magic at the front of the bytes states, if it is one.
pub(crate) fn layout_of(bytes: &[u8]) -> Option<Layout>
    requires { 4 ≤ length bytes.now }
    ensures { result ≡ layout_at bytes.now }
{
    let little = LittleEndian::read_u32(bytes);
    if little == MICROSECONDS {
        return Some(Layout {
            order: Order::Little,
            precision: Precision::Micro,
        });
    }
    if little == NANOSECONDS {
        return Some(Layout {
            order: Order::Little,
            precision: Precision::Nano,
        });
    }
    let big = BigEndian::read_u32(bytes);
    if big == MICROSECONDS {
        return Some(Layout {
            order: Order::Big,
            precision: Precision::Micro,
        });
    }
    if big == NANOSECONDS {
        return Some(Layout {
            order: Order::Big,
            precision: Precision::Nano,
        });
    }
    None
}

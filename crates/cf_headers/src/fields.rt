// The value of a field that stands at a place of a frame.
ghost use Rattle.std.specs.Prelude.{◌≡◌, ◌+◌, ◌≤◌, ◌<◌, ◌∷◌, [], length, IsTrue};
ghost use Rattle.cf_row.specs.declared.row.Value.TheVariants.{Num};
ghost use Rattle.cf_row.specs.Words.{value_words};
ghost use Rattle.cf_headers.specs.Packet.{byte_at as byte_value_at, number_at, address_if as address_value_if};

use byteorder::{BigEndian, ByteOrder};

// A number of 1 byte.
#[tactic(auto, unfolding(crate::specs::Packet::byte_at))]
pub(crate) fn byte_at(frame: &[u8], at: usize) -> u64
    requires { at + 1 ≤ length frame.now }
    ensures { Num result ≡ byte_value_at frame.now at }
{
    u64::from(frame[at])
}

// A number of 2 bytes.
#[tactic(auto, unfolding(crate::specs::Packet::number_at))]
pub(crate) fn u16_at(frame: &[u8], at: usize) -> u64
    requires { at + 2 ≤ length frame.now }
    ensures { Num result ≡ number_at 2 frame.now at }
{
    u64::from(BigEndian::read_u16(&frame[at..]))
}

// A number of 4 bytes.
#[tactic(auto, unfolding(crate::specs::Packet::number_at))]
pub(crate) fn u32_at(frame: &[u8], at: usize) -> u64
    requires { at + 4 ≤ length frame.now }
    ensures { Num result ≡ number_at 4 frame.now at }
{
    u64::from(BigEndian::read_u32(&frame[at..]))
}

// A number of 8 bytes.
#[tactic(auto, unfolding(crate::specs::Packet::number_at))]
pub(crate) fn u64_at(frame: &[u8], at: usize) -> u64
    requires { at + 8 ≤ length frame.now }
    ensures { Num result ≡ number_at 8 frame.now at }
{
    BigEndian::read_u64(&frame[at..])
}

// The word of an address of 6 bytes, where it is read.
pub(crate) fn address_if(read: bool, frame: &[u8], at: usize) -> u64
    requires { IsTrue read → at + 6 ≤ length frame.now }
    ensures { value_words (address_value_if read frame.now at) ≡ result ∷ [] }
{
    if !read {
        return 0;
    }
    let high = u64::from(BigEndian::read_u16(&frame[at..]));
    let low = u64::from(BigEndian::read_u32(&frame[at + 2..]));
    high * (1 << 32) + low
}

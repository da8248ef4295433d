// The headers behind an IPv6 header.
ghost use Rattle.std.specs.Prelude.{◌≡◌, ◌+◌, ◌≤◌, ◌<◌, length, IsTrue};
ghost use Rattle.cf_headers.specs.Ipv6.{is_extension as is_extension_of, extension_length as length_of, has_extension as has_extension_of};
ghost use Rattle.cf_headers.specs.Ipv6.{is_later_part as is_later_part_of, upper_after as upper_by};

use byteorder::{BigEndian, ByteOrder};

/// The most extension headers that are passed over.
const MOST: u8 = 8;

/// The header behind the extension headers of a packet.
#[derive(Clone, Copy, Debug, PartialEq, Eq)]
pub(crate) struct Upper {
    pub protocol: u8,
    /// Where it begins.
    pub place: usize,
    /// Whether the packet begins with it, and isn't the later part of a fragmented one.
    pub begins: bool,
}

// Whether a header of that type is an extension header.
fn is_extension(number: u8) -> bool
    ensures { result ≡ is_extension_of number }
{
    number == 0 || number == 43 || number == 60 || number == 51 || number == 44
}

// How many bytes an extension header of that type takes at a place.
fn extension_length(number: u8, at: usize, frame: &[u8]) -> usize
    requires { at + 2 ≤ length frame.now }
    ensures value { result ≡ length_of number at frame.now }
    ensures few { result ≤ 2048 }
{
    let units = frame[at + 1] as usize;
    match number {
        44 => 8,
        51 => 4 * (units + 2),
        _ => 8 * (units + 1),
    }
}

// Whether an extension header of that type stands whole at a place before the end.
#[tactic(auto, unfolding(crate::specs::Ipv6::has_extension))]
fn has_extension(number: u8, at: usize, end: usize, frame: &[u8]) -> bool
    requires at { at ≤ end }
    requires end { end ≤ length frame.now }
    ensures value { result ≡ has_extension_of number at end frame.now }
    ensures room { IsTrue result → at + 8 ≤ end }
    ensures fits { IsTrue result → at + length_of number at frame.now ≤ end }
{
    if !is_extension(number) || end - at < 8 {
        return false;
    }
    at + extension_length(number, at, frame) <= end
}

// Whether it is the fragment header of the later part of a packet.
#[tactic(auto, unfolding(crate::specs::Ipv6::is_later_part))]
fn is_later_part(number: u8, at: usize, frame: &[u8]) -> bool
    requires { at + 4 ≤ length frame.now }
    ensures { result ≡ is_later_part_of number at frame.now }
{
    number == 44 && BigEndian::read_u16(&frame[at + 2..]) / 8 != 0
}

// The header behind at most eight extension headers, the first of which is of that type.
pub(crate) fn upper_after(first: u8, start: usize, end: usize, frame: &[u8]) -> Upper
    requires start { start ≤ end }
    requires end { end ≤ length frame.now }
    ensures value { result ≡ upper_by 8 first start end frame.now }
    ensures within { result.place ≤ end }
{
    let mut left = MOST;
    let mut protocol = first;
    let mut at = start;
    while left > 0 {
        if !has_extension(protocol, at, end, frame) {
            return Upper {
                protocol,
                place: at,
                begins: true,
            };
        }
        let next = frame[at];
        if is_later_part(protocol, at, frame) {
            return Upper {
                protocol: next,
                place: at + 8,
                begins: false,
            };
        }
        at += extension_length(protocol, at, frame);
        protocol = next;
        left -= 1;
    }
    Upper {
        protocol,
        place: at,
        begins: true,
    }
}

// The IPv4 header, which would stand at a place of a frame.
ghost use Rattle.std.specs.Prelude.{◌≡◌, ◌+◌, ◌≤◌, length, map, IfSome, IsTrue};
ghost use Rattle.cf_row.specs.declared.row.Value.TheVariants.{Num};
ghost use Rattle.cf_headers.specs.Ipv4.{has_ipv4 as has_ipv4_of, transport_at as transport_at_of, total_length as total_length_of, packet_end as packet_end_of};
ghost use Rattle.cf_headers.specs.Ipv4.{carries as carries_of, transport4_in};
ghost use Rattle.cf_headers.specs.Carried.{carried4 as carried4_of, IsWithin};
ghost use Rattle.cf_headers.specs.Packet.{network4_values as network4_values_of};

use crate::carried::Carried;
use crate::fields::{byte_at, u16_at, u32_at};
use crate::transport::Transport;
use byteorder::{BigEndian, ByteOrder};

// Its type.
const IPV4: u16 = 0x0800;

// Its least length.
const LEAST: usize = 20;

// Where what it carries begins, if it is read.
fn transport_at(at: usize, frame: &[u8]) -> usize
    requires { at ≤ 28 }
    ensures value { result ≡ transport_at_of at frame.now }
    ensures near { result ≤ 88 }
{
    let first = frame.get(at).copied().unwrap_or(0);
    at + 4 * (first % 16) as usize
}

// Whether it stands there whole.
#[tactic(auto, unfolding(crate::specs::Ipv4::has_ipv4))]
pub(crate) fn has_ipv4(etype: u16, at: usize, frame: &[u8]) -> bool
    requires { at ≤ 28 }
    ensures value { result ≡ has_ipv4_of etype at frame.now }
    ensures room { IsTrue result → at + 20 ≤ length frame.now }
{
    if frame.len() < at + LEAST {
        return false;
    }
    etype == IPV4
        && frame[at] / 16 == 4
        && frame[at] % 16 >= 5
        && transport_at(at, frame) <= frame.len()
}

// The length of its packet, or 0.
fn total_length(at: usize, frame: &[u8]) -> usize
    requires { at + 20 ≤ length frame.now }
    ensures value { result ≡ total_length_of at frame.now }
    ensures few { result ≤ 65535 }
{
    BigEndian::read_u16(&frame[at + 2..]) as usize
}

// Where its packet ends.
#[tactic(auto, unfolding(crate::specs::Ipv4::packet_end))]
fn packet_end(at: usize, frame: &[u8]) -> usize
    requires near { at ≤ 28 }
    requires room { at + 20 ≤ length frame.now }
    ensures value { result ≡ packet_end_of at frame.now }
    ensures within { result ≤ length frame.now }
{
    let total = total_length(at, frame);
    if total == 0 {
        frame.len()
    } else {
        frame.len().min(at + total)
    }
}

// Whether the packet carries that protocol, and holds a header of that many bytes.
#[tactic(auto, unfolding(crate::specs::Ipv4::carries))]
fn carries(protocol: u8, bytes: u8, at: usize, frame: &[u8]) -> bool
    requires near { at ≤ 28 }
    requires room { at + 20 ≤ length frame.now }
    ensures value { result ≡ carries_of protocol bytes at frame.now }
    ensures within { IsTrue result → transport_at_of at frame.now + bytes ≤ length frame.now }
{
    let end = packet_end(at, frame);
    BigEndian::read_u16(&frame[at + 6..]) % (1 << 13) == 0
        && frame[at + 9] == protocol
        && transport_at(at, frame) + bytes as usize <= end
}

// The transport header that it carries, if one is read.
#[inline(always)]
#[tactic(auto, unfolding(crate::specs::Ipv4::transport4_in))]
fn transport4_of(at: usize, frame: &[u8]) -> Transport
    requires near { at ≤ 28 }
    requires room { at + 20 ≤ length frame.now }
    ensures value { result ≡ transport4_in at frame.now }
    ensures within { IsWithin result frame.now }
{
    if carries(6, 20, at, frame) {
        Transport::Tcp(transport_at(at, frame))
    } else if carries(17, 8, at, frame) {
        Transport::Udp(transport_at(at, frame))
    } else {
        Transport::Unread
    }
}

// What it says of what it carries. `wire` is the frame's length before it was captured.
#[inline(always)]
#[tactic(auto, unfolding(crate::specs::Carried::carried4))]
pub(crate) fn carried4(at: usize, wire: u32, frame: &[u8]) -> Carried
    requires near { at ≤ 28 }
    requires room { at + 20 ≤ length frame.now }
    ensures value { result ≡ carried4_of at wire frame.now }
    ensures transport { IsWithin result.transport frame.now }
    ensures message { IfSome result.message (λ place. place + 2 ≤ length frame.now) }
{
    let total = total_length(at, frame);
    Carried {
        protocol: frame[at + 9],
        transport: transport4_of(at, frame),
        message: if carries(1, 2, at, frame) {
            Some(transport_at(at, frame))
        } else {
            None
        },
        stop: if total == 0 {
            wire as usize
        } else {
            at + total
        },
    }
}

// tos, iplen, ttl, proto, src and dst.
#[inline(always)]
pub(crate) fn network4_words(at: usize, frame: &[u8]) -> [u64; 6]
    requires near { at ≤ 28 }
    requires room { at + 20 ≤ length frame.now }
    ensures { map Num result ≡ network4_values_of at frame.now }
{
    [
        byte_at(frame, at + 1),
        u16_at(frame, at + 2),
        byte_at(frame, at + 8),
        byte_at(frame, at + 9),
        u32_at(frame, at + 12),
        u32_at(frame, at + 16),
    ]
}

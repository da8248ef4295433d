// The IPv6 header, which would stand at a place of a frame.
ghost use Rattle.std.specs.Prelude.{◌≡◌, ◌+◌, ◌≤◌, ◌<◌, ◌^◌, length, map, IfSome, IsTrue};
ghost use Rattle.cf_row.specs.declared.row.Value.TheVariants.{Num};
ghost use Rattle.cf_headers.specs.Ipv6.{has_ipv6 as has_ipv6_of, traffic_class as traffic_class_of, payload_length as payload_length_of};
ghost use Rattle.cf_headers.specs.Ipv6.{packet6_end as packet6_end_of, brings as brings_of, transport6_in};
ghost use Rattle.cf_headers.specs.Carried.{carried6 as carried6_of, IsWithin};
ghost use Rattle.cf_headers.specs.Packet.{network6_values as network6_values_of};

use crate::carried::Carried;
use crate::extension::{Upper, upper_after};
use crate::fields::byte_at;
use crate::transport::Transport;
use byteorder::{BigEndian, ByteOrder};

// Its length.
const LENGTH: usize = 40;

// Whether it stands there whole.
#[tactic(auto, unfolding(crate::specs::Ipv6::has_ipv6))]
pub(crate) fn has_ipv6(etype: u16, at: usize, frame: &[u8]) -> bool
    requires { at ≤ 28 }
    ensures value { result ≡ has_ipv6_of etype at frame.now }
    ensures room { IsTrue result → at + 40 ≤ length frame.now }
{
    frame.len() >= at + LENGTH && etype == 0x86dd && frame[at] / 16 == 6
}

// The eight bits of its traffic class.
fn traffic_class(at: usize, frame: &[u8]) -> u8
    requires { at + 40 ≤ length frame.now }
    ensures { result ≡ traffic_class_of at frame.now }
{
    frame[at] % 16 * 16 + frame[at + 1] / 16
}

// The length of what comes behind its 40 bytes.
fn payload_length(at: usize, frame: &[u8]) -> usize
    requires { at + 40 ≤ length frame.now }
    ensures value { result ≡ payload_length_of at frame.now }
    ensures few { result < 2 ^ 16 }
{
    BigEndian::read_u16(&frame[at + 4..]) as usize
}

// Where its packet ends.
#[tactic(auto, unfolding(crate::specs::Ipv6::packet6_end))]
fn packet6_end(at: usize, frame: &[u8]) -> usize
    requires near { at ≤ 28 }
    requires room { at + 40 ≤ length frame.now }
    ensures value { result ≡ packet6_end_of at frame.now }
    ensures within { result ≤ length frame.now }
    ensures behind { at + 40 ≤ result }
{
    let payload = payload_length(at, frame);
    if payload == 0 {
        frame.len()
    } else {
        frame.len().min(at + LENGTH + payload)
    }
}

// Whether the upper header is that of the protocol, of a packet that begins with it, and has so many bytes before the end.
fn brings(protocol: u8, bytes: usize, upper: Upper, end: usize) -> bool
    requires end { upper.place ≤ end }
    ensures value { result ≡ brings_of protocol bytes upper end }
    ensures room { IsTrue result → upper.place + bytes ≤ end }
{
    upper.begins && upper.protocol == protocol && end - upper.place >= bytes
}

// The transport header that it is, if one is read.
#[tactic(auto, unfolding(crate::specs::Ipv6::transport6_in))]
fn transport6_of(upper: Upper, end: usize, frame: &[u8]) -> Transport
    requires place { upper.place ≤ end }
    requires end { end ≤ length frame.now }
    ensures value { result ≡ transport6_in upper end }
    ensures within { IsWithin result frame.now }
{
    if brings(6, 20, upper, end) {
        Transport::Tcp(upper.place)
    } else if brings(17, 8, upper, end) {
        Transport::Udp(upper.place)
    } else {
        Transport::Unread
    }
}

// What it says, with the headers behind it, of what it carries. `wire` is the frame's length before it was captured.
#[tactic(auto, unfolding(crate::specs::Carried::carried6, crate::specs::Ipv6::upper_of))]
pub(crate) fn carried6(at: usize, wire: u32, frame: &[u8]) -> Carried
    requires near { at ≤ 28 }
    requires room { at + 40 ≤ length frame.now }
    ensures value { result ≡ carried6_of at wire frame.now }
    ensures transport { IsWithin result.transport frame.now }
    ensures message { IfSome result.message (λ place. place + 2 ≤ length frame.now) }
{
    let payload = payload_length(at, frame);
    let end = packet6_end(at, frame);
    let upper = upper_after(frame[at + 6], at + LENGTH, end, frame);
    Carried {
        protocol: upper.protocol,
        transport: transport6_of(upper, end, frame),
        message: if brings(58, 2, upper, end) {
            Some(upper.place)
        } else {
            None
        },
        stop: if payload == 0 {
            wire as usize
        } else {
            at + LENGTH + payload
        },
    }
}

// tos, iplen, ttl and proto; src and dst are of IPv4 alone.
pub(crate) fn network6_words(protocol: u8, at: usize, frame: &[u8]) -> [u64; 6]
    requires near { at ≤ 28 }
    requires room { at + 40 ≤ length frame.now }
    ensures { map Num result ≡ network6_values_of protocol at frame.now }
{
    let length = (payload_length(at, frame) + LENGTH).min(65_535);
    [
        u64::from(traffic_class(at, frame)),
        length as u64,
        byte_at(frame, at + 7),
        u64::from(protocol),
        0,
        0,
    ]
}

// What a network header says of what it carries.
ghost use Rattle.std.specs.Prelude.{◌≡◌, ◌+◌, ◌≤◌, length, IfSome, IsTrue};
ghost use Rattle.cf_headers.specs.Carried.{carried_in as carried_by, transport_behind as transport_behind_of, kind_of as kind_in, IsWithin};

use crate::ipv6::carried6;
use crate::network::{carried4, has_ipv4};
use crate::transport::Transport;

/// What an IP packet carries.
#[derive(Clone, Copy)]
pub(crate) struct Carried {
    /// The protocol, by the last header that is passed over.
    pub protocol: u8,
    /// The transport header that is read.
    pub transport: Transport,
    /// Where an ICMP message begins, if its type and its code are captured.
    pub message: Option<usize>,
    /// Where the packet ends by its own length, captured or not.
    pub stop: usize,
}

// What the IPv6 header at a place carries, or the IPv4 header if there is one. `wire` is the frame's length before it was captured.
#[inline(always)]
pub(crate) fn carried_in(
    ipv6: bool,
    etype: u16,
    at: usize,
    wire: u32,
    frame: &[u8],
) -> Option<Carried>
    requires near { at ≤ 28 }
    requires room { IsTrue ipv6 → at + 40 ≤ length frame.now }
    ensures value { result ≡ carried_by ipv6 etype at wire frame.now }
    ensures room { IfSome result (λ carried. at + 20 ≤ length frame.now) }
    ensures transport { IfSome result (λ carried. IsWithin carried.transport frame.now) }
    ensures message { IfSome result (λ carried. IfSome carried.message (λ place. place + 2 ≤ length frame.now)) }
{
    if ipv6 {
        Some(carried6(at, wire, frame))
    } else if has_ipv4(etype, at, frame) {
        Some(carried4(at, wire, frame))
    } else {
        None
    }
}

// The transport header that is read.
pub(crate) fn transport_behind(carried: Option<Carried>) -> Transport
    ensures { result ≡ transport_behind_of carried }
{
    match carried {
        Some(carried) => carried.transport,
        None => Transport::Unread,
    }
}

// The kind of a packet: 2 for TCP, 3 for UDP, 1 for another one whose network header is read, 0 for the rest.
pub(crate) fn kind_of(carried: Option<Carried>) -> u8
    ensures { result ≡ kind_in carried }
{
    let Some(carried) = carried else {
        return 0;
    };
    match carried.transport {
        Transport::Unread => 1,
        Transport::Tcp(_) => 2,
        Transport::Udp(_) => 3,
    }
}

// The row of a captured packet.
ghost use Rattle.std.specs.Prelude.{◌≡◌, ◌+◌, ◌≤◌, ◌∷◌, ◌++◌, ◌-◌, length, map, take, replicate, IfOk, IfSome, IsOk, IsTrue};
ghost use Rattle.cf_row.specs.declared.row.Value.TheVariants.{Num};
ghost use Rattle.cf_row.specs.declared.schema.TheConstants.{MOST_ATTRS};
ghost use Rattle.cf_row.specs.Row.{Fits};
ghost use Rattle.cf_row.specs.Schema.{packet_attrs};
ghost use Rattle.cf_row.specs.Words.{values_words};
ghost use Rattle.cf_headers.specs.Frames.{frame_of};
ghost use Rattle.cf_headers.specs.Carried.{IsWithin};
ghost use Rattle.cf_headers.specs.Packet.{has_addresses as has_addresses_of, network_values as network_values_of};
ghost use Rattle.cf_headers.specs.Packet.{transport_values as transport_values_of, common_values as common_values_of, packet_row_of};

use crate::carried::{Carried, carried_in, kind_of, transport_behind};
use crate::fields::{address_if, byte_at, u16_at, u32_at};
use crate::frame::FrameInfo;
use crate::ipv6::network6_words;
use crate::layer::{Layer, network_layer};
use crate::network::network4_words;
use crate::transport::Transport;
use cf_pcap::{Frame, Link};
use cf_row::{MOST_ATTRS, Memory, PacketSchema, Row};
use std::alloc::Global;

// Whether the frame holds an Ethernet II header, with two addresses.
fn has_addresses(link: u16, frame: &[u8]) -> bool
    ensures value { result ≡ has_addresses_of link frame.now }
    ensures room { IsTrue result → 14 ≤ length frame.now }
{
    link == Link::Ethernet.number() && frame.len() >= 14
}

// tos, iplen, ttl, proto, src and dst.
#[inline(always)]
fn network_words(ipv6: bool, carried: Option<Carried>, at: usize, frame: &[u8]) -> [u64; 6]
    requires near { at ≤ 28 }
    requires short { IfSome carried (λ c. at + 20 ≤ length frame.now) }
    requires long { IsTrue ipv6 → at + 40 ≤ length frame.now }
    ensures { map Num result ≡ network_values_of ipv6 carried at frame.now }
{
    match carried {
        Some(carried) if ipv6 => network6_words(carried.protocol, at, frame),
        Some(_) => network4_words(at, frame),
        None => [0; 6],
    }
}

// sport, dport, seq, ack, flags and win.
#[inline(always)]
fn transport_words(transport: Transport, frame: &[u8]) -> [u64; 6]
    requires { IsWithin transport frame.now }
    ensures { map Num result ≡ transport_values_of transport frame.now }
{
    match transport {
        Transport::Unread => [0; 6],
        Transport::Tcp(at) => [
            u16_at(frame, at),
            u16_at(frame, at + 2),
            u32_at(frame, at + 4),
            u32_at(frame, at + 8),
            byte_at(frame, at + 13),
            u16_at(frame, at + 14),
        ],
        Transport::Udp(at) => [u16_at(frame, at), u16_at(frame, at + 2), 0, 0, 0, 0],
    }
}

/// How many values the rows of both schemas have.
pub(crate) const COMMON: usize = 20;

/// How many words may stand behind theirs.
pub(crate) const MORE: usize = MOST_ATTRS - COMMON;

// Of each value of a packet's row how many bytes it has, 0 for a number: two addresses have 6.
pub(crate) fn lens() -> [u8; MOST_ATTRS]
    ensures { result ≡ 0 ∷ 0 ∷ 0 ∷ 6 ∷ 6 ∷ replicate (MOST_ATTRS - 5) 0 }
{
    let mut lens = [0; MOST_ATTRS];
    lens[3] = 6;
    lens[4] = 6;
    lens
}

// The words of the values that the rows of both schemas have. `ipv6` says whether the network header is one of IPv6.
#[inline(always)]
pub(crate) fn common_words(
    ipv6: bool,
    carried: Option<Carried>,
    layer: Layer,
    info: FrameInfo,
    bytes: &[u8],
) -> [u64; COMMON]
    requires near { layer.place ≤ 28 }
    requires short { IfSome carried (λ c. layer.place + 20 ≤ length bytes.now) }
    requires long { IsTrue ipv6 → layer.place + 40 ≤ length bytes.now }
    requires transport { IfSome carried (λ c. IsWithin c.transport bytes.now) }
    ensures { result ≡ values_words (common_values_of ipv6 carried layer (frame_of info bytes.now)) }
{
    let read = has_addresses(info.link, bytes);
    let [tos, iplen, ttl, proto, src, dst] = network_words(ipv6, carried, layer.place, bytes);
    let [sport, dport, seq, ack, flags, win] = transport_words(transport_behind(carried), bytes);
    [
        info.ts,
        u64::from(info.caplen),
        u64::from(info.len),
        address_if(read, bytes, 0),
        address_if(read, bytes, 6),
        u64::from(layer.etype),
        u64::from(kind_of(carried)),
        tos,
        iplen,
        ttl,
        proto,
        src,
        dst,
        sport,
        dport,
        seq,
        ack,
        flags,
        win,
        u64::from(layer.vlan),
    ]
}

// The words of the values of both schemas, and others behind them.
#[inline(always)]
pub(crate) fn words_before(common: [u64; COMMON], rest: [u64; MORE]) -> [u64; MOST_ATTRS]
    ensures { result ≡ common ++ rest }
{
    let mut words = [0; MOST_ATTRS];
    words[..COMMON].copy_from_slice(&common);
    words[COMMON..].copy_from_slice(&rest);
    words
}

// The words of a packet's row, and zeros behind them.
#[inline(always)]
fn packet_words(info: FrameInfo, bytes: &[u8]) -> [u64; MOST_ATTRS]
    ensures { take 20 result ≡ values_words (packet_row_of (frame_of info bytes.now)).values }
{
    let layer = network_layer(PacketSchema::Packet, info.link, bytes);
    let carried = carried_in(false, layer.etype, layer.place, info.len, bytes);
    words_before(common_words(false, carried, layer, info, bytes), [0; MORE])
}

/// The row of a captured packet, of the packet schema, with the packet's number, from lent bytes. It is as [`packet_row`] says.
pub fn packet_row_of_bytes(info: FrameInfo, bytes: &[u8]) -> Row
    ensures row { result ≡ packet_row_of (frame_of info bytes.now) }
    ensures fits { Fits packet_attrs result }
{
    Row::of_words(info.num, COMMON as u8, lens(), packet_words(info, bytes))
}

/// The row of a captured packet, of the packet schema, with the packet's number. What isn't read is 0,
/// or zero bytes. One tag of 802.1Q is read, where it is whole. A transport header is read only from a
/// packet that isn't the later part of a fragmented one, and only within the total length that the IPv4
/// header states. A total length of 0 is taken for the captured length, since captures of a sender that
/// leaves segmentation to its device hold it. Of a link that is neither 1 nor 113 the type is read where
/// it stands in an Ethernet header, and no address. The row takes no block of memory, so it is never refused for want of one.
pub fn packet_row(_alloc: Global, frame: &Frame) -> Result<Row, Memory>
    ensures row { IfOk result (λ row. row ≡ packet_row_of frame.now) }
    ensures fits { IfOk result (Fits packet_attrs) }
    ensures free { IsOk result }
{
    Ok(packet_row_of_bytes(FrameInfo::of(frame), &frame.bytes))
}

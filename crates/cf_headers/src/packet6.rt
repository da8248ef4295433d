// The row of a captured packet with its IPv6 addresses and what more is asked of it.
ghost use Rattle.std.specs.Prelude.{◌≡◌, ◌+◌, ◌≤◌, ◌++◌, length, map, IfOk, IsOk, IsTrue};
ghost use Rattle.cf_row.specs.declared.row.Value.TheVariants.{Num};
ghost use Rattle.cf_row.specs.Row.{Fits};
ghost use Rattle.cf_row.specs.Schema6.{packet6_attrs};
ghost use Rattle.cf_row.specs.Words.{values_words};
ghost use Rattle.cf_pcap.specs.Capture.{FrameValue};
ghost use Rattle.cf_headers.specs.Frames.{frame_of};
ghost use Rattle.cf_headers.specs.Packet6.{address6_values as address6_values_of, packet6_row_of, Agrees};

use crate::carried::carried_in;
use crate::fields::u64_at;
use crate::frame::FrameInfo;
use crate::ipv6::has_ipv6;
use crate::layer::network_layer;
use crate::more::more_words;
use crate::packet::{MORE, common_words, lens, words_before};
use cf_pcap::Frame;
use cf_row::{MOST_ATTRS, Memory, PacketSchema, Row};
use std::alloc::Global;

// How many words the addresses have.
const ADDRESSES: usize = 4;

// src6, src6_low, dst6 and dst6_low.
fn address6_words(ipv6: bool, at: usize, frame: &[u8]) -> [u64; ADDRESSES]
    requires near { at ≤ 28 }
    requires room { IsTrue ipv6 → at + 40 ≤ length frame.now }
    ensures { map Num result ≡ address6_values_of ipv6 at frame.now }
{
    if !ipv6 {
        return [0; ADDRESSES];
    }
    [
        u64_at(frame, at + 8),
        u64_at(frame, at + 16),
        u64_at(frame, at + 24),
        u64_at(frame, at + 32),
    ]
}

// The words of the addresses, and the others behind them.
#[inline(always)]
fn more_before(addresses: [u64; ADDRESSES], more: [u64; MORE - ADDRESSES]) -> [u64; MORE]
    ensures { result ≡ addresses ++ more }
{
    let mut words = [0; MORE];
    words[..ADDRESSES].copy_from_slice(&addresses);
    words[ADDRESSES..].copy_from_slice(&more);
    words
}

// The words of a packet's row.
#[inline(always)]
fn packet6_words(info: FrameInfo, bytes: &[u8]) -> [u64; MOST_ATTRS]
    ensures { result ≡ values_words (packet6_row_of (frame_of info bytes.now)).values }
{
    let layer = network_layer(PacketSchema::Packet6, info.link, bytes);
    let ipv6 = has_ipv6(layer.etype, layer.place, bytes);
    let carried = carried_in(ipv6, layer.etype, layer.place, info.len, bytes);
    let common = common_words(ipv6, carried, layer, info, bytes);
    let rest = more_before(
        address6_words(ipv6, layer.place, bytes),
        more_words(ipv6, layer.place, carried, bytes),
    );
    words_before(common, rest)
}

/// The row of a captured packet, of the schema `packet6`, with the packet's number, from lent bytes. It is as [`packet6_row`] says.
pub fn packet6_row_of_bytes(info: FrameInfo, bytes: &[u8]) -> Row
    ensures row { result ≡ packet6_row_of (frame_of info bytes.now) }
    ensures fits { Fits packet6_attrs result }
{
    Row::of_words(
        info.num,
        MOST_ATTRS as u8,
        lens(),
        packet6_words(info, bytes),
    )
}

/// The row of a captured packet, of the schema `packet6`, with the packet's number. What isn't read is 0, or zero bytes. Of a
/// [`cf_pcap::Link`] the header is read, and two tags of 802.1Q or 802.1ad where they are whole; of another link nothing. Behind an IPv6
/// header at most eight extension headers are passed over. A length of 0 in an IP header is taken for the captured length, and for
/// `payload` for the original one. The row takes no block of memory, so it is never refused for want of one.
pub fn packet6_row(_alloc: Global, frame: &Frame) -> Result<Row, Memory>
    ensures row { IfOk result (λ row. row ≡ packet6_row_of frame.now) }
    ensures fits { IfOk result (Fits packet6_attrs) }
    ensures free { IsOk result }
{
    Ok(packet6_row_of_bytes(FrameInfo::of(frame), &frame.bytes))
}

/// The row of a packet of kind 1, 2 or 3 from a basic link is the begin of its row of `packet6`.
pub fn rows_of_both_schemas_agree()
    ensures { (packet : FrameValue) → Agrees packet }
{}

// What a whole block states.
ghost use Rattle.std.specs.Prelude.{◌≡◌, ◌≤◌, ◌+◌, ◌-◌, ◌*◌, ◌<◌, ◌^◌, length, drop, IfOk, slice_get};
ghost use Rattle.cf_pcap.specs.Capture.{number_in};
ghost use Rattle.cf_pcapng.specs.Blocks.{interface_at, packet_of as packet_by_rules, time_at, enhanced_of};
ghost use Rattle.cf_pcapng.specs.Blocks.{simple_caplen as simple_caplen_of, simple_of, stated as stated_by, content_of as content_by_rules, least};
ghost use Rattle.cf_pcapng.specs.Position.{interfaces_of};
ghost use Rattle.cf_pcapng.specs.Reading.{LiesIn};

use crate::fault::Flaw;
use crate::head::BlockKind;
use crate::interfaces::{Interface, Interfaces};
use crate::options::resolution_of;
use crate::times::nanoseconds_of;
use cf_pcap::{LONGEST, LinkSet, Order, Scope};

/// A packet of a block.
#[derive(Clone, Copy, Debug, PartialEq, Eq)]
pub(crate) struct Packet {
    /// In nanoseconds.
    pub ts: u64,
    pub caplen: u32,
    pub len: u32,
    /// That of its interface.
    pub link: u16,
    /// Where its bytes begin in the block.
    pub begin: u32,
}

/// What a block states.
#[derive(Clone, Copy, Debug, PartialEq, Eq)]
pub(crate) enum Content {
    NewSection(Order),
    NewInterface(Interface),
    Captures(Packet),
    Nothing,
}

// A packet in a block with room for so many bytes.
#[tactic(auto, unfolding(crate::specs::Blocks::packet_of))]
fn packet_of(links: LinkSet, room: usize, packet: Packet) -> Result<Content, Flaw>
    ensures value { result ≡ packet_by_rules links room packet }
    ensures fits { IfOk result (λ content. LiesIn (packet.begin + room) content) }
{
    if !links.reads(packet.link) {
        return Err(Flaw::BadLink);
    }
    if packet.caplen > LONGEST {
        return Err(Flaw::FrameTooLong);
    }
    if packet.caplen as usize > room {
        return Err(Flaw::BadLength);
    }
    Ok(Content::Captures(packet))
}

// The time of an enhanced packet.
fn time_of(order: Order, block: &[u8]) -> u64
    requires { 32 ≤ length block.now }
    ensures { result ≡ time_at order block.now }
{
    let high = order.read_u32(&block[12..]);
    let low = order.read_u32(&block[16..]);
    high as u64 * 4_294_967_296 + low as u64
}

fn enhanced_packet(
    links: LinkSet,
    interfaces: &Interfaces<'_>,
    order: Order,
    block: &[u8],
) -> Result<Content, Flaw>
    requires { 32 ≤ length block.now }
    ensures value { result ≡ enhanced_of links (slice_get (interfaces_of interfaces.now) (number_in order 4 (drop 8 block.now))) order block.now }
    ensures fits { IfOk result (LiesIn (length block.now)) }
{
    let number = order.read_u32(&block[8..]);
    let Some(interface) = interfaces.get(number as usize) else {
        return Err(Flaw::NoInterface);
    };
    let packet = Packet {
        ts: nanoseconds_of(interface.resolution, time_of(order, block)),
        caplen: order.read_u32(&block[20..]),
        len: order.read_u32(&block[24..]),
        link: interface.link,
        begin: 28,
    };
    packet_of(links, block.len() - 32, packet)
}

// The captured length of a simple packet.
fn simple_caplen(original: u32, snaplen: u32, room: u32) -> u32
    ensures { result ≡ simple_caplen_of original snaplen room }
{
    let cut = if snaplen == 0 {
        original
    } else {
        original.min(snaplen)
    };
    cut.min(room)
}

fn simple_packet(
    links: LinkSet,
    interfaces: &Interfaces<'_>,
    order: Order,
    block: &[u8],
) -> Result<Content, Flaw>
    requires least { 16 ≤ length block.now }
    requires most { length block.now < 2 ^ 32 }
    ensures value { result ≡ simple_of links (slice_get (interfaces_of interfaces.now) 0) order block.now }
    ensures fits { IfOk result (LiesIn (length block.now)) }
{
    let Some(interface) = interfaces.get(0) else {
        return Err(Flaw::NoInterface);
    };
    let original = order.read_u32(&block[8..]);
    let room = block.len() - 16;
    let packet = Packet {
        ts: 0,
        caplen: simple_caplen(original, interface.snaplen, room as u32),
        len: original,
        link: interface.link,
        begin: 12,
    };
    packet_of(links, room, packet)
}

// The interface that an interface description block states.
fn interface_of(order: Order, block: &[u8]) -> Interface
    requires { 20 ≤ length block.now }
    ensures { result ≡ interface_at order block.now }
{
    Interface {
        link: order.read_u16(&block[8..]),
        snaplen: order.read_u32(&block[12..]),
        resolution: resolution_of(order, &block[16..block.len() - 4]),
    }
}

// What a block of this kind states, if its last field is its length.
fn content_of_kind(
    scope: Scope,
    interfaces: &Interfaces<'_>,
    order: Order,
    kind: BlockKind,
    block: &[u8],
) -> Result<Content, Flaw>
    requires least { least kind ≤ length block.now }
    requires most { length block.now < 2 ^ 32 }
    ensures value { result ≡ stated_by scope (interfaces_of interfaces.now) order kind block.now }
    ensures fits { IfOk result (LiesIn (length block.now)) }
{
    match kind {
        BlockKind::SectionHeader => {
            if order.read_u16(&block[12..]) != 1 {
                return Err(Flaw::BadVersion);
            }
            Ok(Content::NewSection(order))
        }
        BlockKind::InterfaceDescription => {
            if !interfaces.has_place(scope.length) {
                return Err(Flaw::TooManyInterfaces);
            }
            Ok(Content::NewInterface(interface_of(order, block)))
        }
        BlockKind::EnhancedPacket => enhanced_packet(scope.links, interfaces, order, block),
        BlockKind::SimplePacket => simple_packet(scope.links, interfaces, order, block),
        BlockKind::Other => Ok(Content::Nothing),
    }
}

// What a whole block states, or its flaw.
#[tactic(auto, unfolding(crate::specs::Blocks::content_of))]
pub(crate) fn content_of(
    scope: Scope,
    interfaces: &Interfaces<'_>,
    order: Order,
    kind: BlockKind,
    block: &[u8],
) -> Result<Content, Flaw>
    requires least { least kind ≤ length block.now }
    requires most { length block.now < 2 ^ 32 }
    ensures value { result ≡ content_by_rules scope (interfaces_of interfaces.now) order kind block.now }
    ensures fits { IfOk result (LiesIn (length block.now)) }
{
    let last = order.read_u32(&block[block.len() - 4..]);
    if last as usize != block.len() {
        return Err(Flaw::BadLength);
    }
    content_of_kind(scope, interfaces, order, kind, block)
}

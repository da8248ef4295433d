// What comes after the link header and the tags of a frame.
ghost use Rattle.std.specs.Prelude.{◌≡◌, ◌+◌, ◌≤◌, length, IsTrue};
ghost use Rattle.cf_headers.specs.Layers.{type_or_0, version_type as type_by_version, family_type as type_by_family, is_family6 as is_family6_of};
ghost use Rattle.cf_headers.specs.Layers.{link_by as link_by_of, link_layer as link_layer_of, is_tag as is_tag_of, has_tag as has_tag_of, past_tag as past_tag_of, network_layer as network_layer_of};

use byteorder::{BigEndian, ByteOrder, LittleEndian};
use cf_pcap::Link;
use cf_row::PacketSchema;

/// The type of IPv4.
const IPV4: u16 = 0x0800;

/// The type of IPv6.
const IPV6: u16 = 0x86dd;

/// What comes next in a frame.
#[derive(Clone, Copy, Debug, PartialEq, Eq)]
pub(crate) struct Layer {
    pub etype: u16,
    /// Where it begins.
    pub place: usize,
    /// The number of the VLAN in the first tag before it, or 0.
    pub vlan: u16,
}

// The type of 2 bytes at that place, or 0 where the frame ends before.
fn number_or_0(frame: &[u8], at: usize) -> u16
    requires { at ≤ 14 }
    ensures { result ≡ type_or_0 frame.now at }
{
    if frame.len() >= at + 2 {
        BigEndian::read_u16(&frame[at..])
    } else {
        0
    }
}

// The type by the version of the IP header at the front.
fn version_type(frame: &[u8]) -> u16
    ensures { result ≡ type_by_version frame.now }
{
    if frame.len() < 1 {
        return 0;
    }
    match frame[0] / 16 {
        4 => IPV4,
        6 => IPV6,
        _ => 0,
    }
}

// Whether it is AF_INET6 of some system.
fn is_family6(number: u32) -> bool
    ensures { result ≡ is_family6_of number }
{
    number == 10 || number == 24 || number == 28 || number == 30
}

// The type by the protocol family at the front, in either byte order.
#[tactic(auto, unfolding(crate::specs::Layers::family_type))]
fn family_type(frame: &[u8]) -> u16
    ensures { result ≡ type_by_family frame.now }
{
    if frame.len() < 4 {
        return 0;
    }
    let little = LittleEndian::read_u32(frame);
    let big = BigEndian::read_u32(frame);
    if little == 2 || big == 2 {
        IPV4
    } else if is_family6(little) || is_family6(big) {
        IPV6
    } else {
        0
    }
}

// The link whose header is read, by the link's number.
#[inline(always)]
fn link_by(schema: PacketSchema, link: u16) -> Option<Link>
    ensures { result ≡ link_by_of schema link }
{
    match schema {
        PacketSchema::Packet if link == Link::LinuxCooked.number() => Some(Link::LinuxCooked),
        PacketSchema::Packet => Some(Link::Ethernet),
        PacketSchema::Packet6 => Link::of(link),
    }
}

// What comes after the link header.
#[inline(always)]
#[tactic(auto, unfolding(crate::specs::Layers::link_layer))]
fn link_layer(schema: PacketSchema, link: u16, frame: &[u8]) -> Layer
    ensures value { result ≡ link_layer_of schema link frame.now }
    ensures near { result.place ≤ 20 }
{
    let (etype, place) = match link_by(schema, link) {
        Some(Link::Ethernet) => (number_or_0(frame, 12), 14),
        Some(Link::LinuxCooked) => (number_or_0(frame, 14), 16),
        Some(Link::LinuxCookedV2) => (number_or_0(frame, 0), 20),
        Some(Link::RawIp | Link::Ipv4 | Link::Ipv6) => (version_type(frame), 0),
        Some(Link::Null | Link::Loop) => (family_type(frame), 4),
        None => (0, 0),
    };
    Layer {
        etype,
        place,
        vlan: 0,
    }
}

// Whether it is the type of a tag.
fn is_tag(schema: PacketSchema, etype: u16) -> bool
    ensures { result ≡ is_tag_of schema etype }
{
    match schema {
        PacketSchema::Packet => etype == 0x8100,
        PacketSchema::Packet6 => etype == 0x8100 || etype == 0x88a8,
    }
}

// Whether a whole tag comes next.
#[tactic(auto, unfolding(crate::specs::Layers::has_tag))]
fn has_tag(schema: PacketSchema, layer: Layer, frame: &[u8]) -> bool
    requires { layer.place ≤ 24 }
    ensures value { result ≡ has_tag_of schema layer frame.now }
    ensures room { IsTrue result → layer.place + 4 ≤ length frame.now }
{
    is_tag(schema, layer.etype) && frame.len() >= layer.place + 4
}

// What comes after a tag, if one comes next.
#[tactic(auto, unfolding(crate::specs::Layers::past_tag))]
fn past_tag(schema: PacketSchema, layer: Layer, frame: &[u8]) -> Layer
    requires { layer.place ≤ 24 }
    ensures value { result ≡ past_tag_of schema layer frame.now }
    ensures near { result.place ≤ layer.place + 4 }
{
    if !has_tag(schema, layer, frame) {
        return layer;
    }
    Layer {
        etype: BigEndian::read_u16(&frame[layer.place + 2..]),
        place: layer.place + 4,
        vlan: BigEndian::read_u16(&frame[layer.place..]) % (1 << 12),
    }
}

// What comes after the link header and the tags that the schema reads.
#[inline(always)]
pub(crate) fn network_layer(schema: PacketSchema, link: u16, frame: &[u8]) -> Layer
    ensures value { result ≡ network_layer_of schema link frame.now }
    ensures near { result.place ≤ 28 }
{
    let first = past_tag(schema, link_layer(schema, link, frame), frame);
    match schema {
        PacketSchema::Packet => first,
        PacketSchema::Packet6 => Layer {
            vlan: first.vlan,
            ..past_tag(schema, first, frame)
        },
    }
}

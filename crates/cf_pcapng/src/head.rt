// The type and the total length of a block.
ghost use Rattle.std.specs.Prelude.{◌≡◌, ◌≤◌, length};
ghost use Rattle.cf_pcapng.specs.Blocks.{kind_of as kind_of_type, order_at, is_total, sized as sized_head, section_head as section_head_of, head_of as head_at};

use crate::fault::Flaw;
use byteorder::{BigEndian, ByteOrder, LittleEndian};
use cf_pcap::Order;

/// The type of a section header, in both byte orders.
const SECTION: u32 = 0x0a0d_0d0a;

/// The byte-order magic.
const MAGIC: u32 = 0x1a2b_3c4d;

/// The most bytes of a block that is read.
const LARGEST: u32 = 1 << 20;

/// What a block is.
#[derive(Clone, Copy, Debug, PartialEq, Eq)]
pub(crate) enum BlockKind {
    SectionHeader,
    InterfaceDescription,
    EnhancedPacket,
    SimplePacket,
    /// Any other, which is passed over.
    Other,
}

/// What the bytes at the front show of a block.
#[derive(Clone, Copy, Debug, PartialEq, Eq)]
pub(crate) enum BlockHead {
    /// Too few bytes.
    Short,
    /// A block that can't be lawful.
    Flawed(Flaw),
    /// A block of this byte order, kind and total length.
    Stands(Order, BlockKind, u32),
}

// The kind of a block of this type, other than a section header.
fn kind_of(number: u32) -> BlockKind
    ensures { result ≡ kind_of_type number }
{
    match number {
        1 => BlockKind::InterfaceDescription,
        6 => BlockKind::EnhancedPacket,
        3 => BlockKind::SimplePacket,
        _ => BlockKind::Other,
    }
}

// The byte order of a section, by its magic.
fn order_of(bytes: &[u8]) -> Option<Order>
    requires { 12 ≤ length bytes.now }
    ensures { result ≡ order_at bytes.now }
{
    if LittleEndian::read_u32(&bytes[8..]) == MAGIC {
        return Some(Order::Little);
    }
    if BigEndian::read_u32(&bytes[8..]) == MAGIC {
        return Some(Order::Big);
    }
    None
}

// Whether a block of this kind may have so many bytes.
fn may_have(kind: BlockKind, total: u32) -> bool
    ensures { result ≡ is_total kind total }
{
    if total % 4 != 0 {
        return false;
    }
    match kind {
        BlockKind::SectionHeader => total >= 28 && total <= LARGEST,
        BlockKind::InterfaceDescription => total >= 20 && total <= LARGEST,
        BlockKind::EnhancedPacket => total >= 32 && total <= LARGEST,
        BlockKind::SimplePacket => total >= 16 && total <= LARGEST,
        BlockKind::Other => total >= 12,
    }
}

// The head of a block of this byte order and kind, by its total length.
#[tactic(auto, unfolding(crate::specs::Blocks::sized))]
fn head_of_kind(order: Order, kind: BlockKind, bytes: &[u8]) -> BlockHead
    requires { 8 ≤ length bytes.now }
    ensures { result ≡ sized_head order kind bytes.now }
{
    let total = order.read_u32(&bytes[4..]);
    if may_have(kind, total) {
        BlockHead::Stands(order, kind, total)
    } else {
        BlockHead::Flawed(Flaw::BadLength)
    }
}

// The head of a section header.
#[tactic(auto, unfolding(crate::specs::Blocks::section_head))]
fn section_head(bytes: &[u8]) -> BlockHead
    ensures { result ≡ section_head_of bytes.now }
{
    if bytes.len() < 12 {
        return BlockHead::Short;
    }
    match order_of(bytes) {
        None => BlockHead::Flawed(Flaw::BadMagic),
        Some(order) => head_of_kind(order, BlockKind::SectionHeader, bytes),
    }
}

// What the bytes at the front show of a block in a section of this byte order, or outside of any.
#[tactic(auto, unfolding(crate::specs::Blocks::head_of))]
pub(crate) fn head_of(section: Option<Order>, bytes: &[u8]) -> BlockHead
    ensures { result ≡ head_at section bytes.now }
{
    if bytes.len() < 4 {
        return BlockHead::Short;
    }
    if LittleEndian::read_u32(bytes) == SECTION {
        return section_head(bytes);
    }
    let Some(order) = section else {
        return BlockHead::Flawed(Flaw::BadMagic);
    };
    if bytes.len() < 8 {
        return BlockHead::Short;
    }
    head_of_kind(order, kind_of(order.read_u32(bytes)), bytes)
}

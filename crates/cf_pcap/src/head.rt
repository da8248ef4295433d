// The file header.
ghost use Rattle.std.specs.Prelude.{◌≡◌, ◌≤◌, length};
ghost use Rattle.cf_pcap.specs.File.{is_version as is_version_at, by_link as head_by_link, head_of as head_at};

use crate::form::{FileHeader, Layout, layout_of};
use crate::{LinkSet, PcapFault};

/// The length of the file header.
pub(crate) const HEADER: usize = 24;

/// What the first bytes of a file show of its header.
#[derive(Clone, Copy, Debug, PartialEq, Eq)]
pub(crate) enum HeaderShown {
    /// Too few bytes.
    Short,
    /// No file header begins so.
    Faulty(PcapFault),
    /// The header is whole.
    Stands(FileHeader),
}

// Whether the version is 2.4.
fn is_version(layout: Layout, bytes: &[u8]) -> bool
    requires { 8 ≤ length bytes.now }
    ensures { result ≡ is_version_at layout bytes.now }
{
    layout.order.read_u16(&bytes[4..]) == 2 && layout.order.read_u16(&bytes[6..]) == 4
}

// What a header of this layout shows by its link.
fn by_link(links: LinkSet, layout: Layout, bytes: &[u8]) -> HeaderShown
    ensures { result ≡ head_by_link links layout bytes.now }
{
    if bytes.len() < HEADER {
        return HeaderShown::Short;
    }
    let link = (layout.order.read_u32(&bytes[20..]) % 65536) as u16;
    if !links.reads(link) {
        return HeaderShown::Faulty(PcapFault::BadLink);
    }
    HeaderShown::Stands(FileHeader { layout, link })
}

// What the first bytes of a file show of its header.
#[tactic(auto, unfolding(crate::specs::File::head_of))]
pub(crate) fn head_of(links: LinkSet, bytes: &[u8]) -> HeaderShown
    ensures { result ≡ head_at links bytes.now }
{
    if bytes.len() < 4 {
        return HeaderShown::Short;
    }
    let Some(layout) = layout_of(bytes) else {
        return HeaderShown::Faulty(PcapFault::BadMagic);
    };
    if bytes.len() < 8 {
        return HeaderShown::Short;
    }
    if !is_version(layout, bytes) {
        return HeaderShown::Faulty(PcapFault::BadVersion);
    }
    by_link(links, layout, bytes)
}

// Which captures are read.
ghost use Rattle.std.specs.Prelude.{◌≡◌};
ghost use Rattle.cf_pcap.specs.Links.{limited as limited_to, unlimited as unlimited_of};

use crate::{Length, LinkSet};

/// Which captures a reader reads: of which links, and how long they may be.
#[derive(Clone, Copy, Debug, PartialEq, Eq)]
pub struct Scope {
    pub links: LinkSet,
    pub length: Length,
}

impl Scope {
    /// Captures of these links below 2^32 bytes.
    pub fn limited(links: LinkSet) -> Scope
        ensures { result ≡ limited_to links }
    {
        Scope {
            links,
            length: Length::Limited,
        }
    }

    /// Captures of these links of any length.
    pub fn unlimited(links: LinkSet) -> Scope
        ensures { result ≡ unlimited_of links }
    {
        Scope {
            links,
            length: Length::Any,
        }
    }
}

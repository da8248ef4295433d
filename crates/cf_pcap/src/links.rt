// The links of captures.
ghost use Rattle.std.specs.Prelude.{◌≡◌, Some};
ghost use Rattle.cf_pcap.specs.Links.{number_of, link_of as link_by_number, has as has_link, is_link as is_link_of};

/// A link whose frames are read, by the registry of link-layer header types (tcpdump.org/linktypes.html).
#[derive(Clone, Copy, Debug, PartialEq, Eq)]
pub enum Link {
    /// LINKTYPE_ETHERNET, 1.
    Ethernet,
    /// LINKTYPE_LINUX_SLL, 113: cooked frames of Linux.
    LinuxCooked,
    /// LINKTYPE_LINUX_SLL2, 276: cooked frames of Linux, version 2.
    LinuxCookedV2,
    /// LINKTYPE_RAW, 101: IPv4 or IPv6 without a link header.
    RawIp,
    /// LINKTYPE_IPV4, 228.
    Ipv4,
    /// LINKTYPE_IPV6, 229.
    Ipv6,
    /// LINKTYPE_NULL, 0: the loopback of BSD, with its family in the byte order of the host.
    Null,
    /// LINKTYPE_LOOP, 108: the loopback of OpenBSD.
    Loop,
}

/// The links that a reader reads.
#[derive(Clone, Copy, Debug, PartialEq, Eq)]
pub enum LinkSet {
    /// Ethernet and Linux SLL.
    Basic,
    /// Each [`Link`].
    All,
}

impl Link {
    /// The link of that number, if it has a name here.
    pub fn of(number: u16) -> Option<Link>
        ensures { result ≡ link_by_number number }
    {
        match number {
            1 => Some(Link::Ethernet),
            113 => Some(Link::LinuxCooked),
            276 => Some(Link::LinuxCookedV2),
            101 => Some(Link::RawIp),
            228 => Some(Link::Ipv4),
            229 => Some(Link::Ipv6),
            0 => Some(Link::Null),
            108 => Some(Link::Loop),
            _ => None,
        }
    }

    /// Its number in the registry.
    pub fn number(self) -> u16
        ensures value { result ≡ number_of self }
        ensures named { link_by_number result ≡ Some self }
    {
        match self {
            Link::Ethernet => 1,
            Link::LinuxCooked => 113,
            Link::LinuxCookedV2 => 276,
            Link::RawIp => 101,
            Link::Ipv4 => 228,
            Link::Ipv6 => 229,
            Link::Null => 0,
            Link::Loop => 108,
        }
    }
}

impl LinkSet {
    /// Whether frames of this link are read.
    pub fn has(self, link: Link) -> bool
        ensures { result ≡ has_link self link }
    {
        match self {
            LinkSet::All => true,
            LinkSet::Basic => matches!(link, Link::Ethernet | Link::LinuxCooked),
        }
    }

    /// Whether frames of the link of that number are read.
    #[tactic(auto, unfolding(crate::specs::Links::is_link))]
    pub fn reads(self, number: u16) -> bool
        ensures { result ≡ is_link_of self number }
    {
        match Link::of(number) {
            Some(link) => self.has(link),
            None => false,
        }
    }
}

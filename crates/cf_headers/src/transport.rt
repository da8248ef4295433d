// The transport header that is read.

/// The transport header that is read, and where it stands.
#[derive(Clone, Copy)]
pub(crate) enum Transport {
    /// None is read.
    Unread,
    Tcp(usize),
    Udp(usize),
}

// A frame without its bytes.
ghost use Rattle.std.specs.Prelude.{◌≡◌};
ghost use Rattle.cf_headers.specs.Frames.{frame_of};

use cf_pcap::Frame;

/// What a captured frame is beside its bytes.
#[derive(Clone, Copy, Debug, PartialEq, Eq)]
pub struct FrameInfo {
    /// Its number in the capture, from 0; 2^32 - 1 if it is greater than that.
    pub num: u32,
    /// When it was captured, in nanoseconds since the epoch.
    pub ts: u64,
    /// How many of its bytes were captured.
    pub caplen: u32,
    /// Its length on the wire, in bytes.
    pub len: u32,
    /// The number of the link that it was captured from ([`cf_pcap::Link`]).
    pub link: u16,
}

impl FrameInfo {
    /// That of a frame.
    pub fn of(frame: &Frame) -> FrameInfo
        ensures { frame_of result frame.now.bytes ≡ frame.now }
    {
        FrameInfo {
            num: frame.num,
            ts: frame.ts,
            caplen: frame.caplen,
            len: frame.len,
            link: frame.link,
        }
    }
}

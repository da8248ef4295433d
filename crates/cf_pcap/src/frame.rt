// A captured frame.
ghost use Rattle.std.specs.Prelude.{◌≡◌, ◌+◌};

use crate::records::RECORD_HEADER;
use std::marker::Model;

/// A frame as it was captured.
#[derive(Debug, Drop)]
pub struct Frame {
    /// Its number in the capture, from 0; 2^32 - 1 if it is greater than that.
    pub num: u32,
    /// When it was captured, in nanoseconds since the epoch.
    pub ts: u64,
    /// How many of its bytes were captured.
    pub caplen: u32,
    /// Its length on the wire, in bytes.
    pub len: u32,
    /// The number of the link that it was captured from ([`crate::Link`]).
    pub link: u16,
    /// Those of its bytes that were captured, from the link's header on.
    pub bytes: Vec<u8>,
}

impl Model for Frame {
    ghost use Rattle.cf_pcap.specs.Capture.{FrameValue};

    ghost Value = { FrameValue };

    ghost view = { λ f. record { num = f.num; ts = f.ts; caplen = f.caplen; len = f.len; link = f.link; bytes = f.bytes.items } };
}

impl Frame {
    // The length of its record in the capture.
    pub(crate) fn record_len(&self) -> usize
        ensures { result ≡ 16 + self.now.caplen }
    {
        RECORD_HEADER + self.caplen as usize
    }
}

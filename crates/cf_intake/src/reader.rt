// The reader of a capture of packets, which comes in pieces.
ghost use Rattle.std.specs.Prelude.{◌≡◌, List, [], ◌++◌, IfOk, IfSome, IsNone};
ghost use Rattle.cf_pcap.specs.Capture.{FrameValue};
ghost use Rattle.cf_intake.specs.Formats.{begins_section as section_begins};
ghost use Rattle.cf_intake.specs.Reading.{AddsFew, Feeds, Finishes, IfReaderAt, IsBrokenFor, IsReaderAt, IsUnbrokenFor, reads_blocks, reads_scope};

use crate::faults::Fault;
use crate::refusal::{Halt, Refusal};
use cf_pcap::{Frame, Pcap, PcapFault, Scope};
use cf_pcapng::{NgFault, PcapNg};
use cf_row::Memory;
use std::alloc::{AllocError, Global};

/// The type of a section header, with which a capture in pcapng begins.
const SECTION: [u8; 4] = [0x0a, 0x0d, 0x0d, 0x0a];

/// A reader of a capture in pcap, of records, or in pcapng, of blocks.
#[derive(Drop)]
pub(crate) enum Reader {
    Pcap(Pcap),
    PcapNg(PcapNg),
}

#[tactic(auto, unfolding(crate::specs::Formats::begins_section))]
fn begins_section(bytes: &[u8]) -> bool
    ensures { result ≡ section_begins bytes.now }
{
    bytes.starts_with(&SECTION)
}

impl Reader {
    /// A reader of the captures of this scope, of one that begins with that piece: in pcapng where this begins with a section header, in
    /// pcap otherwise.
    pub(crate) fn of(alloc: Global, piece: &[u8], scope: Scope) -> Result<Reader, Memory>
        ensures blocks { IfOk result (λ reader. reads_blocks reader ≡ section_begins piece.now) }
        ensures scope { IfOk result (λ reader. reads_scope reader ≡ scope) }
        ensures begins { IfOk result (λ reader. IsReaderAt reader [] []) }
    {
        if begins_section(piece) {
            Ok(Reader::PcapNg(PcapNg::for_scope(alloc, scope)?))
        } else {
            Ok(Reader::Pcap(Pcap::for_scope(alloc, scope)?))
        }
    }

    /// Takes the next piece, and adds the frames that end in it and before any fault. A fault is told at the end.
    pub(crate) fn feed(&mut self, piece: &[u8], out: &mut Vec<Frame>) -> Result<(), Memory>
        ensures blocks { reads_blocks self.new ≡ reads_blocks self.old }
        ensures scope { reads_scope self.new ≡ reads_scope self.old }
        ensures fed { IfOk result (λ _. (given : List FrameValue) × (out.new.items ≡ out.old.items ++ given)
            × Feeds self.old self.new piece.now given) }
        ensures few { IfOk result (λ _. IfReaderAt self.old (AddsFew piece.now out.old.items out.new.items)) }
    {
        match self {
            Reader::Pcap(pcap) => match pcap.feed(piece, out) {
                Err(PcapFault::Memory) => Err(AllocError),
                _ => Ok(()),
            },
            Reader::PcapNg(pcapng) => match pcapng.feed(piece, out) {
                Err(NgFault::Memory) => Err(AllocError),
                _ => Ok(()),
            },
        }
    }

    /// Why the capture is refused, whatever follows, if what came shows its fault.
    pub(crate) fn fault(&self) -> Option<Refusal>
        ensures found { IfSome result (IsBrokenFor self.now) }
        ensures none { IsNone result → IsUnbrokenFor self.now }
    {
        match self {
            Reader::Pcap(pcap) => Fault::Pcap(pcap.fault()?).refusal(),
            Reader::PcapNg(pcapng) => Fault::PcapNg(pcapng.fault()?).refusal(),
        }
    }

    /// What the end of the stream says: the frames are those of a capture, or it has a fault. One that may be truncated says within which
    /// record it ends, if it does.
    pub(crate) fn finish(self, truncated: bool) -> Result<Option<u64>, Halt>
        ensures { Finishes truncated self result }
    {
        match self {
            Reader::Pcap(pcap) => Ok(pcap.finish_as(truncated)?),
            Reader::PcapNg(pcapng) => Ok(pcapng.finish_as(truncated)?),
        }
    }
}

// What the faults of captures come to.
ghost use Rattle.std.specs.Prelude.{◌≡◌};
ghost use Rattle.cf_intake.specs.Faults.{code_of, record_of, refusal_of, halt_of};
ghost use Rattle.cf_intake.specs.declared.faults.Fault.TheVariants as faults;

use crate::refusal::{Halt, Refusal, Stop};
use cf_pcap::PcapFault;
use cf_pcapng::NgFault;
use cf_records::RecordFault;

/// The fault of a capture in pcap, in pcapng, or of a file of other records.
#[derive(Clone, Copy, Debug)]
pub(crate) enum Fault {
    Pcap(PcapFault),
    PcapNg(NgFault),
    Lines(RecordFault),
}

impl Fault {
    // Its code. Out of memory, which is no fault of the bytes, has 0.
    fn code(self) -> u8
        ensures { result ≡ code_of self }
    {
        match self {
            Fault::Pcap(PcapFault::Memory) => 0,
            Fault::Pcap(PcapFault::BadMagic) => 1,
            Fault::Pcap(PcapFault::BadVersion) => 2,
            Fault::Pcap(PcapFault::BadLink) => 3,
            Fault::Pcap(PcapFault::FrameTooLong(_)) => 4,
            Fault::Pcap(PcapFault::Cut(_)) => 5,
            Fault::Pcap(PcapFault::TooManyBytes) => 6,
            Fault::Lines(RecordFault::Memory) => 0,
            Fault::Lines(RecordFault::NoHeader) => 11,
            Fault::Lines(RecordFault::BadHeader) => 12,
            Fault::Lines(RecordFault::BadCount(_)) => 13,
            Fault::Lines(RecordFault::BadValue(_, _)) => 14,
            Fault::Lines(RecordFault::TooManyBytes) => 15,
            Fault::PcapNg(NgFault::Memory) => 0,
            Fault::PcapNg(NgFault::BadMagic(_)) => 21,
            Fault::PcapNg(NgFault::BadVersion(_)) => 22,
            Fault::PcapNg(NgFault::BadLink(_)) => 23,
            Fault::PcapNg(NgFault::FrameTooLong(_)) => 24,
            Fault::PcapNg(NgFault::Cut(_)) => 25,
            Fault::PcapNg(NgFault::TooManyBytes) => 26,
            Fault::PcapNg(NgFault::BadLength(_)) => 27,
            Fault::PcapNg(NgFault::NoInterface(_)) => 28,
            Fault::PcapNg(NgFault::TooManyInterfaces(_)) => 29,
        }
    }

    // The record that it names, or 0.
    fn record(self) -> u64
        ensures { result ≡ record_of self }
    {
        match self {
            Fault::Pcap(PcapFault::FrameTooLong(count) | PcapFault::Cut(count)) => count,
            Fault::Lines(RecordFault::BadCount(count)) => count as u64,
            Fault::Lines(RecordFault::BadValue(count, _)) => count as u64,
            Fault::PcapNg(
                NgFault::BadMagic(count)
                | NgFault::BadVersion(count)
                | NgFault::BadLink(count)
                | NgFault::FrameTooLong(count)
                | NgFault::Cut(count)
                | NgFault::BadLength(count)
                | NgFault::NoInterface(count)
                | NgFault::TooManyInterfaces(count),
            ) => count,
            _ => 0,
        }
    }

    /// How it refuses the bytes, if it is one of theirs.
    pub(crate) fn refusal(self) -> Option<Refusal>
        ensures { result ≡ refusal_of self }
    {
        match self.code() {
            0 => None,
            code => Some(Refusal::Capture {
                at: self.record(),
                code,
            }),
        }
    }

    // What it comes to.
    fn halt(self) -> Halt
        ensures { result ≡ halt_of self }
    {
        match self.refusal() {
            Some(why) => Halt::Refused(why),
            None => Halt::Stopped(Stop::Memory),
        }
    }
}

impl From<PcapFault> for Halt {
    ghost from_gives = { λ fault halt. halt ≡ halt_of (faults.Pcap fault) };

    fn from(fault: PcapFault) -> Halt {
        Fault::Pcap(fault).halt()
    }
}

impl From<NgFault> for Halt {
    ghost from_gives = { λ fault halt. halt ≡ halt_of (faults.PcapNg fault) };

    fn from(fault: NgFault) -> Halt {
        Fault::PcapNg(fault).halt()
    }
}

impl From<RecordFault> for Halt {
    ghost from_gives = { λ fault halt. halt ≡ halt_of (faults.Lines fault) };

    fn from(fault: RecordFault) -> Halt {
        Fault::Lines(fault).halt()
    }
}

// How the program ends.
ghost use Rattle.std.specs.Prelude.{◌≡◌};
ghost use Rattle.cf_run.specs.Answers.{number_of};
ghost use Rattle.cf_run.specs.Refusals.{ending_status, status_of, stop_status};

use cf_follow::Ending;
use cf_intake::{Refusal, Stop};
use cf_table::Seal;

/// How the work ended.
#[derive(Clone, Copy, Debug, PartialEq, Eq)]
pub enum Status {
    /// The report was written.
    Done,
    /// The words are no command.
    Words,
    /// The setup has a fault, first in that line, by the rule of that code.
    Setup { line: u32, code: u8 },
    /// The capture, of several the first faulty one, has a fault, at that record, of that code.
    Capture { at: u64, code: u8 },
    /// The shelf failed.
    ReadFault,
    /// The sink failed; what was due may be written in part.
    WriteFault,
    /// There are more records than a log may hold.
    Full,
    /// The paths of the records in a segment need more different nodes than a writer has in it.
    Nodes,
    /// Want of memory. Nothing was written, but of a watch what its rounds said before.
    Memory,
    /// No file has the name of the setup or of a capture.
    NoFile,
}

impl Status {
    /// The number with which the program ends.
    pub fn number(self) -> u8
        ensures { result ≡ number_of self }
    {
        match self {
            Status::Done => 0,
            Status::Words => 1,
            Status::Setup { .. } => 2,
            Status::Capture { .. } => 3,
            Status::ReadFault => 4,
            Status::WriteFault => 5,
            Status::Full => 6,
            Status::Nodes => 7,
            Status::Memory => 8,
            Status::NoFile => 9,
        }
    }
}

impl From<Refusal> for Status {
    ghost from_gives = { λ refusal status. status ≡ status_of refusal };

    fn from(refusal: Refusal) -> Status {
        match refusal {
            Refusal::Words => Status::Words,
            Refusal::NoFile => Status::NoFile,
            Refusal::Setup { line, code } => Status::Setup { line, code },
            Refusal::Capture { at, code } => Status::Capture { at, code },
            Refusal::Full { .. } => Status::Full,
            Refusal::Nodes { .. } => Status::Nodes,
        }
    }
}

impl From<Stop> for Status {
    ghost from_gives = { λ stop status. status ≡ stop_status stop };

    fn from(stop: Stop) -> Status {
        match stop {
            Stop::ReadFault => Status::ReadFault,
            Stop::Memory => Status::Memory,
        }
    }
}

impl From<Ending> for Status {
    ghost from_gives = { λ ending status. status ≡ ending_status ending };

    fn from(ending: Ending) -> Status {
        match ending {
            Ending::Done => Status::Done,
            Ending::Refused(refusal) => Status::from(refusal),
            Ending::Stopped(stop) => Status::from(stop),
            Ending::Unwritten => Status::WriteFault,
        }
    }
}

/// How the work ended, and the seals of the segments of the log that it told of: those of a report or of the answers on drawn
/// packets, and else none.
#[derive(Drop)]
pub struct Outcome {
    pub status: Status,
    pub seals: Vec<Seal>,
}

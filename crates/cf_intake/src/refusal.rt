// Why the work of a command has no result.
ghost use Rattle.std.specs.Prelude.{◌≡◌, string_bytes, IfOk};
ghost use Rattle.cf_intake.specs.Refusals.{line_at, line_of, unread, unset};
ghost use Rattle.cf_intake.specs.declared.refusal.Halt.TheVariants.{Stopped};
ghost use Rattle.cf_intake.specs.declared.refusal.Stop.TheVariants as stops;

use crate::devices::ReadError;
use cf_outside::Failed;
use cf_row::Memory;
use cf_setup::SetupFault;
use std::alloc::{AllocError, Global};

/// Why words and files are refused. A refusal has a line, which is written.
#[derive(Clone, Copy, Debug)]
pub enum Refusal {
    /// The words are no command.
    Words,
    /// No file has the name of the setup or of the capture.
    NoFile,
    /// The setup has a fault, first in that line, by the rule of that code.
    Setup { line: u32, code: u8 },
    /// The capture has a fault, at that record, of that code.
    Capture { at: u64, code: u8 },
    /// There are more records than the log may hold.
    Full { most: u64 },
    /// The paths of the records in a segment need more different nodes than a writer has in it.
    Nodes { nodes: u32 },
}

impl Refusal {
    /// The line that is written.
    pub fn line(self, alloc: Global) -> Result<String, Memory>
        ensures { IfOk result (λ line. string_bytes line ≡ line_of self) }
    {
        match self {
            Refusal::Words => String::from_str(alloc, "words: not a command\n"),
            Refusal::NoFile => String::from_str(alloc, "file: none of that name\n"),
            Refusal::Setup { line, code } => {
                format!(in alloc; "setup: line {line} code {code}\n")
            }
            Refusal::Capture { at, code } => {
                format!(in alloc; "capture: record {at} code {code}\n")
            }
            Refusal::Full { most } => format!(in alloc; "full: more than {most} records\n"),
            Refusal::Nodes { nodes } => format!(in alloc; "nodes: more than {nodes} nodes\n"),
        }
    }

    /// The line that is written if several captures are named and this refuses the one at that place, the first being at place 1. What
    /// refuses no capture has its own line.
    pub fn line_at(self, alloc: Global, place: u32) -> Result<String, Memory>
        ensures { IfOk result (λ line. string_bytes line ≡ line_at place self) }
    {
        match self {
            Refusal::NoFile => format!(in alloc; "capture {place}: none of that name\n"),
            Refusal::Capture { at, code } => {
                format!(in alloc; "capture {place}: record {at} code {code}\n")
            }
            _ => self.line(alloc),
        }
    }
}

/// What stopped the work before anything was written.
#[derive(Clone, Copy, Debug)]
pub enum Stop {
    /// The shelf failed.
    ReadFault,
    Memory,
}

impl From<AllocError> for Stop {
    ghost from_gives = { λ _ stop. stop ≡ stops.Memory };

    fn from(_error: AllocError) -> Stop {
        Stop::Memory
    }
}

impl From<Failed> for Stop {
    ghost from_gives = { λ _ stop. stop ≡ stops.ReadFault };

    fn from(_error: Failed) -> Stop {
        Stop::ReadFault
    }
}

/// Why a part of the work has no result.
#[derive(Clone, Copy, Debug)]
pub enum Halt {
    Refused(Refusal),
    Stopped(Stop),
}

impl From<AllocError> for Halt {
    ghost from_gives = { λ _ halt. halt ≡ Stopped stops.Memory };

    fn from(_error: AllocError) -> Halt {
        Halt::Stopped(Stop::Memory)
    }
}

impl From<Stop> for Halt {
    ghost from_gives = { λ stop halt. halt ≡ Stopped stop };

    fn from(stop: Stop) -> Halt {
        Halt::Stopped(stop)
    }
}

impl From<ReadError> for Halt {
    ghost from_gives = { λ error halt. halt ≡ unread error };

    fn from(error: ReadError) -> Halt {
        match error {
            ReadError::Missing => Halt::Refused(Refusal::NoFile),
            ReadError::Failed => Halt::Stopped(Stop::ReadFault),
            ReadError::Memory => Halt::Stopped(Stop::Memory),
        }
    }
}

impl From<SetupFault> for Halt {
    ghost from_gives = { λ fault halt. halt ≡ unset fault };

    fn from(fault: SetupFault) -> Halt {
        match fault {
            SetupFault::Bad { line, code } => Halt::Refused(Refusal::Setup { line, code }),
            SetupFault::Memory => Halt::Stopped(Stop::Memory),
        }
    }
}

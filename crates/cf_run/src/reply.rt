// What the program writes for a command that is no watch.
ghost use Rattle.std.specs.Prelude.{◌≡◌, [], MatchResult};
ghost use Rattle.cf_run.specs.Parts.{reply_status, reply_text, reply_seals};
ghost use Rattle.cf_intake.specs.Refusals.{line_of};
ghost use Rattle.cf_run.specs.Refusals.{status_of};
ghost use Rattle.cf_intake.specs.declared.refusal.Stop.TheVariants as stops;

use crate::Status;
use cf_intake::{Refusal, Stop};
use cf_table::Seal;
use std::alloc::Global;

/// What is written: a text, with the seals of the log that it is about, or the line of a refusal.
#[derive(Drop)]
pub(crate) enum WorkReply {
    Done { text: Vec<u8>, seals: Vec<Seal> },
    Refused { refusal: Refusal, text: Vec<u8> },
}

impl WorkReply {
    pub(crate) fn text(&self) -> &[u8]
        ensures { result.now ≡ reply_text self.now }
    {
        match self {
            WorkReply::Done { text, .. } => text,
            WorkReply::Refused { text, .. } => text,
        }
    }

    pub(crate) fn status(&self) -> Status
        ensures { result ≡ reply_status self.now }
    {
        match self {
            WorkReply::Done { .. } => Status::Done,
            WorkReply::Refused { refusal, .. } => Status::from(*refusal),
        }
    }

    pub(crate) fn into_seals(self, alloc: Global) -> Vec<Seal>
        ensures { result.items ≡ reply_seals self }
    {
        match self {
            WorkReply::Done { seals, .. } => seals,
            WorkReply::Refused { .. } => Vec::new(alloc),
        }
    }
}

/// The line of a refusal.
pub(crate) fn refused(alloc: Global, refusal: Refusal) -> Result<WorkReply, Stop>
    ensures { MatchResult result
        (λ reply. (reply_text reply ≡ line_of refusal) × (reply_status reply ≡ status_of refusal) × (reply_seals reply ≡ []))
        (λ stop. stop ≡ stops.Memory) }
{
    let text = refusal.line(alloc)?.into_bytes();
    Ok(WorkReply::Refused { refusal, text })
}

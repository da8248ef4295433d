// How the following of a capture ends.
ghost use Rattle.std.specs.Prelude.{◌≡◌};
ghost use Rattle.cf_follow.specs.declared.ending.Ending.TheVariants as endings;
ghost use Rattle.cf_intake.specs.declared.refusal.Stop.TheVariants as stops;

use cf_intake::{Refusal, Stop};
use cf_outside::Failed;
use std::alloc::AllocError;

/// How the following of a capture ended.
#[derive(Clone, Copy, Debug)]
pub enum Ending {
    /// Its end was written.
    Done,
    /// The capture has a fault, or a record was turned away, and that line was written.
    Refused(Refusal),
    /// The shelf failed, or memory ran out.
    Stopped(Stop),
    /// The sink failed.
    Unwritten,
}

impl From<AllocError> for Ending {
    ghost from_gives = { λ _ ending. ending ≡ endings.Stopped stops.Memory };

    fn from(_error: AllocError) -> Ending {
        Ending::Stopped(Stop::Memory)
    }
}

impl From<Failed> for Ending {
    ghost from_gives = { λ _ ending. ending ≡ endings.Unwritten };

    fn from(_error: Failed) -> Ending {
        Ending::Unwritten
    }
}

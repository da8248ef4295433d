// `ask NAME groups LANE`.
ghost use Rattle.std.specs.Prelude.{◌<◌, All};
ghost use Rattle.cf_setup.specs.Few.{IsFew};
ghost use Rattle.cf_setup.specs.Forms.StatementFormValue.{ask_groups};
ghost use Rattle.cf_setup.specs.Reading.{ruled, Takes};

use crate::draft::{Draft, Family};
use crate::fault::LineFault;
use cf_plain::Ask;
use std::alloc::Global;

/// All groups of an aggregate or a tally.
#[tactic(auto, unfolding(crate::specs::Reading::ruled))]
pub(crate) fn add_groups(
    alloc: Global,
    _line: u32,
    draft: Draft,
    name: &[u8],
    lane: &[u8],
) -> Result<Draft, LineFault>
    requires few { IsFew draft }
    requires ascii { All (λ b. b < 128) name.now }
    ensures { Takes result (ruled _line draft (ask_groups name.now lane.now)) }
{
    draft.must_be_free(name)?;
    let (place, _) = draft.lane(Family::Measuring, lane)?;
    draft.ask_room()?;
    Ok(draft.with_ask(alloc, name, Ask::Groups(place))?)
}

// `ask NAME top TALLY PART COUNT`.
ghost use Rattle.std.specs.Prelude.{◌<◌, All};
ghost use Rattle.cf_setup.specs.Few.{IsFew};
ghost use Rattle.cf_setup.specs.Forms.StatementFormValue.{ask_top};
ghost use Rattle.cf_setup.specs.Reading.{ruled, Takes};

use crate::ask::Ranking;
use crate::draft::{Draft, Family};
use crate::fault::LineFault;
use crate::values::count_of;
use cf_plain::Ask;
use std::alloc::Global;

/// The keys of a tally with the greatest parts.
#[tactic(auto, unfolding(crate::specs::Reading::ruled))]
pub(crate) fn add_top(
    alloc: Global,
    _line: u32,
    draft: Draft,
    name: &[u8],
    by: Ranking,
) -> Result<Draft, LineFault>
    requires few { IsFew draft }
    requires ascii { All (λ b. b < 128) name.now }
    ensures { Takes result (ruled _line draft (ask_top name.now by.entry.tally.now by.entry.part by.entry.count.now)) }
{
    draft.must_be_free(name)?;
    let (place, _) = draft.lane(Family::Tally, by.tally)?;
    let count = count_of(by.count)?;
    draft.ask_room()?;
    Ok(draft.with_ask(alloc, name, Ask::Top(place, by.part, count))?)
}

// `ask NAME find INDEX LOW HIGH`.
ghost use Rattle.std.specs.Prelude.{◌<◌, All};
ghost use Rattle.cf_setup.specs.Few.{IsFew};
ghost use Rattle.cf_setup.specs.Forms.StatementFormValue.{ask_find};
ghost use Rattle.cf_setup.specs.Reading.{ruled, Takes};

use crate::ask::Range;
use crate::draft::{Draft, Family};
use crate::fault::LineFault;
use crate::values::key_written;
use cf_plain::Ask;
use std::alloc::Global;

/// Which rows have a value of the index's attribute between two.
#[tactic(auto, unfolding(crate::specs::Reading::ruled))]
pub(crate) fn add_find(
    alloc: Global,
    _line: u32,
    draft: Draft,
    name: &[u8],
    over: Range,
) -> Result<Draft, LineFault>
    requires few { IsFew draft }
    requires ascii { All (λ b. b < 128) name.now }
    ensures { Takes result (ruled _line draft (ask_find name.now over.entry.lane.now over.entry.low.now over.entry.high.now)) }
{
    draft.must_be_free(name)?;
    let (place, lane) = draft.lane(Family::Index, over.lane)?;
    let kind = draft.kind_of_key(lane.key);
    let low = key_written(kind, over.low)?;
    let high = key_written(kind, over.high)?;
    draft.ask_room()?;
    Ok(draft.with_ask(alloc, name, Ask::Find(place, low, high))?)
}

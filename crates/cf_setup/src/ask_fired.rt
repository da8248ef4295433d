// `ask NAME fired TRIGGER`.
ghost use Rattle.std.specs.Prelude.{◌<◌, All};
ghost use Rattle.cf_setup.specs.Forms.StatementFormValue.{ask_fired};
ghost use Rattle.cf_setup.specs.Reading.{ruled, Takes};

use crate::draft::Draft;
use crate::fault::LineFault;
use cf_plain::Ask;
use std::alloc::Global;

/// In which buckets the trigger fires.
#[tactic(auto, unfolding(crate::specs::Reading::ruled))]
pub(crate) fn add_fired(
    alloc: Global,
    _line: u32,
    draft: Draft,
    name: &[u8],
    trigger: &[u8],
) -> Result<Draft, LineFault>
    requires { All (λ b. b < 128) name.now }
    ensures { Takes result (ruled _line draft (ask_fired name.now trigger.now)) }
{
    draft.must_be_free(name)?;
    let trigger = draft.trigger(trigger)?;
    draft.ask_room()?;
    Ok(draft.with_ask(alloc, name, Ask::Fired(trigger))?)
}

// `live ASK`.
ghost use Rattle.std.specs.Prelude.{◌≡◌, IfSome};
ghost use Rattle.std.specs.Option.{option_map};
ghost use Rattle.cf_setup.specs.Few.{IsFew};
ghost use Rattle.cf_setup.specs.Forms.{live_form as live_form_of, form_value, HasWords};
ghost use Rattle.cf_setup.specs.Forms.StatementFormValue.{ask_live};
ghost use Rattle.cf_setup.specs.Reading.{ruled, Takes};

use crate::draft::Draft;
use crate::fault::LineFault;
use crate::form::StatementForm;
use cf_lines::last_word;

pub(crate) fn live_form<'a>(text: &'a [u8]) -> Option<StatementForm<'a>>
    ensures form { option_map form_value result ≡ live_form_of text.now }
    ensures words { IfSome result (λ form. HasWords (form_value form)) }
{
    Some(StatementForm::Live {
        ask: last_word(text)?,
    })
}

/// The ask is asked live too, once.
#[tactic(auto, unfolding(crate::specs::Reading::ruled))]
pub(crate) fn add_live(_line: u32, draft: Draft, ask: &[u8]) -> Result<Draft, LineFault>
    requires { IsFew draft }
    ensures { Takes result (ruled _line draft (ask_live ask.now)) }
{
    let place = draft.ask(ask)?;
    draft.must_not_be_live(place)?;
    let mut draft = draft;
    draft.lives.push(place)?;
    Ok(draft)
}

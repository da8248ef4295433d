// `width W`.
ghost use Rattle.std.specs.Prelude.{◌≡◌, IfSome};
ghost use Rattle.std.specs.Option.{option_map};
ghost use Rattle.cf_setup.specs.Forms.{width_form as width_form_of, form_value, HasWords};
ghost use Rattle.cf_setup.specs.Forms.StatementFormValue.{bucket_width};
ghost use Rattle.cf_setup.specs.Reading.{ruled, Takes};

use crate::draft::Draft;
use crate::fault::LineFault;
use crate::form::StatementForm;
use crate::values::number_from;
use cf_lines::last_word;

pub(crate) fn width_form<'a>(text: &'a [u8]) -> Option<StatementForm<'a>>
    ensures form { option_map form_value result ≡ width_form_of text.now }
    ensures words { IfSome result (λ form. HasWords (form_value form)) }
{
    Some(StatementForm::Width {
        number: last_word(text)?,
    })
}

/// The width of a bucket in nanoseconds.
#[tactic(auto, unfolding(crate::specs::Reading::ruled))]
pub(crate) fn add_width(_line: u32, draft: Draft, number: &[u8]) -> Result<Draft, LineFault>
    ensures { Takes result (ruled _line draft (bucket_width number.now)) }
{
    let width = number_from(1, 1 << 63, number)?;
    let mut draft = draft;
    draft.width = Some(width);
    Ok(draft)
}

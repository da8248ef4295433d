// `tally NAME ATTRIBUTE MEASURE EXPRESSION`.
ghost use Rattle.std.specs.Prelude.{◌≡◌, ◌<◌, ◌^◌, length, is_some, true, All, IfSome};
ghost use Rattle.std.specs.Option.{option_map};
ghost use Rattle.cf_setup.specs.Forms.{tally_form as tally_form_of, form_value, HasWords};
ghost use Rattle.cf_setup.specs.Forms.StatementFormValue.{new_tally};
ghost use Rattle.cf_setup.specs.Reading.{ruled, Takes};

use crate::draft::Draft;
use crate::fault::LineFault;
use crate::filter::expr_of;
use crate::form::StatementForm;
use crate::values::{must_be_narrow, must_be_number};
use cf_lines::{new_name, next_word};
use cf_shape::{Key, Lane};
use std::alloc::Global;

/// The words of the attribute by whose values rows are grouped, of the one that is measured, and of the rows' expression.
#[derive(Clone, Copy, Debug)]
pub(crate) struct Grouping<'a> {
    pub(crate) attr: &'a [u8],
    pub(crate) measure: &'a [u8],
    pub(crate) expr: &'a [u8],
}

pub(crate) fn tally_form<'a>(text: &'a [u8]) -> Option<StatementForm<'a>>
    requires { length text.now < 2 ^ 32 }
    ensures form { option_map form_value result ≡ tally_form_of text.now }
    ensures words { IfSome result (λ form. HasWords (form_value form)) }
{
    let (name, rest) = new_name(text)?;
    let (attr, rest) = next_word(rest)?;
    let (measure, expr) = next_word(rest)?;
    let by = Grouping {
        attr,
        measure,
        expr,
    };
    Some(StatementForm::Tally { name, by })
}

/// A lane of the rows of an expression, by the values of an attribute of numbers, that measures one of at most 32 bits.
#[tactic(auto, unfolding(crate::specs::Reading::ruled))]
pub(crate) fn add_tally(
    alloc: Global,
    _line: u32,
    draft: Draft,
    name: &[u8],
    by: Grouping,
) -> Result<Draft, LineFault>
    requires size { length by.expr.now < 2 ^ 32 }
    requires stated { is_some draft.schema ≡ true }
    requires ascii { All (λ b. b < 128) name.now }
    ensures { Takes result (ruled _line draft (new_tally name.now by.entry.attr.now by.entry.measure.now by.entry.expr.now)) }
{
    draft.must_be_free(name)?;
    let (attr, kind) = draft.attr(by.attr)?;
    let (measure, measured) = draft.attr(by.measure)?;
    must_be_number(kind)?;
    must_be_narrow(measured)?;
    draft.lane_room()?;
    let lane = Lane {
        select: expr_of(alloc, &draft, by.expr)?,
        key: Key::Attr(attr),
        measure: Some(measure),
    };
    Ok(draft.with_lane(alloc, name, lane)?)
}

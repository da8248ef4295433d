// `trigger NAME AGGREGATE PART OPERATOR NUMBER`.
ghost use Rattle.std.specs.Prelude.{◌≡◌, ◌<◌, All, IfSome};
ghost use Rattle.std.specs.Option.{option_map};
ghost use Rattle.cf_setup.specs.Few.{IsFew};
ghost use Rattle.cf_setup.specs.Forms.{trigger_form as trigger_form_of, part_named, sign_named, form_value, HasWords};
ghost use Rattle.cf_setup.specs.Forms.StatementFormValue.{new_trigger};
ghost use Rattle.cf_setup.specs.Reading.{ruled, Takes};

use crate::draft::{Draft, Family};
use crate::fault::LineFault;
use crate::form::StatementForm;
use crate::values::number_of;
use cf_filter::named_op;
use cf_fold::{Part, Trigger};
use cf_lines::{last_word, new_name, next_word};
use cf_row::Op;
use std::alloc::Global;

/// The part of an aggregate's quad that a trigger watches, and when it fires.
#[derive(Clone, Copy, Debug)]
pub(crate) struct Condition<'a> {
    pub(crate) aggregate: &'a [u8],
    pub(crate) part: Part,
    pub(crate) op: Op,
    pub(crate) number: &'a [u8],
}

/// The part of a quad that the word says.
pub(crate) fn part_of(word: &[u8]) -> Option<Part>
    ensures { result ≡ part_named word.now }
{
    if word == b"count".as_slice() {
        return Some(Part::Count);
    }
    if word == b"sum".as_slice() {
        return Some(Part::Sum);
    }
    if word == b"least".as_slice() {
        return Some(Part::Least);
    }
    if word == b"greatest".as_slice() {
        return Some(Part::Greatest);
    }
    None
}

// One of the six operators.
fn sign_of(word: &[u8]) -> Option<Op>
    ensures { result ≡ sign_named word.now }
{
    let op = named_op(word)?;
    if op.is_range() {
        return None;
    }
    Some(op)
}

pub(crate) fn trigger_form<'a>(text: &'a [u8]) -> Option<StatementForm<'a>>
    ensures form { option_map form_value result ≡ trigger_form_of text.now }
    ensures words { IfSome result (λ form. HasWords (form_value form)) }
{
    let (name, rest) = new_name(text)?;
    let (aggregate, rest) = next_word(rest)?;
    let (part, rest) = next_word(rest)?;
    let part = part_of(part)?;
    let (op, rest) = next_word(rest)?;
    let op = sign_of(op)?;
    let number = last_word(rest)?;
    let on = Condition {
        aggregate,
        part,
        op,
        number,
    };
    Some(StatementForm::Trigger { name, on })
}

/// A trigger on an aggregate.
#[tactic(auto, unfolding(crate::specs::Reading::ruled))]
pub(crate) fn add_trigger(
    alloc: Global,
    _line: u32,
    draft: Draft,
    name: &[u8],
    on: Condition,
) -> Result<Draft, LineFault>
    requires few { IsFew draft }
    requires ascii { All (λ b. b < 128) name.now }
    ensures { Takes result (ruled _line draft (new_trigger name.now on.entry.aggregate.now on.entry.part on.entry.op on.entry.number.now)) }
{
    draft.must_be_free(name)?;
    let (agg, _) = draft.lane(Family::Aggregate, on.aggregate)?;
    let number = number_of(on.number)?;
    draft.trigger_room()?;
    let trigger = Trigger {
        agg,
        part: on.part,
        op: on.op,
        number,
    };
    Ok(draft.with_trigger(alloc, name, trigger)?)
}

// `aggregate NAME FILTER ATTRIBUTE` and `aggregate NAME FILTER ATTRIBUTE by KEY`.
ghost use Rattle.std.specs.Prelude.{◌≡◌, ◌<◌, All, IfSome};
ghost use Rattle.std.specs.Option.{option_map, option_copied};
ghost use Rattle.cf_setup.specs.Few.{IsFew};
ghost use Rattle.cf_setup.specs.Forms.{aggregate_form as aggregate_form_of, by_words, form_value, HasWords};
ghost use Rattle.cf_setup.specs.Forms.StatementFormValue.{new_aggregate, new_keyed_aggregate};
ghost use Rattle.cf_setup.specs.Reading.{ruled, Takes};

use crate::draft::{Draft, Family};
use crate::fault::LineFault;
use crate::form::StatementForm;
use crate::values::{must_be_narrow, must_be_number};
use cf_lines::{is_blank, last_word, new_name, next_word};
use cf_shape::{Key, Lane};
use std::alloc::Global;

/// The words of a filter, of the attribute that is measured, and of the one whose values keep the rows of a bucket apart.
#[derive(Clone, Copy, Debug)]
pub(crate) struct Keyed<'a> {
    pub(crate) filter: &'a [u8],
    pub(crate) attr: &'a [u8],
    pub(crate) key: &'a [u8],
}

// `by`, and an attribute that nothing follows.
fn key_of(text: &[u8]) -> Option<&[u8]>
    ensures { option_copied result ≡ by_words text.now }
{
    let (word, rest) = next_word(text)?;
    let key = last_word(rest)?;
    if word == b"by".as_slice() {
        return Some(key);
    }
    None
}

pub(crate) fn aggregate_form<'a>(text: &'a [u8]) -> Option<StatementForm<'a>>
    ensures form { option_map form_value result ≡ aggregate_form_of text.now }
    ensures words { IfSome result (λ form. HasWords (form_value form)) }
{
    let (name, rest) = new_name(text)?;
    let (filter, rest) = next_word(rest)?;
    let (attr, rest) = next_word(rest)?;
    if is_blank(rest) {
        return Some(StatementForm::Aggregate { name, filter, attr });
    }
    let key = key_of(rest)?;
    let over = Keyed { filter, attr, key };
    Some(StatementForm::KeyedAggregate { name, over })
}

/// A lane of a filter's rows, by their buckets, that measures an attribute of at most 32 bits.
#[tactic(auto, unfolding(crate::specs::Reading::ruled))]
pub(crate) fn add_aggregate(
    alloc: Global,
    _line: u32,
    draft: Draft,
    name: &[u8],
    filter: &[u8],
    attr: &[u8],
) -> Result<Draft, LineFault>
    requires few { IsFew draft }
    requires ascii { All (λ b. b < 128) name.now }
    ensures { Takes result (ruled _line draft (new_aggregate name.now filter.now attr.now)) }
{
    draft.must_be_free(name)?;
    let (_, filter) = draft.lane(Family::Filter, filter)?;
    let (attr, kind) = draft.attr(attr)?;
    must_be_narrow(kind)?;
    draft.lane_room()?;
    let lane = Lane {
        select: filter.select.copy(alloc)?,
        key: Key::Bucket,
        measure: Some(attr),
    };
    Ok(draft.with_lane(alloc, name, lane)?)
}

/// The same lane, with the rows of a bucket kept apart by the values of an attribute of numbers.
#[tactic(auto, unfolding(crate::specs::Reading::ruled))]
pub(crate) fn add_keyed_aggregate(
    alloc: Global,
    _line: u32,
    draft: Draft,
    name: &[u8],
    over: Keyed,
) -> Result<Draft, LineFault>
    requires few { IsFew draft }
    requires ascii { All (λ b. b < 128) name.now }
    ensures { Takes result (ruled _line draft (new_keyed_aggregate name.now over.entry.filter.now over.entry.attr.now over.entry.key.now)) }
{
    draft.must_be_free(name)?;
    let (_, filter) = draft.lane(Family::Filter, over.filter)?;
    let (attr, measured) = draft.attr(over.attr)?;
    let (key, kind) = draft.attr(over.key)?;
    must_be_narrow(measured)?;
    must_be_number(kind)?;
    draft.lane_room()?;
    let lane = Lane {
        select: filter.select.copy(alloc)?,
        key: Key::BucketBy(key),
        measure: Some(attr),
    };
    Ok(draft.with_lane(alloc, name, lane)?)
}

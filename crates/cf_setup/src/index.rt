// `index NAME ATTRIBUTE`.
ghost use Rattle.std.specs.Prelude.{◌≡◌, ◌<◌, [], ◌∷◌, All, IfSome, IfOk};
ghost use Rattle.std.specs.Option.{option_map};
ghost use Rattle.cf_setup.specs.Forms.{index_form as index_form_of, form_value, HasWords};
ghost use Rattle.cf_setup.specs.Forms.StatementFormValue.{new_index};
ghost use Rattle.cf_setup.specs.Reading.{ruled, Takes};

use crate::draft::Draft;
use crate::fault::LineFault;
use crate::form::StatementForm;
use crate::values::must_be_number;
use cf_lines::{last_word, new_name};
use cf_row::{Conjunction, Expr, Memory};
use cf_shape::{Key, Lane};
use std::alloc::Global;

pub(crate) fn index_form<'a>(text: &'a [u8]) -> Option<StatementForm<'a>>
    ensures form { option_map form_value result ≡ index_form_of text.now }
    ensures words { IfSome result (λ form. HasWords (form_value form)) }
{
    let (name, rest) = new_name(text)?;
    let attr = last_word(rest)?;
    Some(StatementForm::Index { name, attr })
}

// The expression of all rows.
fn all_rows(alloc: Global) -> Result<Expr, Memory>
    ensures { IfOk result (λ expr. expr ≡ [] ∷ []) }
{
    let mut conjunctions = Vec::with_capacity(alloc, 1)?;
    conjunctions.push(Conjunction::new(Vec::new(alloc)))?;
    Ok(Expr::new(conjunctions))
}

/// A lane of all rows, by the values of an attribute of numbers.
#[tactic(auto, unfolding(crate::specs::Reading::ruled))]
pub(crate) fn add_index(
    alloc: Global,
    _line: u32,
    draft: Draft,
    name: &[u8],
    attr: &[u8],
) -> Result<Draft, LineFault>
    requires { All (λ b. b < 128) name.now }
    ensures { Takes result (ruled _line draft (new_index name.now attr.now)) }
{
    draft.must_be_free(name)?;
    let (attr, kind) = draft.attr(attr)?;
    must_be_number(kind)?;
    draft.lane_room()?;
    let lane = Lane {
        select: all_rows(alloc)?,
        key: Key::Attr(attr),
        measure: None,
    };
    Ok(draft.with_lane(alloc, name, lane)?)
}

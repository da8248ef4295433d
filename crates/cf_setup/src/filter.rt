// `filter NAME EXPRESSION`, and the expressions of statements.
ghost use Rattle.std.specs.Prelude.{◌≡◌, ◌<◌, ◌^◌, length, is_some, true, All, IfSome};
ghost use Rattle.std.specs.Option.{option_map};
ghost use Rattle.cf_filter.specs.Outcome.{Answers};
ghost use Rattle.cf_filter.specs.Exprs.{expr_at};
ghost use Rattle.cf_setup.specs.Forms.{filter_form as filter_form_of, form_value, HasWords};
ghost use Rattle.cf_setup.specs.Forms.StatementFormValue.{new_filter};
ghost use Rattle.cf_setup.specs.Reading.{ruled, Takes, ExprCoded, ExprTaken};

use crate::draft::Draft;
use crate::fault::{Code, LineFault};
use crate::form::StatementForm;
use cf_filter::{FilterFault, parse_bytes};
use cf_lines::new_name;
use cf_row::{Expr, Schema};
use cf_shape::{Key, Lane};
use std::alloc::Global;

pub(crate) fn filter_form<'a>(text: &'a [u8]) -> Option<StatementForm<'a>>
    requires { length text.now < 2 ^ 32 }
    ensures form { option_map form_value result ≡ filter_form_of text.now }
    ensures words { IfSome result (λ form. HasWords (form_value form)) }
{
    let (name, expr) = new_name(text)?;
    Some(StatementForm::Filter { name, expr })
}

fn parse_over(alloc: Global, schema: &Schema, text: &[u8]) -> Result<Expr, FilterFault>
    requires { length text.now < 2 ^ 32 }
    ensures { Answers (length text.now) result (expr_at schema.now text.now) }
{
    parse_bytes(alloc, schema, text)
}

fn read_over(alloc: Global, schema: &Schema, text: &[u8]) -> Result<Expr, LineFault>
    requires { length text.now < 2 ^ 32 }
    ensures { ExprCoded (expr_at schema.now text.now) result }
{
    match parse_over(alloc, schema, text) {
        Ok(expr) => Ok(expr),
        Err(FilterFault::Syntax(_)) => Err(LineFault::Breaks(Code::Syntax)),
        Err(FilterFault::UnknownName(_)) => Err(LineFault::Breaks(Code::UnknownName)),
        Err(FilterFault::BadOperator(_)) => Err(LineFault::Breaks(Code::BadOperator)),
        Err(FilterFault::ValueRange(_)) => Err(LineFault::Breaks(Code::ValueRange)),
        Err(FilterFault::TooLong) => Err(LineFault::Breaks(Code::TooLong)),
        Err(FilterFault::Memory) => Err(LineFault::Memory),
    }
}

/// The expression over the schema's attributes that the text is.
#[tactic(auto, using(crate::proofs::Taken::taken_is))]
pub(crate) fn expr_of(alloc: Global, draft: &Draft, text: &[u8]) -> Result<Expr, LineFault>
    requires size { length text.now < 2 ^ 32 }
    requires stated { is_some draft.now.schema ≡ true }
    ensures { ExprTaken draft.now text.now result }
{
    let Some(schema) = &draft.schema else {
        unreachable!();
    };
    read_over(alloc, schema, text)
}

/// A lane of the rows of an expression, by their buckets.
#[tactic(auto, unfolding(crate::specs::Reading::ruled))]
pub(crate) fn add_filter(
    alloc: Global,
    _line: u32,
    draft: Draft,
    name: &[u8],
    expr: &[u8],
) -> Result<Draft, LineFault>
    requires size { length expr.now < 2 ^ 32 }
    requires stated { is_some draft.schema ≡ true }
    requires ascii { All (λ b. b < 128) name.now }
    ensures { Takes result (ruled _line draft (new_filter name.now expr.now)) }
{
    draft.must_be_free(name)?;
    draft.lane_room()?;
    let lane = Lane {
        select: expr_of(alloc, &draft, expr)?,
        key: Key::Bucket,
        measure: None,
    };
    Ok(draft.with_lane(alloc, name, lane)?)
}

// `ask NAME list EXPRESSION`.
ghost use Rattle.std.specs.Prelude.{◌≡◌, ◌<◌, ◌^◌, length, is_some, true, All};
ghost use Rattle.cf_setup.specs.Forms.StatementFormValue.{ask_list};
ghost use Rattle.cf_setup.specs.Reading.{ruled, Takes};

use crate::draft::Draft;
use crate::fault::LineFault;
use crate::filter::expr_of;
use cf_plain::Ask;
use std::alloc::Global;

/// Which rows pass the expression.
#[tactic(auto, unfolding(crate::specs::Reading::ruled))]
pub(crate) fn add_list(
    alloc: Global,
    _line: u32,
    draft: Draft,
    name: &[u8],
    expr: &[u8],
) -> Result<Draft, LineFault>
    requires size { length expr.now < 2 ^ 32 }
    requires stated { is_some draft.schema ≡ true }
    requires ascii { All (λ b. b < 128) name.now }
    ensures { Takes result (ruled _line draft (ask_list name.now expr.now)) }
{
    draft.must_be_free(name)?;
    draft.ask_room()?;
    let expr = expr_of(alloc, &draft, expr)?;
    Ok(draft.with_ask(alloc, name, Ask::List(expr))?)
}

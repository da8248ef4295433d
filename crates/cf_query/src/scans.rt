// What questions find that go over all entries.
ghost use Rattle.std.specs.Prelude.{◌≡◌, ◌≤◌, true, IfOk};
ghost use Rattle.cf_row.specs.Expr.{holds_of};
ghost use Rattle.cf_shape.specs.Lanes.{IsShape};
ghost use Rattle.cf_table.specs.Moves.{IsReading};
ghost use Rattle.cf_plain.specs.Asks.{Suits, places, rows_in};
ghost use Rattle.cf_plain.specs.Segments.{finding_in};
ghost use Rattle.cf_plain.specs.Totals.{IsNarrow, total};
ghost use Rattle.cf_query.specs.Stretches.{IsStretch, goes_over_all as goes_over_all_of, stretch};
ghost use Rattle.cf_query.specs.Looking.{HasLooked};

use crate::selection::Selection;
use cf_fold::Quad;
use cf_plain::{Ask, Finding, Places};
use cf_row::Memory;
use cf_table::{MultiLog, Pass, Steps};
use std::alloc::Global;
use std::sync::ledger::Ledger;

// The places of the selected entries from one offset up to another, counted from the first.
fn scan<P: Pass, L: Ledger>(
    selection: &Selection,
    alloc: Global,
    pass: &mut P,
    from: u32,
    to: u32,
    steps: &mut Steps<L>,
) -> Result<Places, Memory>
    requires reads { IsReading selection.now.log (P.held pass.old) }
    requires stretch { IsStretch from to (P.held pass.old).view.seen }
    ensures found { IfOk result (λ found. found ≡ places (holds_of selection.now.expr) (rows_in (stretch from to (P.held pass.old).view.seen))) }
    ensures looked { HasLooked (P.held pass.old) (P.held pass.new) steps.old steps.new }
{
    let mut found = Vec::new(alloc);
    for offset in from..to {
        if selection.selects(pass, offset, steps)? {
            found.push(offset - from)?;
        }
    }
    Ok(Places::new(found))
}

// The quad of the attribute over the selected entries from one offset up to another.
fn total_of<P: Pass, L: Ledger>(
    selection: &Selection,
    pass: &mut P,
    attr: u8,
    from: u32,
    to: u32,
    steps: &mut Steps<L>,
) -> Result<Quad, Memory>
    requires reads { IsReading selection.now.log (P.held pass.old) }
    requires lawful { IsShape selection.now.log.shape }
    requires narrow { IsNarrow selection.now.log.shape.schema attr }
    requires stretch { IsStretch from to (P.held pass.old).view.seen }
    ensures found { IfOk result (λ found. found ≡ total attr selection.now.expr (rows_in (stretch from to (P.held pass.old).view.seen))) }
    ensures looked { HasLooked (P.held pass.old) (P.held pass.new) steps.old steps.new }
{
    let mut total = Quad::EMPTY;
    for place in from..to {
        if selection.selects(pass, place, steps)? {
            total = total.add(selection.number(pass, place, attr, steps) as u32);
        }
    }
    Ok(total)
}

/// Whether the question goes over all entries, as a list and a total do, which no lane answers.
pub fn goes_over_all(ask: &Ask) -> bool
    ensures { result ≡ goes_over_all_of ask.now }
{
    matches!(ask, Ask::List(_) | Ask::Total(..))
}

/// What a list or a total finds in the entries from the first of these offsets up to the second, which the pass has seen: what it
/// finds where there are no others, so that places are counted from the first offset. The entries are asked one after the other,
/// and none is kept. If memory runs out, nothing is found, and the pass has looked at words alone.
pub fn finding_stretch<P: Pass, L: Ledger>(
    log: &MultiLog,
    alloc: Global,
    pass: &mut P,
    ask: &Ask,
    ends: (u32, u32),
    steps: &mut Steps<L>,
) -> Result<Finding, Memory>
    requires reads { IsReading log.now (P.held pass.old) }
    requires all { goes_over_all_of ask.now ≡ true }
    requires suits { Suits log.now.shape ask.now }
    requires stretch { IsStretch ends.0 ends.1 (P.held pass.old).view.seen }
    ensures found { IfOk result (λ found. found ≡ finding_in log.now.shape ask.now (rows_in (stretch ends.0 ends.1 (P.held pass.old).view.seen))) }
    ensures looked { HasLooked (P.held pass.old) (P.held pass.new) steps.old steps.new }
{
    let (from, to) = ends;
    match ask {
        Ask::List(expr) => {
            let selection = Selection::new(log, alloc, expr);
            Ok(Finding::Places(scan(&selection, alloc, pass, from, to, steps)?))
        }
        Ask::Total(attr, expr) => {
            let selection = Selection::new(log, alloc, expr);
            let total = total_of(&selection, pass, *attr, from, to, steps)?;
            Ok(Finding::Total(total))
        }
        _ => unreachable!(),
    }
}

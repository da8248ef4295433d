// What each question found in some rows is joined with what it found in those behind them.
ghost use Rattle.std.specs.Prelude.{◌≡◌, IfOk};
ghost use Rattle.std.specs.List.{AllZip};
ghost use Rattle.cf_plain.specs.Segments.{CanJoin};
ghost use Rattle.cf_long.specs.Found.{joined_each};

use cf_plain::Finding;
use cf_row::Memory;
use std::alloc::Global;

/// What each question found in `base` rows, and then in those behind them.
pub(crate) fn join_each(
    alloc: Global,
    base: u32,
    found: Vec<Finding>,
    more: Vec<Finding>,
) -> Result<Vec<Finding>, Memory>
    requires can { AllZip (CanJoin base) found.items more.items }
    ensures { IfOk result (λ all. all.items ≡ joined_each base found.items more.items) }
{
    let mut all = Vec::with_capacity(alloc, found.len())?;
    let mut behind = more.into_iter();
    for finding in found {
        let Some(other) = behind.next() else {
            unreachable!();
        };
        all.push(finding.join(alloc, base, other)?)?;
    }
    Ok(all)
}

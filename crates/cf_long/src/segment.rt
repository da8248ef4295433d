// A segment is asked all that the plan asks, and let go.
ghost use Rattle.std.specs.Prelude.{◌≡◌, ◌≤◌, [], List, MatchResult, IfOk};
ghost use Rattle.cf_row.specs.Row.{RowValue};
ghost use Rattle.cf_shape.specs.Lanes.{ShapeValue};
ghost use Rattle.cf_segments.specs.Segments.{room_of};
ghost use Rattle.cf_fill.specs.Filling.{IsFilled, IsFilling};
ghost use Rattle.cf_fill.specs.Logs.{IsUnmade};
ghost use Rattle.cf_long.specs.ByRow.{AreNumbered};
ghost use Rattle.cf_long.specs.Found.{found_in};
ghost use Rattle.cf_long.specs.Longs.{IsLetGo};

use crate::order::all_by_row;
use cf_fill::{Context, Filling, Unmade};
use cf_outside::Gate;
use cf_plain::{Ask, Finding};
use cf_row::Memory;
use std::alloc::Global;
use std::thread::Threads;

/// What each question finds in no row.
pub(crate) fn nothings(alloc: Global, asks: &[Ask]) -> Result<Vec<Finding>, Memory>
    ensures { (shape : ShapeValue) → IfOk result (λ found. found.items ≡ found_in shape asks.now []) }
{
    let mut found = Vec::with_capacity(alloc, asks.len())?;
    for ask in asks {
        found.push(Finding::nothing(alloc, ask))?;
    }
    Ok(found)
}

/// Loads the last rows of the segment, asks it every question and every trigger of the plan once, and lets it go: what each finds in
/// its rows, which are numbered one by one from the first.
pub(crate) fn let_go<R: Threads + Sync, G: Gate>(
    context: &Context<'_, R, G>,
    filling: Filling,
    first: u32,
) -> Result<Vec<Finding>, Unmade>
    requires filled { IsFilling filling }
    requires few { filling.count ≤ room_of filling.segments }
    ensures { (rows : List RowValue) → IsFilled filling rows → AreNumbered first rows
        → MatchResult result (λ found. IsLetGo filling.segments.shape filling.loader.plan rows found.items) (IsUnmade filling.segments.shape rows) }
{
    let _lawful = filling.shape();
    let (sealing, found) = filling.find(context)?;
    Ok(all_by_row(context.alloc, &sealing.nums, first, found)?)
}

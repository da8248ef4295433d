// The places of the entries of which an expression holds.
ghost use Rattle.std.specs.Prelude.{◌≡◌, ◌<◌, ◌≤◌, ◌^◌, length, IfOk};
ghost use Rattle.cf_row.specs.Expr.{IsOfSchema, holds_of};
ghost use Rattle.cf_plain.specs.Asks.{rows_in, row_at, places};
ghost use Rattle.cf_scan.specs.Scans.{FitAll};

use cf_row::{Entry, Expr, Memory, Schema, holds};
use rayon::prelude::*;
use std::alloc::Global;
use std::thread::Threads;

// Whether the expression holds of the entry at that place.
fn holds_at(schema: &Schema, expr: &Expr, entries: &[Entry], place: u32) -> bool
    requires exists { place < length entries.now }
    requires suits { IsOfSchema schema.now expr.now }
    requires fit { FitAll schema.now entries.now }
    ensures { result ≡ holds_of expr.now (row_at (rows_in entries.now) place) }
{
    holds(schema, expr, &entries[place as usize].row)
}

/// The places, ascending, of the entries of which the expression holds. They are tried in threads of their own where these
/// can be made.
pub fn scan(
    rt: &(impl Threads + Sync),
    alloc: Global,
    schema: &Schema,
    expr: &Expr,
    entries: &[Entry],
) -> Result<Vec<u32>, Memory>
    requires suits { IsOfSchema schema.now expr.now }
    requires fit { FitAll schema.now entries.now }
    requires few { length entries.now ≤ 2 ^ 20 }
    ensures { IfOk result (λ found. found.items ≡ places (holds_of expr.now) (rows_in entries.now)) }
{
    (0..entries.len() as u32)
        .into_par_iter()
        .filter(
            |place: &u32| -> bool
                requires { (place.now < length entries.now) × IsOfSchema schema.now expr.now × FitAll schema.now entries.now }
                ensures { result ≡ holds_of expr.entry.now (row_at (rows_in entries.entry.now) place.now) }
            { holds_at(schema, expr, entries, *place) },
        )
        .collect(rt, alloc)
}

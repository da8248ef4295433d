// The quad of an attribute over the entries of which an expression holds.
ghost use Rattle.std.specs.Prelude.{◌≡◌, ℕ, ◌<◌, ◌≤◌, ◌^◌, List, length, map, flat_map, sum_by, IfOk};
ghost use Rattle.cf_row.specs.Expr.{IsOfSchema};
ghost use Rattle.cf_fold.specs.Quads.{quad_of};
ghost use Rattle.cf_plain.specs.Asks.{rows_in};
ghost use Rattle.rayon.specs.Lists.{chunks_of};
ghost use Rattle.cf_plain.specs.Totals.{IsNarrow, total};
ghost use Rattle.cf_scan.specs.Scans.{FitAll};

use cf_fold::Quad;
use cf_plain::total_of_expr;
use cf_row::{Entry, Expr, Memory, Schema};
use rayon::prelude::*;
use std::alloc::Global;
use std::thread::Threads;

// How many entries are added up one after the other.
const CHUNK: usize = 4096;

// The quad of all numbers of some lists, of which these are the quads.
fn merged(parts: &[Quad]) -> Quad
    requires few { sum_by (λ part. part.count) parts.now ≤ 2 ^ 20 }
    ensures { (lists : List (List ℕ)) → parts.now ≡ map quad_of lists → result ≡ quad_of (flat_map (λ xs. xs) lists) }
{
    let mut total = Quad::EMPTY;
    for part in parts {
        total = total.merge(*part);
    }
    total
}

// The quads of the chunks.
fn chunk_totals(
    rt: &(impl Threads + Sync),
    alloc: Global,
    schema: &Schema,
    attr: u8,
    expr: &Expr,
    entries: &[Entry],
) -> Result<Vec<Quad>, Memory>
    requires narrow { IsNarrow schema.now attr }
    requires suits { IsOfSchema schema.now expr.now }
    requires fit { FitAll schema.now entries.now }
    ensures { IfOk result (λ parts. parts.items ≡ map (λ chunk. total attr expr.now (rows_in chunk)) (chunks_of 4096 entries.now)) }
{
    entries
        .par_chunks(CHUNK)
        .with_min_len(1)
        .map(
            |chunk: &[Entry]| -> Quad
                requires { IsNarrow schema.now attr × IsOfSchema schema.now expr.now × FitAll schema.now chunk.now × (length chunk.now ≤ 2 ^ 20) }
                ensures { result ≡ total attr expr.entry.now (rows_in chunk.now) }
            { total_of_expr(schema, attr, expr, chunk) },
        )
        .collect(rt, alloc)
}

/// The quad of the attribute over the entries of which the expression holds. They are added up in threads of their own where
/// these can be made.
pub fn scan_total(
    rt: &(impl Threads + Sync),
    alloc: Global,
    schema: &Schema,
    attr: u8,
    expr: &Expr,
    entries: &[Entry],
) -> Result<Quad, Memory>
    requires narrow { IsNarrow schema.now attr }
    requires suits { IsOfSchema schema.now expr.now }
    requires fit { FitAll schema.now entries.now }
    requires few { length entries.now ≤ 2 ^ 20 }
    ensures { IfOk result (λ found. found ≡ total attr expr.now (rows_in entries.now)) }
{
    let parts = chunk_totals(rt, alloc, schema, attr, expr, entries)?;
    Ok(merged(&parts))
}

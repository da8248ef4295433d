// The quad of an attribute over the entries of which an expression holds.
ghost use Rattle.std.specs.Prelude.{◌≡◌, ◌≤◌, ◌^◌, length, All};
ghost use Rattle.cf_row.specs.Row.{Fits};
ghost use Rattle.cf_row.specs.Expr.{IsOfSchema};
ghost use Rattle.cf_row.specs.Times.{number_at};
ghost use Rattle.cf_plain.specs.Asks.{rows_in};
ghost use Rattle.cf_plain.specs.Totals.{IsNarrow, total};

use cf_fold::Quad;
use cf_row::{Entry, Expr, Row, Schema, holds};

/// The row's number at an attribute of numbers below 2^32.
pub fn amount(schema: &Schema, attr: u8, row: &Row) -> u32
    requires narrow { IsNarrow schema.now attr }
    requires fits { Fits schema.now row.now }
    ensures { result ≡ number_at row.now attr }
{
    let _lawful = schema.attrs();
    row.number(attr) as u32
}

/// The quad of the attribute over the entries of which the expression holds. They are added up one after the other.
pub fn total_of_expr(schema: &Schema, attr: u8, expr: &Expr, entries: &[Entry]) -> Quad
    requires narrow { IsNarrow schema.now attr }
    requires suits { IsOfSchema schema.now expr.now }
    requires fit { All (λ entry. Fits schema.now entry.row) entries.now }
    requires few { length entries.now ≤ 2 ^ 20 }
    ensures { result ≡ total attr expr.now (rows_in entries.now) }
{
    let mut total = Quad::EMPTY;
    for entry in entries {
        if holds(schema, expr, &entry.row) {
            total = total.add(amount(schema, attr, &entry.row));
        }
    }
    total
}

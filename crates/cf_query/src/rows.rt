// Rows are read back from the log.
ghost use Rattle.std.specs.Prelude.{◌≡◌, ◌+◌, ◌<◌, IfOk};
ghost use Rattle.cf_row.specs.Words.{word_count as word_count_of};
ghost use Rattle.cf_plain.specs.Asks.{rows_in, row_at};
ghost use Rattle.cf_query.specs.Looking.{HasLooked, IsCovered};

use cf_row::{Memory, Row};
use cf_table::{MultiLog, Pass, Steps};
use std::alloc::Global;
use std::sync::ledger::Ledger;

/// The row of the entry at that offset, which the pass knows as covered. Its attribute words and its tag are read, one step
/// each, and no others. If memory runs out, there is no row, and the pass has looked at those words alone.
pub fn row<P: Pass, L: Ledger>(
    log: &MultiLog,
    alloc: Global,
    pass: &mut P,
    offset: u32,
    steps: &mut Steps<L>,
) -> Result<Row, Memory>
    requires covered { IsCovered log.now (P.held pass.old) offset }
    ensures row { IfOk result (λ row. row ≡ row_at (rows_in (P.held pass.old).view.seen) offset) }
    ensures looked { HasLooked (P.held pass.old) (P.held pass.new) steps.old steps.new }
    ensures steps { steps.new ≡ steps.old + (word_count_of log.now.shape.schema + 1) }
{
    let entry = log.load_entry(alloc, pass, offset, steps)?;
    Ok(entry.row)
}

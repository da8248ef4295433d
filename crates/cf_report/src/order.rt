// The line of a log's order.
ghost use Rattle.std.specs.Prelude.{◌≡◌, ◌<◌, ◌≤◌, ◌++◌, ◌∷◌, [], length, drop, OnOk, string_bytes};
ghost use Rattle.cf_plain.specs.Order.{order_of};
ghost use Rattle.cf_report.specs.Report.{order_line};
ghost use Rattle.cf_report.specs.Runs.{IsRun, IsWriterAt};

use crate::Tags;
use cf_row::Memory;
use std::fmt::Write;

// How many entries from this place on are of its writer.
fn run_len(entries: &Tags, start: usize, writer: u8) -> usize
    requires within { start < length entries.now }
    requires writer { IsWriterAt entries.now start writer }
    ensures { IsRun writer (drop start entries.now) result }
{
    let count = entries.len();
    let mut end = start + 1;
    while end < count && entries.writer_at(end) == writer {
        end += 1;
    }
    end - start
}

/// The writers of the entries, in their longest runs.
pub(crate) fn push_order(text: &mut String, entries: &Tags) -> Result<(), Memory>
    ensures { OnOk result (string_bytes text.new ≡ string_bytes text.old ++ order_line (order_of entries.now)) }
{
    text.push_str("order")?;
    let mut start = 0;
    while start < entries.len() {
        let writer = entries.writer_at(start);
        let count = run_len(entries, start, writer);
        write!(text, " {writer}*{count}")?;
        start += count;
    }
    text.push_str("\n")
}

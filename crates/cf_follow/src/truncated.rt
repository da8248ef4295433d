// What is written of a capture that ends within a record.
ghost use Rattle.std.specs.Prelude.{◌≡◌, ◌++◌, OnOk, string_bytes};
ghost use Rattle.cf_follow.specs.Followed.{truncated_line};

use cf_row::Memory;
use std::fmt::Write;

/// Appends the line of a capture that ends within that record, and none for one that ends well. If memory runs out, the text may end
/// with a part of it: drop the text.
pub fn push_truncated(text: &mut String, cut: Option<u64>) -> Result<(), Memory>
    ensures { OnOk result (string_bytes text.new ≡ string_bytes text.old ++ truncated_line cut) }
{
    match cut {
        Some(record) => write!(text, "truncated: record {record}\n"),
        None => Ok(()),
    }
}

// What is written of a capture that ends within a record.
ghost use Rattle.std.specs.Prelude.{◌≡◌, ◌++◌, IfOk};
ghost use Rattle.cf_follow.specs.Followed.{truncated_line};

use cf_follow::push_truncated;
use cf_row::Memory;
use std::alloc::Global;

/// A text about one capture, with the line of one that ends within that record behind it.
pub(crate) fn with_truncated(
    alloc: Global,
    mut text: Vec<u8>,
    cut: Option<u64>,
) -> Result<Vec<u8>, Memory>
    ensures { IfOk result (λ whole. whole.items ≡ text.items ++ truncated_line cut) }
{
    let mut line = String::new(alloc);
    push_truncated(&mut line, cut)?;
    text.extend_from_slice(line.as_bytes())?;
    Ok(text)
}

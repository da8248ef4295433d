// The numbers and the writers of entries, by the tag of each alone.
ghost use Rattle.std.specs.Prelude.{◌≡◌, ◌+◌, ◌<◌, ◌++◌, length, OnOk, Some, slice_get};
ghost use Rattle.cf_history.specs.Order.{order_of};
ghost use Rattle.cf_row.specs.declared.row.Entry.{Entry};
ghost use Rattle.cf_table.specs.Values.{IsOf};
ghost use Rattle.cf_query.specs.Tags.{nums_of};
ghost use Rattle.cf_query.specs.Looking.{HasLooked, IsCovered};

use cf_row::{Memory, word_count};
use cf_table::{MultiLog, Pass, Steps};
use std::sync::ledger::Ledger;

// The number and the writer of the entry at that offset. One word is loaded.
fn tag_at<P: Pass, L: Ledger>(
    log: &MultiLog,
    pass: &mut P,
    offset: u32,
    steps: &mut Steps<L>,
) -> (u32, u8)
    requires covered { IsCovered log.now (P.held pass.old) offset }
    ensures num { (entry : Entry) → slice_get (P.held pass.old).view.seen offset ≡ Some entry → result.0 ≡ entry.row.num }
    ensures writer { (entry : Entry) → slice_get (P.held pass.old).view.seen offset ≡ Some entry → result.1 ≡ entry.writer }
    ensures looked { HasLooked (P.held pass.old) (P.held pass.new) steps.old steps.new }
    ensures steps { steps.new ≡ steps.old + 1 }
{
    let last = word_count(log.shape().schema());
    // No more is covered than there are places, as the load tells.
    let place = offset.min(log.shape().capacity() - 1);
    let tag = log.load_word(pass, place, last as u8, steps);
    ((tag / 16) as u32, (tag % 16) as u8)
}

/// Puts the numbers and the writers of the entries that the pass has seen behind others, in the order of the log. The tag of
/// each is read, one step each, and no other word. If memory runs out, some may be missing, and the pass has looked at those
/// words alone.
pub fn push_tags<P: Pass, L: Ledger>(
    log: &MultiLog,
    pass: &mut P,
    nums: &mut Vec<u32>,
    writers: &mut Vec<u8>,
    steps: &mut Steps<L>,
) -> Result<(), Memory>
    requires of { IsOf (P.held pass.old) log.now }
    ensures nums { OnOk result (nums.new.items ≡ nums.old.items ++ nums_of (P.held pass.old).view.seen) }
    ensures writers { OnOk result (writers.new.items ≡ writers.old.items ++ order_of (P.held pass.old).view.seen) }
    ensures looked { HasLooked (P.held pass.old) (P.held pass.new) steps.old steps.new }
    ensures steps { OnOk result (steps.new ≡ steps.old + length (P.held pass.old).view.seen) }
{
    for offset in 0..pass.covered() {
        let (num, writer) = tag_at(log, pass, offset, steps);
        nums.push(num)?;
        writers.push(writer)?;
    }
    Ok(())
}

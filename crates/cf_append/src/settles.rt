// The read tail is moved up to the first record that isn't finished.
ghost use Rattle.std.specs.Prelude.{◌≡◌, ◌+◌, ◌-◌, ◌*◌, ◌<◌, ◌≤◌, length};
ghost use Rattle.cf_table.specs.Loads.{CountsLoads};
ghost use Rattle.cf_table.specs.Values.{IsOf};
ghost use Rattle.cf_append.specs.Appends.{HasMovedTail, HasSettledTo, HasWaited};

use cf_table::{MultiLog, Pass, Steps, WriterPass};
use std::sync::Wait;
use std::sync::ledger::Ledger;
use std::thread::yield_now;

/// Whether a record is covered by the read tail, or which record before it, or itself, was found unfinished.
#[derive(Clone, Copy, Debug, PartialEq, Eq)]
pub enum Settled {
    Covered,
    Behind(u32),
}

// Loads the read tail, and moves it over each finished record, up to the first that isn't.
pub(crate) fn move_tail<L: Ledger>(log: &MultiLog, pass: &mut WriterPass, steps: &mut Steps<L>)
    requires of { IsOf pass.old log.now }
    ensures moved { HasMovedTail log.now.shape pass.old pass.new }
    ensures known { pass.new.view.known ≡ pass.old.view.known }
    ensures steps { steps.new ≤ steps.old + 2 * (length pass.new.view.seen - length pass.old.view.seen + 1) }
    ensures loads { CountsLoads pass.old pass.new steps.old steps.new }
{
    log.load_tail(pass, false, steps);
    log.settle_tail(pass, steps);
}

/// Moves the read tail over each finished record, up to the first that isn't. Says whether the record at that offset is
/// covered then, or which one, found unfinished by the last look, stands in its way. It takes two steps for each place by which
/// the read tail is moved and for one more.
pub fn settle<L: Ledger>(
    log: &MultiLog,
    pass: &mut WriterPass,
    offset: u32,
    steps: &mut Steps<L>,
) -> Settled
    requires of { IsOf pass.old log.now }
    requires place { offset < log.now.shape.capacity }
    ensures settled { HasSettledTo log.now.shape offset pass.old pass.new result }
    ensures steps { steps.new ≤ steps.old + 2 * (length pass.new.view.seen - length pass.old.view.seen + 1) }
    ensures loads { CountsLoads pass.old pass.new steps.old steps.new }
{
    move_tail(log, pass, steps);
    let covered = pass.covered();
    if offset < covered {
        Settled::Covered
    } else {
        Settled::Behind(covered)
    }
}

// Moves the read tail on until the record at that offset is covered.
pub(crate) fn wait_for<R: Wait, L: Ledger>(
    log: &MultiLog,
    rt: &R,
    pass: &mut WriterPass,
    offset: u32,
    steps: &mut Steps<L>,
)
    requires of { IsOf pass.old log.now }
    ensures waited { HasWaited log.now.shape offset pass.old pass.new }
    ensures loads { CountsLoads pass.old pass.new steps.old steps.new }
{
    for _ in rt.forever() {
        if offset < pass.covered() {
            break;
        }
        yield_now();
        move_tail(log, pass, steps);
    }
}

// The entries of a lane whose key is in a range.
ghost use Rattle.std.specs.Prelude.{◌≡◌, ◌+◌, ◌-◌, ◌^◌, ◌<◌, ◌≤◌, length, IfOk};
ghost use Rattle.cf_shape.specs.Nodes.{levels_of};
ghost use Rattle.cf_plain.specs.Asks.{rows_in, places, is_keyed_between};
ghost use Rattle.cf_table.specs.Moves.{AreFit};
ghost use Rattle.cf_walk.specs.Walks.{HasWalked, IsOnLane};

use crate::range::collect_range;
use crate::tree::span_of;
use cf_plain::Places;
use cf_row::Memory;
use cf_shape::{Shape, levels};
use cf_table::{MultiLog, Pass, Steps};
use std::alloc::Global;
use std::sync::ledger::Ledger;

// The greatest key that the lane can have.
pub(crate) fn greatest_key(shape: &Shape, lane: u8) -> u64
    requires { lane < length shape.now.lanes }
    ensures { result + 1 ≡ 16 ^ levels_of shape.now lane }
{
    let _lawful = shape.lanes();
    (span_of(levels(shape, lane) - 1) - 1) * 16 + 15
}

/// The places of the entries that were seen whose key is in the range, ascending. They are found by the lane's tree and
/// chains.
pub fn find<P: Pass, L: Ledger>(
    log: &MultiLog,
    alloc: Global,
    pass: &mut P,
    lane: u8,
    range: (u64, u64),
    steps: &mut Steps<L>,
) -> Result<Places, Memory>
    requires lane { IsOnLane log.now lane (P.held pass.old) }
    requires fit { AreFit log.now.shape (P.held pass.old).view }
    ensures found { IfOk result (λ found. found ≡ places (is_keyed_between log.now.shape lane range.0 range.1) (rows_in (P.held pass.old).view.seen)) }
    ensures walked { HasWalked (P.held pass.old) (P.held pass.new) steps.old steps.new }
    ensures steps { range.0 ≡ range.1 → IfOk result (λ found. steps.new ≤ steps.old + (levels_of log.now.shape lane - 1) + log.now.shape.writers
        + length found + (log.now.shape.capacity - length (P.held pass.old).view.seen)) }
{
    let (low, high) = range;
    let high = high.min(greatest_key(log.shape(), lane));
    let mut found = Vec::new(alloc);
    if low <= high {
        collect_range(log, pass, lane, (low, high), &mut found, steps)?;
    }
    found.sort_unstable();
    Ok(Places::new(found))
}

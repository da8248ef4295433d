// The leaves of a range of keys.
ghost use Rattle.std.specs.Prelude.{◌≡◌, ◌+◌, ◌-◌, ◌<◌, ◌≤◌, ◌++◌, length, IfOk, OnOk};
ghost use Rattle.cf_shape.specs.Nodes.{levels_of};
ghost use Rattle.cf_walk.specs.Walks.{range_places, WentOver, HasWalked, IsOnLane};
ghost use Rattle.cf_walk.specs.Reached.{IsPath};

use crate::chain::{Leaf, collect_leaf};
use crate::key_range::KeyRange;
use crate::tree::{Descent, Path, no_path, reach};
use cf_row::Memory;
use cf_table::{MultiLog, Pass, Steps};
use std::sync::ledger::Ledger;

// The places of the entries with this key, of those that were seen. Where a node is missing on the key's path it goes over
// all keys that begin so, none of which has an entry. Answers the last key that it went over.
fn collect_key<P: Pass, L: Ledger>(
    log: &MultiLog,
    pass: &mut P,
    keys: KeyRange,
    path: &mut Path,
    found: &mut Vec<u32>,
    steps: &mut Steps<L>,
) -> Result<u64, Memory>
    requires lane { IsOnLane log.now keys.lane (P.held pass.old) }
    requires range { keys.low ≤ keys.high }
    requires path { IsPath log.now.shape keys.lane path.old (P.held pass.old).view }
    ensures path { IfOk result (λ _. IsPath log.now.shape keys.lane path.new (P.held pass.new).view) }
    ensures found { IfOk result (WentOver log.now.shape keys.lane keys.low keys.high (P.held pass.old).view.seen found.old.items found.new.items) }
    ensures walked { HasWalked (P.held pass.old) (P.held pass.new) steps.old steps.new }
    ensures steps { IfOk result (λ _. steps.new ≤ steps.old + (levels_of log.now.shape keys.lane - 1) + log.now.shape.writers
        + (length found.new.items - length found.old.items) + (log.now.shape.capacity - length (P.held pass.old).view.seen)) }
{
    match reach(log, pass, keys.lane, keys.low, path, steps) {
        Descent::Leaf(node) => {
            let leaf = Leaf {
                lane: keys.lane,
                key: keys.low,
                node,
            };
            collect_leaf(log, pass, leaf, found, steps)?;
            Ok(keys.low)
        }
        Descent::Gap(span) => Ok(keys.last_alike(span)),
    }
}

/// The places of the entries with a key in the range, of those that were seen, key by key.
pub(crate) fn collect_range<P: Pass, L: Ledger>(
    log: &MultiLog,
    pass: &mut P,
    lane: u8,
    range: (u64, u64),
    found: &mut Vec<u32>,
    steps: &mut Steps<L>,
) -> Result<(), Memory>
    requires lane { IsOnLane log.now lane (P.held pass.old) }
    requires range { range.0 ≤ range.1 }
    ensures found { OnOk result (found.new.items ≡ found.old.items ++ range_places log.now.shape lane range.0 (P.held pass.old).view.seen (range.1 - range.0 + 1)) }
    ensures walked { HasWalked (P.held pass.old) (P.held pass.new) steps.old steps.new }
    ensures steps { range.0 ≡ range.1 → OnOk result (steps.new ≤ steps.old + (levels_of log.now.shape lane - 1) + log.now.shape.writers
        + (length found.new.items - length found.old.items) + (log.now.shape.capacity - length (P.held pass.old).view.seen)) }
{
    let (low, high) = range;
    let _lawful = log.shape();
    let mut path = no_path();
    let all = KeyRange { lane, low, high };
    let mut last = collect_key(log, pass, all, &mut path, found, steps)?;
    while last < high {
        let low = last + 1;
        let rest = KeyRange { lane, low, high };
        last = collect_key(log, pass, rest, &mut path, found, steps)?;
    }
    Ok(())
}

// The quad of a range of keys.
ghost use Rattle.std.specs.Prelude.{◌≡◌, ◌+◌, ◌-◌, ◌*◌, ◌^◌, ◌<◌, ◌≤◌, length};
ghost use Rattle.cf_fold.specs.Quads.{quad_of};
ghost use Rattle.cf_shape.specs.Nodes.{levels_of};
ghost use Rattle.cf_plain.specs.Asks.{rows_in, is_keyed_between, total_over};
ghost use Rattle.cf_walk.specs.Walks.{range_places, HasWalked, IsMeasuring};
ghost use Rattle.cf_walk.specs.Measures.{amounts_at, HasMeasured};
ghost use Rattle.cf_walk.specs.Reached.{IsPath};

use crate::chain::Leaf;
use crate::finds::greatest_key;
use crate::key_range::KeyRange;
use crate::quads::leaf_quad;
use crate::tree::{Descent, Path, no_path, reach};
use cf_fold::Quad;
use cf_table::{MultiLog, Pass, Steps};
use std::sync::ledger::Ledger;

// The quad of what the lane measures of the entries with this key, of those that were seen. Where a node is missing on the
// key's path it goes over all keys that begin so, none of which has an entry. Answers the last key that it went over too.
pub(crate) fn measure_key<P: Pass, L: Ledger>(
    log: &MultiLog,
    pass: &mut P,
    keys: KeyRange,
    path: &mut Path,
    steps: &mut Steps<L>,
) -> (u64, Quad)
    requires measures { IsMeasuring log.now keys.lane (P.held pass.old) }
    requires range { keys.low ≤ keys.high }
    requires path { IsPath log.now.shape keys.lane path.old (P.held pass.old).view }
    ensures path { IsPath log.now.shape keys.lane path.new (P.held pass.new).view }
    ensures quad { HasMeasured log.now.shape keys.lane keys.low keys.high (P.held pass.old).view.seen result.1 result.0 }
    ensures one { 0 < result.1.count → result.0 ≡ keys.low }
    ensures walked { HasWalked (P.held pass.old) (P.held pass.new) steps.old steps.new }
    ensures steps { steps.new ≤ steps.old + (levels_of log.now.shape keys.lane - 1) + 4 * log.now.shape.writers + (log.now.shape.capacity - length (P.held pass.old).view.seen) }
{
    match reach(log, pass, keys.lane, keys.low, path, steps) {
        Descent::Leaf(node) => {
            let leaf = Leaf {
                lane: keys.lane,
                key: keys.low,
                node,
            };
            (keys.low, leaf_quad(log, pass, leaf, steps))
        }
        Descent::Gap(span) => (keys.last_alike(span), Quad::EMPTY),
    }
}

// The quad of what the lane measures of the entries with a key in the range, of those that were seen.
fn measure_keys<P: Pass, L: Ledger>(
    log: &MultiLog,
    pass: &mut P,
    lane: u8,
    range: (u64, u64),
    steps: &mut Steps<L>,
) -> Quad
    requires measures { IsMeasuring log.now lane (P.held pass.old) }
    requires range { range.0 ≤ range.1 }
    requires top { range.1 < 16 ^ levels_of log.now.shape lane }
    ensures quad { result ≡ quad_of (amounts_at log.now.shape lane (P.held pass.old).view.seen (range_places log.now.shape lane range.0 (P.held pass.old).view.seen (range.1 - range.0 + 1))) }
    ensures walked { HasWalked (P.held pass.old) (P.held pass.new) steps.old steps.new }
    ensures steps { range.0 ≡ range.1 → steps.new ≤ steps.old + (levels_of log.now.shape lane - 1) + 4 * log.now.shape.writers + (log.now.shape.capacity - length (P.held pass.old).view.seen) }
{
    let (low, high) = range;
    let _lawful = log.shape();
    let mut path = no_path();
    let all = KeyRange { lane, low, high };
    let (mut last, mut total) = measure_key(log, pass, all, &mut path, steps);
    while last < high {
        let low = last + 1;
        let rest = KeyRange { lane, low, high };
        let (next, quad) = measure_key(log, pass, rest, &mut path, steps);
        total = total.merge(quad);
        last = next;
    }
    total
}

/// The quad of what the lane measures of the entries that were seen whose key is in the range. They are found by the lane's
/// tree and chains, and no memory is taken.
pub fn measure_range<P: Pass, L: Ledger>(
    log: &MultiLog,
    pass: &mut P,
    lane: u8,
    range: (u64, u64),
    steps: &mut Steps<L>,
) -> Quad
    requires measures { IsMeasuring log.now lane (P.held pass.old) }
    ensures quad { result ≡ total_over log.now.shape lane (is_keyed_between log.now.shape lane range.0 range.1) (rows_in (P.held pass.old).view.seen) }
    ensures walked { HasWalked (P.held pass.old) (P.held pass.new) steps.old steps.new }
    ensures steps { range.0 ≡ range.1 → steps.new ≤ steps.old + (levels_of log.now.shape lane - 1) + 4 * log.now.shape.writers + (log.now.shape.capacity - length (P.held pass.old).view.seen) }
{
    let (low, high) = range;
    let high = high.min(greatest_key(log.shape(), lane));
    if high < low {
        return Quad::EMPTY;
    }
    measure_keys(log, pass, lane, (low, high), steps)
}

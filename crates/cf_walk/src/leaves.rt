// The groups of a lane's entries by their keys.
ghost use Rattle.std.specs.Prelude.{◌≡◌, ◌^◌, ◌<◌, ◌≤◌, map, false, IfOk};
ghost use Rattle.cf_shape.specs.Lanes.{has_by, lane_at};
ghost use Rattle.cf_shape.specs.Nodes.{levels_of};
ghost use Rattle.cf_plain.specs.Asks.{rows_in};
ghost use Rattle.cf_plain.specs.Groups.{groups as groups_by, as_group};
ghost use Rattle.cf_walk.specs.Walks.{HasWalked, IsMeasuring};
ghost use Rattle.cf_walk.specs.Measures.{HasGrouped};
ghost use Rattle.cf_walk.specs.Reached.{IsPath};

use crate::finds::greatest_key;
use crate::key_range::KeyRange;
use crate::measures::measure_key;
use crate::tree::{Path, no_path};
use cf_plain::Group;
use cf_row::Memory;
use cf_table::{MultiLog, Pass, Steps};
use std::alloc::Global;
use std::sync::ledger::Ledger;

// The group of the key, where an entry that was seen has it. Answers the last key that it went over.
fn add_group<P: Pass, L: Ledger>(
    log: &MultiLog,
    pass: &mut P,
    keys: KeyRange,
    path: &mut Path,
    groups: &mut Vec<Group>,
    steps: &mut Steps<L>,
) -> Result<u64, Memory>
    requires measures { IsMeasuring log.now keys.lane (P.held pass.old) }
    requires range { keys.low ≤ keys.high }
    requires top { keys.high < 16 ^ levels_of log.now.shape keys.lane }
    requires alone { has_by (lane_at log.now.shape keys.lane).key ≡ false }
    requires path { IsPath log.now.shape keys.lane path.old (P.held pass.old).view }
    ensures path { IfOk result (λ _. IsPath log.now.shape keys.lane path.new (P.held pass.new).view) }
    ensures found { IfOk result (HasGrouped log.now.shape keys.lane keys.low keys.high (rows_in (P.held pass.old).view.seen) groups.old.items groups.new.items) }
    ensures walked { HasWalked (P.held pass.old) (P.held pass.new) steps.old steps.new }
{
    let _lawful = log.shape();
    let (last, quad) = measure_key(log, pass, keys, path, steps);
    if quad.count() > 0 {
        groups.push(Group {
            key: keys.low,
            by: None,
            quad,
        })?;
    }
    Ok(last)
}

/// For each key that an entry that was seen has, ascending, the key and the quad of what the lane measures of its entries.
/// They are found by the lane's tree and chains. The lane doesn't keep the rows of a key apart.
pub fn groups<P: Pass, L: Ledger>(
    log: &MultiLog,
    alloc: Global,
    pass: &mut P,
    lane: u8,
    steps: &mut Steps<L>,
) -> Result<Vec<Group>, Memory>
    requires measures { IsMeasuring log.now lane (P.held pass.old) }
    requires alone { has_by (lane_at log.now.shape lane).key ≡ false }
    ensures found { IfOk result (λ found. found.items ≡ map as_group (groups_by log.now.shape lane (rows_in (P.held pass.old).view.seen))) }
    ensures walked { HasWalked (P.held pass.old) (P.held pass.new) steps.old steps.new }
{
    let high = greatest_key(log.shape(), lane);
    let mut groups = Vec::new(alloc);
    let mut path = no_path();
    let all = KeyRange { lane, low: 0, high };
    let mut last = add_group(log, pass, all, &mut path, &mut groups, steps)?;
    while last < high {
        let low = last + 1;
        let rest = KeyRange { lane, low, high };
        last = add_group(log, pass, rest, &mut path, &mut groups, steps)?;
    }
    Ok(groups)
}

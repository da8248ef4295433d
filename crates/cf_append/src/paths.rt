// The paths of a row are made: in each lane that selects it a node for each proper prefix of its key.
ghost use Rattle.std.specs.Prelude.{ℕ, ◌≡◌, ◌+◌, ◌-◌, ◌*◌, ◌<◌, ◌≤◌, true, length, slice_get, IfSome};
ghost use Rattle.cf_row.specs.Row.{Fits};
ghost use Rattle.cf_shape.specs.Lanes.{selected_by};
ghost use Rattle.cf_shape.specs.Nodes.{levels_of};
ghost use Rattle.cf_shape.specs.Places.{Slot, place as place_by, sizes_of};
ghost use Rattle.cf_law.specs.Words.{Spot};
ghost use Rattle.cf_law.specs.Steps.{IsChild};
ghost use Rattle.cf_law.specs.Shapes.{layout as layout_of};
ghost use Rattle.cf_append.specs.Appends.{IsReady};
ghost use Rattle.cf_append.specs.Calls.{HasMadeNodes};
ghost use Rattle.cf_append.specs.Paths.{IsPrefix, IsAlong, IsOnPath, IsNodeOf, IsFiled, HasFilings, Remembers, KeepsLeaf, KeepsLeaves, spot_of, spot_before, path_steps};

use crate::leaves::Leaves;
use cf_row::Row;
use cf_shape::{key, levels, place_child, place_root, selects};
use cf_table::{MultiLog, Steps, WriterPass};
use std::sync::ledger::Ledger;

// The first nibbles of some keys of a lane, as a number.
#[derive(Clone, Copy, Drop)]
pub(crate) struct Prefix {
    lane: u8,
    level: u8,
    front: u64,
}

/// What files a row in a lane that selects it: its key there, and the node of its leaf.
#[derive(Clone, Copy, Drop)]
pub(crate) struct Filing {
    pub(crate) key: u64,
    pub(crate) leaf: u32,
}

// The node that stands for the spot `to.0`, whose child word is at that place: the one found there, else an own one that is
// linked there, none where all own ones are used. `_at` is for the proof.
fn take_child<L: Ledger>(
    log: &MultiLog,
    pass: &mut WriterPass,
    place: u64,
    level: u8,
    _at: (Prefix, u32),
    steps: &mut Steps<L>,
) -> Option<u32>
    ghost to: { Spot × Slot }
    requires ready { IsReady log.now pass.old }
    requires child { IsChild (layout_of log.now.shape) pass.old.view to.0 to.1 }
    requires place { place ≡ place_by (sizes_of log.now.shape) to.1 }
    requires level { level ≡ length to.0.path }
    ensures made { HasMadeNodes log.now (λ s. s ≡ to.0) (λ p. IsNodeOf log.now.shape p to.0) pass.old pass.new steps.old steps.new result }
    ensures steps { steps.new ≤ steps.old + 3 }
{
    let _lawful = log.shape();
    let found = log.load_child(pass, place, steps);
    if found != 0 {
        return Some((found - 1) as u32);
    }
    let Some(node) = pass.free_node() else {
        return None;
    };
    log.label(pass, node, 32 * place + u64::from(level), steps);
    let named = log.link(pass, place, node, steps);
    if named != 0 {
        return Some((named - 1) as u32);
    }
    Some(node)
}

// The node that stands for a prefix of one nibble.
fn first_node<L: Ledger>(
    log: &MultiLog,
    pass: &mut WriterPass,
    at: Prefix,
    steps: &mut Steps<L>,
) -> Option<u32>
    requires ready { IsReady log.now pass.old }
    requires prefix { IsPrefix log.now.shape at }
    requires one { at.level ≡ 1 }
    ensures made { HasMadeNodes log.now (λ s. s ≡ spot_of at) (λ p. IsNodeOf log.now.shape p (spot_of at)) pass.old pass.new steps.old steps.new result }
    ensures steps { steps.new ≤ steps.old + 3 }
{
    let place = place_root(log.shape(), at.lane, (at.front % 16) as u8);
    take_child(log, pass, place, at.level, (at, 0), steps)
}

// The node that stands for a prefix, below the one that stands for it without its last nibble.
fn next_node<L: Ledger>(
    log: &MultiLog,
    pass: &mut WriterPass,
    at: Prefix,
    above: u32,
    steps: &mut Steps<L>,
) -> Option<u32>
    requires ready { IsReady log.now pass.old }
    requires prefix { IsPrefix log.now.shape at }
    requires more { 1 < at.level }
    requires above { IsNodeOf log.now.shape pass.old.view (spot_before at) above }
    ensures made { HasMadeNodes log.now (λ s. s ≡ spot_of at) (λ p. IsNodeOf log.now.shape p (spot_of at)) pass.old pass.new steps.old steps.new result }
    ensures steps { steps.new ≤ steps.old + 3 }
{
    let place = place_child(log.shape(), above, (at.front % 16) as u8);
    take_child(log, pass, place, at.level, (at, above), steps)
}

// The node that stands for a prefix, after those that stand for the prefixes before it.
fn make_node<L: Ledger>(
    log: &MultiLog,
    pass: &mut WriterPass,
    at: Prefix,
    steps: &mut Steps<L>,
) -> Option<u32>
    requires ready { IsReady log.now pass.old }
    requires prefix { IsPrefix log.now.shape at }
    ensures made { HasMadeNodes log.now (IsAlong at) (λ p. IsNodeOf log.now.shape p (spot_of at)) pass.old pass.new steps.old steps.new result }
    ensures steps { steps.new ≤ steps.old + 3 * at.level }
{
    if at.level == 1 {
        return first_node(log, pass, at, steps);
    }
    let before = Prefix {
        lane: at.lane,
        level: at.level - 1,
        front: at.front / 16,
    };
    let Some(above) = make_node(log, pass, before, steps) else {
        return None;
    };
    next_node(log, pass, at, above, steps)
}

// The leaf of the row in a lane that selects it, after the path to it; none where a node is missing and all own ones are used.
// It is the kept one where that has the front of the row's key, else it is kept.
fn make_path<L: Ledger>(
    log: &MultiLog,
    pass: &mut WriterPass,
    row: &Row,
    lane: u8,
    leaves: &mut Leaves,
    steps: &mut Steps<L>,
) -> Option<Filing>
    requires ready { IsReady log.now pass.old }
    requires fits { Fits log.now.shape.schema row.now }
    requires lane { lane < length log.now.shape.lanes }
    requires selects { selected_by log.now.shape lane row.now ≡ true }
    requires near { Remembers log.now.shape pass.old.view leaves.old }
    ensures made { HasMadeNodes log.now (IsOnPath log.now.shape row.now) (λ p. IsFiled log.now.shape row.now p lane) pass.old pass.new steps.old steps.new result }
    ensures near { Remembers log.now.shape pass.new.view leaves.new }
    ensures kept { IfSome result (λ _. KeepsLeaf log.now.shape row.now leaves.new lane) }
    ensures others { (l : ℕ) → (l ≡ lane → ⊥) → slice_get leaves.new.kept l ≡ slice_get leaves.old.kept l }
    ensures steps { steps.new ≤ steps.old + 3 * (levels_of log.now.shape lane - 1) }
    ensures near_steps { KeepsLeaf log.now.shape row.now leaves.old lane → steps.new ≡ steps.old }
{
    let shape = log.shape();
    let key = key(shape, lane, row);
    let front = key / 16;
    if let Some(leaf) = leaves.find(lane, front) {
        return Some(Filing { key, leaf });
    }
    let at = Prefix {
        lane,
        level: levels(shape, lane) - 1,
        front,
    };
    let Some(leaf) = make_node(log, pass, at, steps) else {
        return None;
    };
    leaves.keep(lane, front, leaf);
    Some(Filing { key, leaf })
}

/// What files the row in each lane that selects it, after the paths to its leaves; none where a node is missing and all own ones
/// are used.
pub(crate) fn make_paths<L: Ledger>(
    log: &MultiLog,
    pass: &mut WriterPass,
    row: &Row,
    leaves: &mut Leaves,
    steps: &mut Steps<L>,
) -> Option<[Option<Filing>; 16]>
    requires ready { IsReady log.now pass.old }
    requires fits { Fits log.now.shape.schema row.now }
    requires near { Remembers log.now.shape pass.old.view leaves.old }
    ensures made { HasMadeNodes log.now (IsOnPath log.now.shape row.now)
        (λ p filed. HasFilings log.now.shape row.now p filed (length log.now.shape.lanes)) pass.old pass.new steps.old steps.new result }
    ensures near { Remembers log.now.shape pass.new.view leaves.new }
    ensures kept { IfSome result (λ _. KeepsLeaves log.now.shape row.now leaves.new (length log.now.shape.lanes)) }
    ensures steps { steps.new ≤ steps.old + path_steps log.now.shape (length log.now.shape.lanes) }
    ensures near_steps { KeepsLeaves log.now.shape row.now leaves.old (length log.now.shape.lanes) → steps.new ≡ steps.old }
{
    let shape = log.shape();
    let lanes = shape.lanes().len() as u8;
    let mut filed = [None; 16];
    for lane in 0..lanes {
        if !selects(shape, lane, row) {
            continue;
        }
        let Some(filing) = make_path(log, pass, row, lane, leaves, steps) else {
            return None;
        };
        filed[usize::from(lane)] = Some(filing);
    }
    Some(filed)
}

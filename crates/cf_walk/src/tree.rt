// The way down a lane's tree.
ghost use Rattle.std.specs.Prelude.{ℕ, ◌≡◌, ◌+◌, ◌-◌, ◌*◌, ◌/◌, ◌^◌, ◌<◌, ◌≤◌, length};
ghost use Rattle.cf_shape.specs.Nodes.{levels_of};
ghost use Rattle.cf_shape.specs.Places.{Slot, place as place_of_slot, sizes_of};
ghost use Rattle.cf_law.specs.Words.{Spot};
ghost use Rattle.cf_law.specs.Steps.Act.{load_child};
ghost use Rattle.cf_table.specs.Values.{IsOf};
ghost use Rattle.cf_table.specs.Effects.{IsLawfulStep, HasStepped, child_effect};
ghost use Rattle.cf_table.specs.Loads.{CountsLoads};
ghost use Rattle.cf_walk.specs.Walks.{IsTurn, HasTurned, turn_slot, HasWalked, IsOnLane};
ghost use Rattle.cf_walk.specs.Reached.{Reached, Shares, IsPath};

use cf_shape::{Shape, levels, place_child, place_root};
use cf_table::{MultiLog, Pass, Steps};
use std::sync::ledger::Ledger;

// The next node on a key's path: so many of its first nibbles, as a number, and the node above, which at level 1 is the root.
#[derive(Clone, Copy, Drop)]
struct Turn {
    lane: u8,
    level: u8,
    front: u64,
    node: u32,
}

// How far the path of a key goes: to the node above its leaf, or to a node that is missing. Then the span is the number of
// keys that would go through it.
#[derive(Clone, Copy, Drop)]
pub(crate) enum Descent {
    Leaf(u32),
    Gap(u64),
}

// The way that was gone down last: its key, how many of its nodes were found, and these, each at its level.
#[derive(Clone, Copy, Drop)]
pub(crate) struct Path {
    key: u64,
    depth: u8,
    nodes: [u32; 16],
}

// No node was found yet.
pub(crate) fn no_path() -> Path
    ensures depth { result.depth ≡ 0 }
    ensures long { length result.nodes ≡ 16 }
{
    Path {
        key: 0,
        depth: 0,
        nodes: [0; 16],
    }
}

// How many of the first nodes, at most `depth`, are on the paths of both keys. Two keys have a node in common where their
// first nibbles are the same.
fn common_depth(levels: u8, depth: u8, before: u64, key: u64) -> u8
    requires levels { levels ≤ 16 }
    requires depth { depth < levels }
    ensures most { result ≤ depth }
    ensures common { 0 < result → before / 16 ^ (levels - result) ≡ key / 16 ^ (levels - result) }
    ensures longest { (d : ℕ) → result < d → d ≤ depth → before / 16 ^ (levels - d) ≡ key / 16 ^ (levels - d) → ⊥ }
{
    let mut depth = depth;
    while depth > 0 {
        let span = span_of(levels - depth);
        if before / span == key / span {
            return depth;
        }
        depth -= 1;
    }
    0
}

// The place of the child word that names the node.
fn turn_place(shape: &Shape, turn: Turn) -> u64
    requires lane { turn.lane < length shape.now.lanes }
    requires node { 1 < turn.level → turn.node < shape.now.writers * shape.now.nodes }
    requires level { 1 ≤ turn.level }
    ensures { result ≡ place_of_slot (sizes_of shape.now) (turn_slot turn.lane turn.level turn.front turn.node) }
{
    let d = (turn.front % 16) as u8;
    if turn.level == 1 {
        place_root(shape, turn.lane, d)
    } else {
        place_child(shape, turn.node, d)
    }
}

// Loads the child word at that place, which stands for the spot `to.0`.
fn load_turn<P: Pass, L: Ledger>(
    log: &MultiLog,
    pass: &mut P,
    _turn: Turn,
    place: u64,
    steps: &mut Steps<L>,
) -> u64
    ghost to: { Spot × Slot }
    requires of { IsOf (P.held pass.old) log.now }
    requires lawful { IsLawfulStep log.now.shape (P.held pass.old).view (load_child place) (child_effect log.now.shape (P.held pass.old).view to.0 to.1) }
    ensures made { HasStepped log.now.shape (child_effect log.now.shape (P.held pass.old).view to.0 to.1) (P.held pass.old) result (P.held pass.new) }
    ensures steps { steps.new ≡ steps.old + 1 }
{
    log.load_child(pass, place, steps)
}

// Loads the child word of the next node on a key's path.
fn go_down<P: Pass, L: Ledger>(
    log: &MultiLog,
    pass: &mut P,
    turn: Turn,
    steps: &mut Steps<L>,
) -> u64
    requires of { IsOf (P.held pass.old) log.now }
    requires turn { IsTurn log.now.shape turn.lane turn.level turn.front turn.node (P.held pass.old).view }
    ensures turned { HasTurned log.now.shape turn.lane turn.level turn.front (P.held pass.old) result (P.held pass.new) }
    ensures steps { steps.new ≡ steps.old + 1 }
    ensures loads { CountsLoads (P.held pass.old) (P.held pass.new) steps.old steps.new }
{
    let place = turn_place(log.shape(), turn);
    load_turn(log, pass, turn, place, steps)
}

// How many keys have the same first nibbles, where so many are left.
pub(crate) fn span_of(rest: u8) -> u64
    requires { rest ≤ 15 }
    ensures span { result ≡ 16 ^ rest }
    ensures some { 0 < result }
{
    16u64.pow(u32::from(rest))
}

// Goes down the lane's tree towards the leaf of the key, from the last node of the path that is on the key's path too.
pub(crate) fn reach<P: Pass, L: Ledger>(
    log: &MultiLog,
    pass: &mut P,
    lane: u8,
    key: u64,
    path: &mut Path,
    steps: &mut Steps<L>,
) -> Descent
    requires lane { IsOnLane log.now lane (P.held pass.old) }
    requires path { IsPath log.now.shape lane path.old (P.held pass.old).view }
    ensures reached { Reached log.now.shape lane key (P.held pass.new).view (P.held pass.old).view.seen result }
    ensures path { IsPath log.now.shape lane path.new (P.held pass.new).view }
    ensures walked { HasWalked (P.held pass.old) (P.held pass.new) steps.old steps.new }
    ensures steps { steps.new ≤ steps.old + (levels_of log.now.shape lane - 1) }
    ensures shared { (d : ℕ) → Shares log.now.shape lane path.old key d → steps.new + d ≤ steps.old + (levels_of log.now.shape lane - 1) }
{
    let levels = levels(log.shape(), lane);
    let depth = common_depth(levels, path.depth, path.key, key);
    path.key = key;
    path.depth = depth;
    let mut node = path.nodes[depth as usize];
    for level in depth + 1..levels {
        let span = span_of(levels - level);
        let turn = Turn {
            lane,
            level,
            front: key / span,
            node,
        };
        let child = go_down(log, pass, turn, steps);
        if child == 0 {
            return Descent::Gap(span);
        }
        node = (child - 1) as u32;
        path.nodes[level as usize] = node;
        path.depth = level;
    }
    Descent::Leaf(node)
}

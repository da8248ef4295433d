// The quads of chains, by the versions in their cells.
ghost use Rattle.std.specs.Prelude.{ℕ, ◌≡◌, ◌+◌, ◌-◌, ◌*◌, ◌<◌, ◌≤◌, length};
ghost use Rattle.cf_fold.specs.Quads.{quad_of};
ghost use Rattle.cf_walk.specs.Walks.{Met, IsAbove, IsEntryOf, ChainSteps, amounts_below, leaf_amounts, HasWalked, IsMeasuring};

use crate::chain::{Leaf, begin};
use cf_fold::{CellWords, Quad, link_in};
use cf_table::{MultiLog, Pass, Steps};
use std::sync::ledger::Ledger;

// The quad in the cell of an entry that was seen: of what the lane measures of its writer's entries in the leaf up to it.
fn read_quad<P: Pass, L: Ledger>(
    log: &MultiLog,
    pass: &mut P,
    leaf: Leaf,
    _writer: u8,
    place: u32,
    steps: &mut Steps<L>,
) -> Quad
    requires measures { IsMeasuring log.now leaf.lane (P.held pass.old) }
    requires place { place < log.now.shape.capacity }
    requires entry { IsEntryOf log.now.shape leaf.lane leaf.key _writer place (P.held pass.old).view.seen }
    ensures quad { result ≡ quad_of (amounts_below log.now.shape leaf.lane leaf.key (P.held pass.old).view.seen _writer (place + 1)) }
    ensures walked { HasWalked (P.held pass.old) (P.held pass.new) steps.old steps.new }
    ensures met { (k v : ℕ) → Met (P.held pass.old).view k v → Met (P.held pass.new).view k v }
    ensures steps { steps.new ≡ steps.old + 3 }
{
    let _lawful = log.shape();
    let first = log.load_cell(pass, place, leaf.lane, 0, steps);
    let sum = log.load_cell(pass, place, leaf.lane, 1, steps);
    let ends = log.load_cell(pass, place, leaf.lane, 2, steps);
    CellWords { first, sum, ends }.quad()
}

// The quad of what the lane measures of a writer's entries in the leaf, of those that were seen.
fn chain_quad<P: Pass, L: Ledger>(
    log: &MultiLog,
    pass: &mut P,
    leaf: Leaf,
    writer: u8,
    steps: &mut Steps<L>,
) -> Quad
    requires measures { IsMeasuring log.now leaf.lane (P.held pass.old) }
    requires above { IsAbove log.now.shape leaf.lane leaf.key leaf.node (P.held pass.old).view }
    requires writer { writer < log.now.shape.writers }
    ensures quad { result ≡ quad_of (amounts_below log.now.shape leaf.lane leaf.key (P.held pass.old).view.seen writer (length (P.held pass.old).view.seen)) }
    ensures walked { HasWalked (P.held pass.old) (P.held pass.new) steps.old steps.new }
    ensures steps { ChainSteps log.now.shape writer (P.held pass.old) (P.held pass.new) 3 steps.old steps.new }
{
    let _lawful = log.shape();
    let covered = u64::from(pass.covered());
    let mut link = begin(log, pass, leaf, writer, steps);
    while covered < link {
        let place = (link - 1) as u32;
        let first = log.load_cell(pass, place, leaf.lane, 0, steps);
        link = link_in(first);
    }
    if link == 0 {
        return Quad::EMPTY;
    }
    read_quad(log, pass, leaf, writer, (link - 1) as u32, steps)
}

// The quad of what the lane measures of all writers' entries in the leaf, of those that were seen.
pub(crate) fn leaf_quad<P: Pass, L: Ledger>(
    log: &MultiLog,
    pass: &mut P,
    leaf: Leaf,
    steps: &mut Steps<L>,
) -> Quad
    requires measures { IsMeasuring log.now leaf.lane (P.held pass.old) }
    requires above { IsAbove log.now.shape leaf.lane leaf.key leaf.node (P.held pass.old).view }
    ensures quad { result ≡ quad_of (leaf_amounts log.now.shape leaf.lane leaf.key (P.held pass.old).view.seen log.now.shape.writers) }
    ensures walked { HasWalked (P.held pass.old) (P.held pass.new) steps.old steps.new }
    ensures steps { steps.new ≤ steps.old + 4 * log.now.shape.writers + (log.now.shape.capacity - length (P.held pass.old).view.seen) }
{
    let mut total = Quad::EMPTY;
    for writer in 0..log.shape().writers() {
        let quad = chain_quad(log, pass, leaf, writer, steps);
        total = total.merge(quad);
    }
    total
}

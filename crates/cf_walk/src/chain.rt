// The chains of one leaf.
ghost use Rattle.std.specs.Prelude.{◌≡◌, ◌+◌, ◌-◌, ◌*◌, ◌%◌, ◌<◌, ◌≤◌, ◌++◌, length, OnOk};
ghost use Rattle.cf_law.specs.Words.{Spot};
ghost use Rattle.cf_law.specs.Steps.Act.{load_head};
ghost use Rattle.cf_table.specs.Values.{IsOf};
ghost use Rattle.cf_table.specs.Effects.{IsLawfulStep, HasStepped, walk_effect};
ghost use Rattle.cf_walk.specs.Walks.{IsAbove, ChainSteps, chain_places, leaf_places, HasWalked};

use cf_fold::link_in;
use cf_row::Memory;
use cf_table::{MultiLog, Pass, Steps};
use std::sync::ledger::Ledger;

// A key of a lane, and the node above its leaf.
#[derive(Clone, Copy, Drop)]
pub(crate) struct Leaf {
    pub lane: u8,
    pub key: u64,
    pub node: u32,
}

// Loads a writer's head in the leaf, at the node that stands for the spot `above`.
pub(crate) fn begin<P: Pass, L: Ledger>(
    log: &MultiLog,
    pass: &mut P,
    leaf: Leaf,
    writer: u8,
    steps: &mut Steps<L>,
) -> u64
    ghost above: { Spot }
    requires of { IsOf (P.held pass.old) log.now }
    requires place { (leaf.node < log.now.shape.writers * log.now.shape.nodes) × (writer < log.now.shape.writers) }
    requires lawful { IsLawfulStep log.now.shape (P.held pass.old).view (load_head leaf.node (leaf.key % 16) writer)
        (walk_effect log.now.shape (P.held pass.old).view above leaf.node (leaf.key % 16) writer) }
    ensures made { HasStepped log.now.shape (walk_effect log.now.shape (P.held pass.old).view above leaf.node (leaf.key % 16) writer) (P.held pass.old) result (P.held pass.new) }
    ensures steps { steps.new ≡ steps.old + 1 }
{
    log.load_head(pass, leaf.node, (leaf.key % 16) as u8, writer, steps)
}

// The places of a writer's entries in the leaf, of those that were seen, the newest first.
pub(crate) fn collect_chain<P: Pass, L: Ledger>(
    log: &MultiLog,
    pass: &mut P,
    leaf: Leaf,
    writer: u8,
    found: &mut Vec<u32>,
    steps: &mut Steps<L>,
) -> Result<(), Memory>
    requires of { IsOf (P.held pass.old) log.now }
    requires above { IsAbove log.now.shape leaf.lane leaf.key leaf.node (P.held pass.old).view }
    requires writer { writer < log.now.shape.writers }
    ensures found { OnOk result (found.new.items ≡ found.old.items ++ chain_places log.now.shape leaf.lane leaf.key (P.held pass.old).view.seen writer) }
    ensures walked { HasWalked (P.held pass.old) (P.held pass.new) steps.old steps.new }
    ensures steps { OnOk result (ChainSteps log.now.shape writer (P.held pass.old) (P.held pass.new)
        (length (chain_places log.now.shape leaf.lane leaf.key (P.held pass.old).view.seen writer)) steps.old steps.new) }
{
    let _lawful = log.shape();
    let mut link = begin(log, pass, leaf, writer, steps);
    while link > 0 {
        let place = (link - 1) as u32;
        if place < pass.covered() {
            found.push(place)?;
        }
        let first = log.load_cell(pass, place, leaf.lane, 0, steps);
        link = link_in(first);
    }
    Ok(())
}

// The places of all writers' entries in the leaf, of those that were seen.
pub(crate) fn collect_leaf<P: Pass, L: Ledger>(
    log: &MultiLog,
    pass: &mut P,
    leaf: Leaf,
    found: &mut Vec<u32>,
    steps: &mut Steps<L>,
) -> Result<(), Memory>
    requires of { IsOf (P.held pass.old) log.now }
    requires above { IsAbove log.now.shape leaf.lane leaf.key leaf.node (P.held pass.old).view }
    ensures found { OnOk result (found.new.items ≡ found.old.items ++ leaf_places log.now.shape leaf.lane leaf.key (P.held pass.old).view.seen log.now.shape.writers) }
    ensures walked { HasWalked (P.held pass.old) (P.held pass.new) steps.old steps.new }
    ensures steps { OnOk result (steps.new ≤ steps.old + log.now.shape.writers
        + length (leaf_places log.now.shape leaf.lane leaf.key (P.held pass.old).view.seen log.now.shape.writers) + (log.now.shape.capacity - length (P.held pass.old).view.seen)) }
{
    for writer in 0..log.shape().writers() {
        collect_chain(log, pass, leaf, writer, found, steps)?;
    }
    Ok(())
}

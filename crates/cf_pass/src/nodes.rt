// What a pass knows of nodes: lanes and prefixes, the nodes that stand for them, and a walk down a chain.
ghost use Rattle.std.specs.Prelude.{◌≡◌, ◌<◌, ◌^◌, ◌∷◌, [], IfOk, IsTrue, ◌↔◌, length};
ghost use Rattle.cf_law.specs.Words.{spot as spot_of};
ghost use Rattle.cf_law.specs.Steps.{met_of, cursor_after_cell as walk_on_of};
ghost use Rattle.cf_pass.specs.Books.{gone_on_of, NamesTicket};

use cf_row::Memory;
use std::alloc::Global;
use std::marker::Model;

/// A lane and a prefix of its keys, the last nibble first.
#[derive(Debug, Drop)]
pub struct NodeSpot {
    lane: u8,
    path: Vec<u8>,
}

impl Model for NodeSpot {
    ghost use Rattle.cf_law.specs.Words.{Spot};

    ghost Value = { Spot };

    ghost view = { λ s. record { lane = s.lane; path = s.path.items } };
}

/// A lane and prefix, and the node that stands for it.
#[derive(Debug, Drop)]
pub struct KnownNode {
    spot: NodeSpot,
    node: u64,
}

impl Model for KnownNode {
    ghost use Rattle.std.specs.Prelude.{ℕ};
    ghost use Rattle.cf_law.specs.Words.{Spot};

    ghost Value = { Spot × ℕ };

    ghost view = { λ k. (k.spot, k.node) };
}

// A walk down the chain of a writer in a leaf: the link that was found last, the offsets that it went by, and those that this
// walk and the walks before it went by, each with its writer.
#[derive(Debug, Drop)]
pub(crate) struct Walk {
    writer: u8,
    spot: NodeSpot,
    link: u64,
    gone: Vec<u32>,
    met: Vec<(u32, u8)>,
}

impl Model for Walk {
    ghost use Rattle.cf_law.specs.Passes.{Cursor};

    ghost Value = { Cursor };

    ghost view = { λ w. record { writer = w.writer; spot = w.spot; link = w.link; gone = w.gone.items; met = w.met.items } };
}

impl NodeSpot {
    /// The lane and that prefix.
    pub fn new(lane: u8, path: Vec<u8>) -> NodeSpot
        ensures { result ≡ spot_of lane path.items }
    {
        NodeSpot { lane, path }
    }

    /// An equal lane and prefix.
    pub fn copy(&self, alloc: Global) -> Result<NodeSpot, Memory>
        ensures { IfOk result (λ copied. copied ≡ self.now) }
    {
        Ok(NodeSpot {
            lane: self.lane,
            path: self.path.to_vec(alloc)?,
        })
    }

    /// The lane.
    pub fn lane(&self) -> u8
        ensures { result ≡ self.now.lane }
    {
        self.lane
    }

    /// How many nibbles the prefix has.
    pub fn level(&self) -> usize
        ensures level { result ≡ length self.now.path }
        ensures few { result < 2 ^ 63 }
    {
        self.path.len()
    }

    /// The prefix with one nibble more.
    pub fn child(&self, alloc: Global, nibble: u8) -> Result<NodeSpot, Memory>
        ensures { IfOk result (λ child. child ≡ spot_of self.now.lane (nibble ∷ self.now.path)) }
    {
        let mut path = Vec::with_capacity(alloc, 1)?;
        path.push(nibble)?;
        path.extend_from_slice(&self.path)?;
        Ok(NodeSpot::new(self.lane, path))
    }

    /// Whether it is that lane and prefix.
    pub fn is(&self, lane: u8, path: &[u8]) -> bool
        ensures { IsTrue result ↔ (self.now ≡ spot_of lane path.now) }
    {
        self.lane == lane && self.path.as_slice() == path
    }
}

impl KnownNode {
    /// The lane and prefix.
    pub fn spot(&self) -> &NodeSpot
        ensures { result.now ≡ self.now.0 }
    {
        &self.spot
    }

    /// The number of the node.
    pub fn node(&self) -> u64
        ensures { result ≡ self.now.1 }
    {
        self.node
    }

    fn new(spot: NodeSpot, node: u64) -> KnownNode
        ensures { result ≡ (spot, node) }
    {
        KnownNode { spot, node }
    }

    fn copy(&self, alloc: Global) -> Result<KnownNode, Memory>
        ensures { IfOk result (λ copied. copied ≡ self.now) }
    {
        Ok(KnownNode {
            spot: self.spot.copy(alloc)?,
            node: self.node,
        })
    }
}

impl Walk {
    // A walk that begins with the head that was found.
    pub(crate) fn new(
        alloc: Global,
        writer: u8,
        spot: NodeSpot,
        link: u64,
        met: Vec<(u32, u8)>,
    ) -> Walk
        ensures { result ≡ record { writer = writer; spot = spot; link = link; gone = []; met = met.items } }
    {
        Walk {
            writer,
            spot,
            link,
            gone: Vec::new(alloc),
            met,
        }
    }

    fn copy(&self, alloc: Global) -> Result<Walk, Memory>
        ensures { IfOk result (λ copied. copied ≡ self.now) }
    {
        Ok(Walk {
            writer: self.writer,
            spot: self.spot.copy(alloc)?,
            link: self.link,
            gone: self.gone.to_vec(alloc)?,
            met: self.met.to_vec(alloc)?,
        })
    }

    // Whether the link names the cell of that ticket in the walk's own lane.
    pub(crate) fn names(&self, offset: u32, lane: u8) -> bool
        ensures { IsTrue result ↔ NamesTicket self.now offset lane }
    {
        self.link == u64::from(offset) + 1 && self.spot.lane == lane
    }

    // The walk once it went by that ticket, whose cell's first word was found.
    fn gone_on(&self, alloc: Global, offset: u32, found: u64) -> Result<Walk, Memory>
        ensures { IfOk result (λ walk. walk ≡ gone_on_of self.now offset found) }
    {
        let mut gone = Vec::with_capacity(alloc, 1)?;
        gone.push(offset)?;
        gone.extend_from_slice(&self.gone)?;
        let mut met = Vec::with_capacity(alloc, 1)?;
        met.push((offset, self.writer))?;
        met.extend_from_slice(&self.met)?;
        let mut walk = self.copy(alloc)?;
        walk.link = found % (1 << 32);
        walk.gone = gone;
        walk.met = met;
        Ok(walk)
    }
}

// What the walks went by so far.
pub(crate) fn met_by(alloc: Global, walk: &Option<Walk>) -> Result<Vec<(u32, u8)>, Memory>
    ensures { IfOk result (λ met. met.items ≡ met_of walk.now) }
{
    match walk {
        Some(walk) => walk.met.to_vec(alloc),
        None => Ok(Vec::new(alloc)),
    }
}

pub(crate) fn copy_walk(alloc: Global, walk: &Option<Walk>) -> Result<Option<Walk>, Memory>
    ensures { IfOk result (λ copied. copied ≡ walk.now) }
{
    match walk {
        Some(walk) => Ok(Some(walk.copy(alloc)?)),
        None => Ok(None),
    }
}

// The walk after a load of the word of that index of a cell.
pub(crate) fn walk_on(
    alloc: Global,
    walk: &Option<Walk>,
    offset: u32,
    lane: u8,
    index: u8,
    found: u64,
) -> Result<Option<Walk>, Memory>
    ensures { IfOk result (λ left. left ≡ walk_on_of offset lane index found walk.now) }
{
    match walk {
        Some(walk) => {
            if index == 0 && walk.names(offset, lane) {
                return Ok(Some(walk.gone_on(alloc, offset, found)?));
            }
            Ok(Some(walk.copy(alloc)?))
        }
        None => Ok(None),
    }
}

pub(crate) fn copy_spots(alloc: Global, spots: &[NodeSpot]) -> Result<Vec<NodeSpot>, Memory>
    ensures { IfOk result (λ copied. copied.items ≡ spots.now) }
{
    let mut copied = Vec::with_capacity(alloc, spots.len())?;
    for spot in spots {
        copied.push(spot.copy(alloc)?)?;
    }
    Ok(copied)
}

// The known nodes with that one before them.
pub(crate) fn learnt(
    alloc: Global,
    spot: NodeSpot,
    node: u64,
    known: &[KnownNode],
) -> Result<Vec<KnownNode>, Memory>
    ensures { IfOk result (λ left. left.items ≡ (spot, node) ∷ known.now) }
{
    let mut left = Vec::with_capacity(alloc, 1)?;
    left.push(KnownNode::new(spot, node))?;
    for node in known {
        left.push(node.copy(alloc)?)?;
    }
    Ok(left)
}

pub(crate) fn copy_known(alloc: Global, known: &[KnownNode]) -> Result<Vec<KnownNode>, Memory>
    ensures { IfOk result (λ copied. copied.items ≡ known.now) }
{
    let mut copied = Vec::with_capacity(alloc, known.len())?;
    for node in known {
        copied.push(node.copy(alloc)?)?;
    }
    Ok(copied)
}

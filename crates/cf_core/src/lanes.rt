// The steps of a world in its lanes: labels, links and heads, and loads of children, heads and cells.
ghost use Rattle.std.specs.Prelude.{◌≡◌, ℕ, ◌+◌, ◌*◌, ◌<◌, length, suc, IfOk, MatchResult, MatchOption, Some, None, slice_get, true, false, IsTrue, ◌↔◌};
ghost use Rattle.cf_core.specs.Worlds.{Answers, IsLivePass, IsRootAt, NoRootAt, IsChildOf, IsBelow, NoneBelow, IsChildAt, NoChildAt, IsNode, IsLeaf, IsLabelOf, NoLabel, LeadsTo};
ghost use Rattle.cf_row.specs.Row.{Fits};
ghost use Rattle.cf_law.specs.Events.WorldEvent.{acts};
ghost use Rattle.cf_law.specs.Steps.{child_word};
ghost use Rattle.cf_law.specs.Words.{Spot};
ghost use Rattle.cf_law.specs.Steps.Act.{label, link, store_head, load_child, load_head, load_cell};

use crate::World;
use crate::cells::{has_cell, is_in, is_whole, path_of};
use cf_pass::{KnownNode, NodeSpot, PassState};
use cf_row::{Memory, Row};
use cf_shape::{levels, place_cell, place_child, place_head, place_label, place_root};
use std::alloc::Global;

// The child word or head of a node under a nibble, in a lane.
#[derive(Clone, Copy, Drop)]
struct Branch {
    lane: u8,
    node: u32,
    nibble: u8,
}

// Which of the 16 places from the first one on it is.
fn nibble_at(first: u64, place: u64) -> Option<u8>
    ensures { MatchOption result ((d : ℕ) → d < 16 → first + d ≡ place → ⊥) (λ d. (d < 16) × (first + d ≡ place)) }
{
    if place < first || place - first >= 16 {
        return None;
    }
    Some((place - first) as u8)
}

// What a link of the node leaves in a child word.
fn linked_word(found: u64, node: u32) -> u64
    ensures { result ≡ child_word node found }
{
    if found == 0 {
        u64::from(node) + 1
    } else {
        found
    }
}

impl World {
    // The lane and the nibble of the root's child word at that place.
    fn root_at(&self, place: u64) -> Option<(u8, u8)>
        ensures { MatchOption result (NoRootAt self.now place) (λ r. IsRootAt self.now place r.0 r.1) }
    {
        let shape = self.shape();
        let lanes = shape.lanes().len() as u8;
        for lane in 0..lanes {
            if let Some(nibble) = nibble_at(place_root(shape, lane, 0), place) {
                return Some((lane, nibble));
            }
        }
        None
    }

    // The nibble of the child word of that node at the place, where the node has children.
    fn child_of(&self, known: &KnownNode, place: u64) -> Option<u8>
        requires { IsNode self.now known.now }
        ensures { MatchOption result ((d : ℕ) → IsChildOf self.now known.now place d → ⊥) (IsChildOf self.now known.now place) }
    {
        let shape = self.shape();
        if known.spot().level() + 1 >= levels(shape, known.spot().lane()) as usize {
            return None;
        }
        nibble_at(place_child(shape, known.node() as u32, 0), place)
    }

    // The known node that the child word at the place is of, and its nibble.
    fn below<'a>(&self, number: u32, pass: &'a PassState, place: u64) -> Option<(&'a KnownNode, u8)>
        requires { IsLivePass self.now number pass.now }
        ensures { MatchOption result (NoneBelow self.now pass.now place) (λ r. IsBelow self.now pass.now place r.0.now r.1) }
    {
        let _held = self.shape();
        for known in pass.known() {
            if let Some(nibble) = self.child_of(known, place) {
                return Some((known, nibble));
            }
        }
        None
    }

    // The lane and prefix whose child word stands at the place, where the pass may load it.
    pub(crate) fn child_at(
        &self,
        alloc: Global,
        number: u32,
        pass: &PassState,
        place: u64,
    ) -> Result<Option<NodeSpot>, Memory>
        requires { IsLivePass self.now number pass.now }
        ensures { IfOk result (λ found. MatchOption found (NoChildAt self.now pass.now place) (IsChildAt self.now pass.now place)) }
    {
        let _held = self.shape();
        if let Some((lane, nibble)) = self.root_at(place) {
            let path = vec![in alloc; nibble; 1]?;
            return Ok(Some(NodeSpot::new(lane, path)));
        }
        let Some((known, nibble)) = self.below(number, pass, place) else {
            return Ok(None);
        };
        Ok(Some(known.spot().child(alloc, nibble)?))
    }

    pub(crate) fn load_child(
        &mut self,
        alloc: Global,
        number: u32,
        place: u64,
    ) -> Result<bool, Memory>
        ensures { MatchResult result (Answers self.old number (acts (load_child place)) self.new) (λ _. self.new ≡ self.old) }
    {
        let _held = self.shape();
        let Some(pass) = self.live(number) else {
            return Ok(false);
        };
        let Some(spot) = self.child_at(alloc, number, pass, place)? else {
            return Ok(false);
        };
        let found = self.word(place);
        let after = pass.child_loaded(alloc, place, spot, found)?;
        self.put(number, place, found, after);
        Ok(true)
    }

    // Whether the label names a child word that the pass may label.
    fn is_label(
        &self,
        alloc: Global,
        number: u32,
        pass: &PassState,
        value: u64,
    ) -> Result<bool, Memory>
        requires { IsLivePass self.now number pass.now }
        ensures some { IfOk result (λ named. named ≡ true → (s : Spot) × IsLabelOf self.now pass.now value s) }
        ensures none { IfOk result (λ named. named ≡ false → NoLabel self.now pass.now value) }
    {
        let _held = self.shape();
        let Some(spot) = self.child_at(alloc, number, pass, value / 32)? else {
            return Ok(false);
        };
        Ok(spot.level() as u64 == value % 32)
    }

    pub(crate) fn label(
        &mut self,
        alloc: Global,
        number: u32,
        node: u32,
        value: u64,
    ) -> Result<bool, Memory>
        ensures { MatchResult result (Answers self.old number (acts (label node value)) self.new) (λ _. self.new ≡ self.old) }
    {
        let shape = self.shape();
        let Some(pass) = self.live(number) else {
            return Ok(false);
        };
        let Some((at, book)) = pass.free(shape.nodes(), node) else {
            return Ok(false);
        };
        if !self.is_label(alloc, number, pass, value)? {
            return Ok(false);
        }
        let place = place_label(shape, node);
        let after = pass.at_book(alloc, at, book.labelled(alloc, value)?)?;
        self.put(number, place, value, after);
        Ok(true)
    }

    pub(crate) fn link(
        &mut self,
        alloc: Global,
        number: u32,
        place: u64,
        node: u32,
    ) -> Result<bool, Memory>
        ensures { MatchResult result (Answers self.old number (acts (link place node)) self.new) (λ _. self.new ≡ self.old) }
    {
        let shape = self.shape();
        let Some(pass) = self.live(number) else {
            return Ok(false);
        };
        let Some((at, book)) = pass.free(shape.nodes(), node) else {
            return Ok(false);
        };
        let Some(spot) = self.child_at(alloc, number, pass, place)? else {
            return Ok(false);
        };
        if !book.is_labelled(place, &spot) {
            return Ok(false);
        }
        let found = self.word(place);
        let after = pass.link_tried(alloc, at, spot, node, found)?;
        self.put(number, place, linked_word(found, node), after);
        Ok(true)
    }

    // Whether the nodes of that lane and level have heads.
    fn is_leaf(&self, spot: &NodeSpot) -> bool
        requires { spot.now.lane < length self.now.shape.lanes }
        ensures { IsTrue result ↔ IsLeaf self.now spot.now }
    {
        spot.level() + 1 == levels(self.shape(), spot.lane()) as usize
    }

    pub(crate) fn load_head(
        &mut self,
        alloc: Global,
        number: u32,
        node: u32,
        nibble: u8,
        writer: u8,
    ) -> Result<bool, Memory>
        ensures { MatchResult result (Answers self.old number (acts (load_head node nibble writer)) self.new) (λ _. self.new ≡ self.old) }
    {
        let shape = self.shape();
        let Some(pass) = self.live(number) else {
            return Ok(false);
        };
        let Some(above) = pass.spot_of(node) else {
            return Ok(false);
        };
        if nibble >= 16 || writer >= shape.writers() || !self.is_leaf(above) {
            return Ok(false);
        }
        let place = place_head(shape, node, nibble, writer);
        let found = self.word(place);
        let leaf = above.child(alloc, nibble)?;
        let after = pass.head_loaded(alloc, place, writer, leaf, found)?;
        self.put(number, place, found, after);
        Ok(true)
    }

    pub(crate) fn load_cell(
        &mut self,
        alloc: Global,
        number: u32,
        offset: u32,
        lane: u8,
        index: u8,
    ) -> Result<bool, Memory>
        ensures { MatchResult result (Answers self.old number (acts (load_cell offset lane index)) self.new) (λ _. self.new ≡ self.old) }
    {
        let shape = self.shape();
        let Some(pass) = self.live(number) else {
            return Ok(false);
        };
        if offset >= shape.capacity() || !has_cell(shape, lane, index) {
            return Ok(false);
        }
        if !pass.may_read(offset, lane) {
            return Ok(false);
        }
        let place = place_cell(shape, offset, lane, index);
        let found = self.word(place);
        let after = pass.cell_loaded(alloc, place, offset, lane, index, found)?;
        self.put(number, place, found, after);
        Ok(true)
    }

    // Whether the branch of that known node is the row's leaf in its lane.
    fn leads(
        &self,
        alloc: Global,
        number: u32,
        pass: &PassState,
        row: &Row,
        at: Branch,
    ) -> Result<bool, Memory>
        requires live { IsLivePass self.now number pass.now }
        requires fits { Fits self.now.shape.schema row.now }
        ensures some { IfOk result (λ leads. leads ≡ true → LeadsTo self.now pass.now row.now at.lane at.node at.nibble) }
        ensures none { IfOk result (λ leads. leads ≡ false → LeadsTo self.now pass.now row.now at.lane at.node at.nibble → ⊥) }
    {
        let shape = self.shape();
        if at.lane as usize >= shape.lanes().len() {
            return Ok(false);
        }
        let Some(above) = pass.spot_of(at.node) else {
            return Ok(false);
        };
        let Some(path) = path_of(alloc, shape, row, at.lane)? else {
            return Ok(false);
        };
        let leaf = above.child(alloc, at.nibble)?;
        Ok(leaf.is(at.lane, &path))
    }

    pub(crate) fn store_head(
        &mut self,
        alloc: Global,
        number: u32,
        lane: u8,
        node: u32,
        nibble: u8,
        offset: u32,
    ) -> Result<bool, Memory>
        ensures { MatchResult result (Answers self.old number (acts (store_head lane node nibble offset)) self.new) (λ _. self.new ≡ self.old) }
    {
        let shape = self.shape();
        let Some(pass) = self.live(number) else {
            return Ok(false);
        };
        let Some((at, book, ticket)) = pass.flying(offset) else {
            return Ok(false);
        };
        if is_in(ticket.linked(), lane) {
            return Ok(false);
        }
        let row = ticket.row();
        if !is_whole(shape, row, ticket.filled()) {
            return Ok(false);
        }
        let at_leaf = Branch { lane, node, nibble };
        if !self.leads(alloc, number, pass, row, at_leaf)? {
            return Ok(false);
        }
        let place = place_head(shape, node, nibble, book.writer());
        let after = pass.at_book(alloc, at, book.headed(alloc, ticket, lane)?)?;
        self.put(number, place, u64::from(offset) + 1, after);
        Ok(true)
    }
}

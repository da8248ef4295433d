// The places of the words of a log's table.
ghost use Rattle.std.specs.Prelude.{◌≡◌, ◌+◌, ◌*◌, ◌<◌, ◌≤◌, ◌^◌, length};
ghost use Rattle.cf_row.specs.Words.{word_count};
ghost use Rattle.cf_shape.specs.Lanes.{IsShape, lane_at};
ghost use Rattle.cf_shape.specs.Uses.{cell_words, ticket_words};
ghost use Rattle.cf_shape.specs.Places.{place, place_of, sizes_of, IsReal, word_total as word_total_of, roots_at as roots_at_of, nodes_at as nodes_at_of};
ghost use Rattle.cf_shape.specs.Places.Slot.{cell, root, body};
ghost use Rattle.cf_shape.specs.Places.WordName.{write_tail, read_tail, word, version, done, root_child, label, child, head};

use crate::Shape;
use crate::lane::cell_count;
use cf_row::word_count;

// The first word of the roots.
fn roots_at(shape: &Shape) -> u64
    ensures at { result ≡ roots_at_of (sizes_of shape.now) }
    ensures small { result < 2 ^ 32 }
    ensures lawful { IsShape shape.now }
{
    shape.roots()
}

// The first word of the nodes.
fn nodes_at(shape: &Shape) -> u64
    ensures at { result ≡ nodes_at_of (sizes_of shape.now) }
    ensures small { result < 2 ^ 32 }
    ensures lawful { IsShape shape.now }
{
    shape.nodes_from()
}

/// The number of words of the table.
pub fn word_total(shape: &Shape) -> u64
    ensures total { result ≡ word_total_of (sizes_of shape.now) }
    ensures small { result < 2 ^ 32 }
{
    let nodes = u64::from(shape.writers()) * u64::from(shape.nodes());
    nodes_at(shape) + nodes * (1 + 16 * u64::from(shape.writers()))
}

/// The place of word `index` of a ticket, its cells and its done word among them.
#[tactic(auto, unfolding(crate::specs::Places::place))]
pub fn place_ticket(shape: &Shape, offset: u32, index: u64) -> u64
    requires offset { offset < shape.now.capacity }
    requires index { index < ticket_words shape.now }
    ensures { result ≡ place (sizes_of shape.now) (cell offset index) }
{
    2 + (u64::from(offset) * shape.ticket_words() + index)
}

// Word `index` of a node, of which 0 is its label.
#[tactic(auto, unfolding(crate::specs::Places::place))]
fn node_at(shape: &Shape, node: u32, index: u64) -> u64
    requires node { node < shape.now.writers * shape.now.nodes }
    requires index { index < 1 + 16 * shape.now.writers }
    ensures { result ≡ place (sizes_of shape.now) (body node index) }
{
    nodes_at(shape) + (u64::from(node) * (1 + 16 * u64::from(shape.writers())) + index)
}

/// The place of the write tail.
#[tactic(auto, unfolding(crate::specs::Places::place))]
pub fn place_write_tail(_shape: &Shape) -> u64
    ensures { result ≡ place_of _shape.now write_tail }
{
    0
}

/// The place of the read tail.
#[tactic(auto, unfolding(crate::specs::Places::place))]
pub fn place_read_tail(_shape: &Shape) -> u64
    ensures { result ≡ place_of _shape.now read_tail }
{
    1
}

/// The place of word `index` of a ticket's attributes and tag.
pub fn place_word(shape: &Shape, offset: u32, index: u8) -> u64
    requires offset { offset < shape.now.capacity }
    requires word { index < word_count shape.now.schema + 1 }
    ensures { result ≡ place_of shape.now (word offset index) }
{
    place_ticket(shape, offset, u64::from(index))
}

/// The place of word `index` of a lane's cell of a ticket.
pub fn place_cell(shape: &Shape, offset: u32, lane: u8, index: u8) -> u64
    requires offset { offset < shape.now.capacity }
    requires lane { lane < length shape.now.lanes }
    requires word { index < cell_words (lane_at shape.now lane) }
    ensures { result ≡ place_of shape.now (version offset lane index) }
{
    let before = cell_count(&shape.lanes()[..lane as usize]);
    let cells = word_count(shape.schema()) as u64 + 1;
    place_ticket(shape, offset, cells + before + u64::from(index))
}

/// The place of a ticket's done word.
pub fn place_done(shape: &Shape, offset: u32) -> u64
    requires offset { offset < shape.now.capacity }
    ensures { result ≡ place_of shape.now (done offset) }
{
    place_ticket(shape, offset, shape.ticket_words() - 1)
}

/// The place of child `nibble` of a lane's root.
#[tactic(auto, unfolding(crate::specs::Places::place))]
pub fn place_root(shape: &Shape, lane: u8, nibble: u8) -> u64
    requires lane { lane < length shape.now.lanes }
    requires nibble { nibble < 16 }
    ensures { result ≡ place_of shape.now (root_child lane nibble) }
{
    roots_at(shape) + (u64::from(lane) * 16 + u64::from(nibble))
}

/// The place of a node's label.
pub fn place_label(shape: &Shape, node: u32) -> u64
    requires node { node < shape.now.writers * shape.now.nodes }
    ensures { result ≡ place_of shape.now (label node) }
{
    node_at(shape, node, 0)
}

/// The place of child `nibble` of a node above the last level.
pub fn place_child(shape: &Shape, node: u32, nibble: u8) -> u64
    requires node { node < shape.now.writers * shape.now.nodes }
    requires nibble { nibble < 16 }
    ensures { result ≡ place_of shape.now (child node nibble) }
{
    node_at(shape, node, 1 + u64::from(nibble))
}

/// The place of a writer's head of `nibble` at a node of the last level.
pub fn place_head(shape: &Shape, node: u32, nibble: u8, writer: u8) -> u64
    requires node { node < shape.now.writers * shape.now.nodes }
    requires nibble { nibble < 16 }
    requires writer { writer < shape.now.writers }
    ensures { result ≡ place_of shape.now (head node nibble writer) }
{
    node_at(
        shape,
        node,
        1 + (u64::from(nibble) * u64::from(shape.writers()) + u64::from(writer)),
    )
}

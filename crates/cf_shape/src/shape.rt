// The shape of a log.
ghost use Rattle.std.specs.Prelude.{◌≡◌, ℕ, ◌+◌, ◌*◌, ◌<◌, ◌≤◌, ◌^◌, [], List, length, IfOk, MatchResult};
ghost use Rattle.std.specs.List.{list_all};
ghost use Rattle.cf_row.specs.declared.schema.TheConstants.{MOST_ATTRS};
ghost use Rattle.cf_row.specs.Schema.{IsSchema};
ghost use Rattle.cf_row.specs.Words.{word_count as word_count_of};
ghost use Rattle.cf_shape.specs.Lanes.{ShapeValue, IsShape, lane_at};
ghost use Rattle.cf_shape.specs.Uses.{ticket_words as ticket_words_of};
ghost use Rattle.cf_shape.specs.Places.{sizes_of, roots_at, nodes_at};
ghost use Rattle.cf_shape.specs.Faults.{AreLanesOf, HasFault, AreGoodNumbers, HasNumberFault, have_good_keys, have_good_measures};

use crate::Lane;
use crate::kinds::{is_lawful_key, is_lawful_measure};
use crate::lane::{cell_count, copy_lanes};
use cf_row::{Memory, Schema, word_count};
use std::alloc::Global;
use std::marker::Model;
use thiserror::Error;

/// The shape of a log: its schema, its lanes, how many tickets, writers and nodes a writer it has, and the width of a
/// bucket in the unit of the rows' time.
#[derive(Debug, Drop)]
pub struct Shape {
    schema: Schema,
    lanes: Vec<Lane>,
    capacity: u32,
    writers: u8,
    nodes: u32,
    width: u64,
    // the words of a ticket
    ticket_words: u64,
    // the places of the first words of the roots and of the nodes
    roots: u64,
    nodes_from: u64,
}

impl Model for Shape {
    ghost use Rattle.cf_shape.specs.Lanes.{ShapeValue, IsShape};

    ghost Value = { ShapeValue };

    ghost view = { λ s. record { schema = s.schema; lanes = s.lanes.items; capacity = s.capacity; writers = s.writers; nodes = s.nodes; width = s.width } };

    ghost use Rattle.cf_shape.specs.Uses.{TakesWords};
    ghost use Rattle.cf_shape.specs.Places.{StandsAt};

    ghost invariant = { λ s. let value : ShapeValue = record { schema = s.schema; lanes = s.lanes.items; capacity = s.capacity; writers = s.writers; nodes = s.nodes; width = s.width } in
        IsShape value × TakesWords value s.ticket_words × StandsAt value s.roots s.nodes_from };
}

/// Why a shape was refused.
#[derive(Clone, Copy, Debug, PartialEq, Eq, Error)]
pub enum ShapeFault {
    /// More than 16 lanes.
    #[error("more than 16 lanes")]
    TooManyLanes,
    /// A capacity outside 1 to 65,536.
    #[error("a capacity outside 1 to 65536")]
    BadCapacity,
    /// Writers outside 1 to 15.
    #[error("writers outside 1 to 15")]
    BadWriters,
    /// More than 65,536 nodes for each writer.
    #[error("more than 65536 nodes for each writer")]
    BadNodes,
    /// A width outside 1 to 2^63.
    #[error("a width outside 1 to 2^63")]
    BadWidth,
    /// A key over an attribute with bytes.
    #[error("a key over an attribute with bytes")]
    BytesKey,
    /// A measure of an attribute with bytes or with numbers of 64 bits.
    #[error("a measure of an attribute with bytes or with numbers of 64 bits")]
    WideMeasure,
    /// Want of memory. The tests take none, so `Shape::new` never answers it.
    #[error("out of memory")]
    Memory,
}

// The first fault of the numbers.
fn check_numbers(
    lanes: usize,
    capacity: u32,
    writers: u8,
    nodes: u32,
    width: u64,
) -> Result<(), ShapeFault>
    ensures { MatchResult result (λ _. AreGoodNumbers lanes capacity writers nodes width) (HasNumberFault lanes capacity writers nodes width) }
{
    if lanes > 16 {
        return Err(ShapeFault::TooManyLanes);
    }
    if capacity < 1 || capacity > 65_536 {
        return Err(ShapeFault::BadCapacity);
    }
    if writers < 1 || writers > 15 {
        return Err(ShapeFault::BadWriters);
    }
    if nodes > 65_536 {
        return Err(ShapeFault::BadNodes);
    }
    if width < 1 || width > 1 << 63 {
        return Err(ShapeFault::BadWidth);
    }
    Ok(())
}

fn good_keys(schema: &Schema, lanes: &[Lane]) -> bool
    ensures { result ≡ have_good_keys schema.now lanes.now }
{
    let attrs = schema.attrs();
    lanes.iter().all(|lane| is_lawful_key(attrs, lane.key))
}

fn good_measures(schema: &Schema, lanes: &[Lane]) -> bool
    ensures { result ≡ have_good_measures schema.now lanes.now }
{
    let attrs = schema.attrs();
    lanes
        .iter()
        .all(|lane| is_lawful_measure(attrs, lane.measure))
}

impl Shape {
    /// The faults are tested in the order of `ShapeFault`. It takes no memory. `belongs` is the test of what it requires.
    pub fn new(
        schema: Schema,
        lanes: Vec<Lane>,
        capacity: u32,
        writers: u8,
        nodes: u32,
        width: u64,
    ) -> Result<Shape, ShapeFault>
        requires belong { AreLanesOf schema lanes.items }
        ensures answer { MatchResult result (λ shape. shape ≡ record { schema = schema; lanes = lanes.items; capacity = capacity; writers = writers; nodes = nodes; width = width })
            (HasFault (record { schema = schema; lanes = lanes.items; capacity = capacity; writers = writers; nodes = nodes; width = width })) }
        ensures lawful { IfOk result IsShape }
    {
        check_numbers(lanes.len(), capacity, writers, nodes, width)?;
        if !good_keys(&schema, &lanes) {
            return Err(ShapeFault::BytesKey);
        }
        if !good_measures(&schema, &lanes) {
            return Err(ShapeFault::WideMeasure);
        }
        Ok(Shape::lawful(schema, lanes, capacity, writers, nodes, width))
    }

    // The shape of these lawful parts.
    fn lawful(
        schema: Schema,
        lanes: Vec<Lane>,
        capacity: u32,
        writers: u8,
        nodes: u32,
        width: u64,
    ) -> Shape
        requires { IsShape (record { schema = schema; lanes = lanes.items; capacity = capacity; writers = writers; nodes = nodes; width = width }) }
        ensures { result ≡ record { schema = schema; lanes = lanes.items; capacity = capacity; writers = writers; nodes = nodes; width = width } }
    {
        let ticket_words = word_count(&schema) as u64 + 1 + cell_count(&lanes) + 1;
        let roots = 2 + u64::from(capacity) * ticket_words;
        let nodes_from = roots + lanes.len() as u64 * 16;
        Shape {
            schema,
            lanes,
            capacity,
            writers,
            nodes,
            width,
            ticket_words,
            roots,
            nodes_from,
        }
    }

    /// An equal shape.
    pub fn copy(&self, alloc: Global) -> Result<Shape, Memory>
        ensures { IfOk result (λ shape. shape ≡ self.now) }
    {
        let schema = self.schema.copy(alloc)?;
        let lanes = copy_lanes(alloc, &self.lanes)?;
        Ok(Shape::lawful(
            schema,
            lanes,
            self.capacity,
            self.writers,
            self.nodes,
            self.width,
        ))
    }

    /// The shape without its lanes.
    pub fn bare(&self, alloc: Global) -> Result<Shape, Memory>
        ensures { IfOk result (λ shape. shape ≡ record self.now { lanes = [] }) }
    {
        let schema = self.schema.copy(alloc)?;
        Ok(Shape::lawful(
            schema,
            Vec::new(alloc),
            self.capacity,
            self.writers,
            self.nodes,
            self.width,
        ))
    }

    /// The schema of the rows.
    pub fn schema(&self) -> &Schema
        ensures { result.now ≡ self.now.schema }
    {
        &self.schema
    }

    /// The lanes in order.
    pub fn lanes(&self) -> &[Lane]
        ensures lanes { result.now ≡ self.now.lanes }
        ensures lawful { IsShape self.now }
    {
        &self.lanes
    }

    /// How many tickets below which a row is kept.
    pub fn capacity(&self) -> u32
        ensures capacity { result ≡ self.now.capacity }
    {
        self.capacity
    }

    /// How many writers.
    pub fn writers(&self) -> u8
        ensures writers { result ≡ self.now.writers }
    {
        self.writers
    }

    /// How many nodes each writer has.
    pub fn nodes(&self) -> u32
        ensures nodes { result ≡ self.now.nodes }
    {
        self.nodes
    }

    /// The width of a bucket, in the unit of the rows' `ts`, which is a nanosecond for packets.
    pub fn width(&self) -> u64
        ensures width { result ≡ self.now.width }
        ensures lawful { 0 < result }
    {
        self.width
    }

    /// How many words a ticket has.
    pub fn ticket_words(&self) -> u64
        ensures words { result ≡ ticket_words_of self.now }
        ensures few { result ≤ 2 * MOST_ATTRS + 50 }
        ensures lawful { IsShape self.now }
    {
        self.ticket_words
    }

    // The first word of the roots.
    pub(crate) fn roots(&self) -> u64
        ensures at { result ≡ roots_at (sizes_of self.now) }
        ensures lawful { IsShape self.now }
    {
        self.roots
    }

    // The first word of the nodes.
    pub(crate) fn nodes_from(&self) -> u64
        ensures at { result ≡ nodes_at (sizes_of self.now) }
        ensures lawful { IsShape self.now }
    {
        self.nodes_from
    }

    pub(crate) fn lane(&self, lane: u8) -> &Lane
        requires exists { lane < length self.now.lanes }
        ensures lane { result.now ≡ lane_at self.now lane }
        ensures lawful { IsShape self.now }
    {
        &self.lanes[lane as usize]
    }
}

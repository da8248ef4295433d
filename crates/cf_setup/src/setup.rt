// A setup, and the shape of its log.
ghost use Rattle.std.specs.Prelude.{◌≡◌, ℕ, ◌≤◌, IfOk, List};
ghost use Rattle.cf_setup.specs.Setups.{IsSetup, shaped};
ghost use Rattle.cf_shape.specs.Lanes.{IsShape};

use crate::source::Source;
use cf_fold::Trigger;
use cf_plain::Ask;
use cf_row::{Memory, Name, Schema};
use cf_shape::{Lane, Shape, copy_lanes};
use std::alloc::Global;
use std::marker::Model;

/// What a setup's text states. Lanes, triggers and asks go by their places here, each of which has a name.
#[derive(Debug, Drop)]
pub struct Setup {
    pub(crate) source: Source,
    pub(crate) schema_line: u32,
    pub(crate) schema: Schema,
    pub(crate) width: u64,
    pub(crate) lanes: Vec<Lane>,
    pub(crate) triggers: Vec<Trigger>,
    pub(crate) asks: Vec<Ask>,
    pub(crate) lives: Vec<u8>,
    pub(crate) lane_names: Vec<Name>,
    pub(crate) trigger_names: Vec<Name>,
    pub(crate) ask_names: Vec<Name>,
}

impl Model for Setup {
    ghost use Rattle.cf_setup.specs.Setups.{SetupValue, IsSetup};

    ghost Value = { SetupValue };

    ghost view = { λ s. record {
      source = s.source;
      schema_line = s.schema_line;
      schema = s.schema;
      width = s.width;
      lanes = s.lanes.items;
      triggers = s.triggers.items;
      asks = s.asks.items;
      lives = s.lives.items;
      lane_names = s.lane_names.items;
      trigger_names = s.trigger_names.items;
      ask_names = s.ask_names.items;
    } };

    ghost invariant = { λ s. IsSetup
        (record {
          source = s.source;
          schema_line = s.schema_line;
          schema = s.schema;
          width = s.width;
          lanes = s.lanes.items;
          triggers = s.triggers.items;
          asks = s.asks.items;
          lives = s.lives.items;
          lane_names = s.lane_names.items;
          trigger_names = s.trigger_names.items;
          ask_names = s.ask_names.items;
        }) };
}

impl Setup {
    /// What its rows are read from, as its schema was stated.
    pub fn source(&self) -> Source
        ensures { result ≡ self.now.source }
    {
        self.source
    }

    /// The number of the line of its schema, from 1.
    pub fn schema_line(&self) -> u32
        ensures { result ≡ self.now.schema_line }
    {
        self.schema_line
    }

    /// The schema of the rows.
    pub fn schema(&self) -> &Schema
        ensures { result.now ≡ self.now.schema }
    {
        &self.schema
    }

    /// The width of a bucket in nanoseconds.
    pub fn width(&self) -> u64
        ensures { result ≡ self.now.width }
    {
        self.width
    }

    /// The lanes of its indexes, filters and aggregates, in the order of their statements.
    pub fn lanes(&self) -> &[Lane]
        ensures lanes { result.now ≡ self.now.lanes }
        ensures lawful { IsSetup self.now }
    {
        &self.lanes
    }

    /// The triggers in the order of their statements.
    pub fn triggers(&self) -> &[Trigger]
        ensures triggers { result.now ≡ self.now.triggers }
        ensures lawful { IsSetup self.now }
    {
        &self.triggers
    }

    /// The asks in the order of their statements.
    pub fn asks(&self) -> &[Ask]
        ensures asks { result.now ≡ self.now.asks }
        ensures lawful { IsSetup self.now }
    {
        &self.asks
    }

    /// The places of the asks that are asked live, in the order of the `live` statements.
    pub fn lives(&self) -> &[u8]
        ensures lives { result.now ≡ self.now.lives }
        ensures lawful { IsSetup self.now }
    {
        &self.lives
    }

    /// The name of each lane.
    pub fn lane_names(&self) -> &[Name]
        ensures names { result.now ≡ self.now.lane_names }
        ensures lawful { IsSetup self.now }
    {
        &self.lane_names
    }

    /// The name of each trigger.
    pub fn trigger_names(&self) -> &[Name]
        ensures names { result.now ≡ self.now.trigger_names }
        ensures lawful { IsSetup self.now }
    {
        &self.trigger_names
    }

    /// The name of each ask.
    pub fn ask_names(&self) -> &[Name]
        ensures names { result.now ≡ self.now.ask_names }
        ensures lawful { IsSetup self.now }
    {
        &self.ask_names
    }

    /// The setup over another schema, with its lanes and asks as they are there. All else stays.
    pub fn over(self, schema: Schema, lanes: Vec<Lane>, asks: Vec<Ask>) -> Setup
        requires { IsSetup (record self { schema = schema; lanes = lanes.items; asks = asks.items }) }
        ensures { result ≡ record self { schema = schema; lanes = lanes.items; asks = asks.items } }
    {
        Setup {
            source: self.source,
            schema_line: self.schema_line,
            schema,
            width: self.width,
            lanes,
            triggers: self.triggers,
            asks,
            lives: self.lives,
            lane_names: self.lane_names,
            trigger_names: self.trigger_names,
            ask_names: self.ask_names,
        }
    }
}

// The shape of these lawful parts.
fn shape_with(
    schema: Schema,
    lanes: Vec<Lane>,
    capacity: u32,
    writers: u8,
    nodes: u32,
    width: u64,
) -> Shape
    requires { IsShape (record { schema = schema; lanes = lanes.items; capacity = capacity; writers = writers; nodes = nodes; width = width }) }
    ensures { result ≡ record { schema = schema; lanes = lanes.items; capacity = capacity; writers = writers; nodes = nodes; width = width } }
{
    match Shape::new(schema, lanes, capacity, writers, nodes, width) {
        Ok(shape) => shape,
        Err(_) => unreachable!(),
    }
}

/// The shape of the setup's log, with that many tickets, writers and nodes for each writer.
pub fn shape_of(
    alloc: Global,
    setup: &Setup,
    capacity: u32,
    writers: u8,
    nodes: u32,
) -> Result<Shape, Memory>
    requires capacity { (1 ≤ capacity) × (capacity ≤ 65536) }
    requires writers { (1 ≤ writers) × (writers ≤ 15) }
    requires nodes { nodes ≤ 65536 }
    ensures { IfOk result (λ shape. shape ≡ shaped setup.now capacity writers nodes) }
{
    let schema = setup.schema.copy(alloc)?;
    let lanes = copy_lanes(alloc, setup.lanes())?;
    Ok(shape_with(schema, lanes, capacity, writers, nodes, setup.width))
}

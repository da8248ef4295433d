// A segment of a window.
ghost use Rattle.std.specs.Prelude.{◌≡◌, ◌*◌, ◌≤◌, [], not, length, false, IfOk};
ghost use Rattle.cf_row.specs.Row.{Fits};
ghost use Rattle.cf_plain.specs.Asks.{Suits};
ghost use Rattle.cf_plain.specs.Segments.{finding_in};
ghost use Rattle.cf_window.specs.Segments.{HasEnough, most_nodes, with_nodes, with_row};
ghost use Rattle.cf_window.specs.Windows.{takes};

use cf_alone::Solo;
use cf_plain::{Ask, Finding};
use cf_row::{Memory, Row};
use cf_shape::{Shape, belongs, copy_lanes};
use std::alloc::Global;
use std::marker::Model;

/// A log of one writer, which takes rows until one has no place in it or lacks a node. It is opened with no more nodes than all rows for
/// which it has places can need: a table of many nodes takes long to make.
#[derive(Drop)]
pub struct WindowSegment {
    solo: Solo,
    // How many nodes its rows may need.
    nodes: u32,
    is_spent: bool,
}

impl Model for WindowSegment {
    ghost use Rattle.cf_window.specs.Segments.{IsWindowSegment, WindowSegmentValue, segment_value};

    ghost Value = { WindowSegmentValue };

    ghost view = { λ s. segment_value s.solo s.nodes s.is_spent };

    ghost invariant = { λ s. IsWindowSegment s.solo s.nodes s.is_spent };
}

// How many nodes the path of a row in a lane has at most.
const MOST_ON_PATH: u32 = 15;

// How many nodes all rows of a segment need at most.
fn enough_nodes(shape: &Shape) -> u32
    ensures { result ≡ shape.now.capacity * most_nodes shape.now }
{
    let lanes = shape.lanes().len() as u32;
    shape.capacity() * (lanes * MOST_ON_PATH)
}

// The shape with no more nodes than all rows of a segment can need.
fn log_shape(alloc: Global, shape: &Shape) -> Result<Shape, Memory>
    ensures { IfOk result (λ log. (with_nodes log shape.now.nodes ≡ shape.now) × HasEnough log shape.now.nodes) }
{
    let schema = shape.schema().copy(alloc)?;
    let lanes = copy_lanes(alloc, shape.lanes())?;
    let nodes = enough_nodes(shape);
    if nodes >= shape.nodes() || !belongs(&schema, &lanes) {
        return shape.copy(alloc);
    }
    let (capacity, writers, width) = (shape.capacity(), shape.writers(), shape.width());
    match Shape::new(schema, lanes, capacity, writers, nodes, width) {
        Ok(log) => Ok(log),
        // Fewer nodes are refused nowhere, and all are as good.
        Err(_) => shape.copy(alloc),
    }
}

impl WindowSegment {
    /// An empty segment of the shape, which has one writer.
    pub fn open(alloc: Global, shape: Shape) -> Result<WindowSegment, Memory>
        requires one { shape.writers ≡ 1 }
        ensures { IfOk result (λ segment. segment ≡ record { shape = shape; rows = []; is_spent = false }) }
    {
        let nodes = shape.nodes();
        let solo = Solo::open(alloc, log_shape(alloc, &shape)?)?;
        Ok(WindowSegment {
            solo,
            nodes,
            is_spent: false,
        })
    }

    /// Takes the row as its last one, where it has a place for it and the nodes that the row needs. Else its rows stay as they are,
    /// and it takes none from then on.
    pub fn take(&mut self, row: &Row) -> bool
        requires open { self.old.is_spent ≡ false }
        requires fits { Fits self.old.shape.schema row.now }
        ensures taken { result ≡ takes self.old.shape self.old.rows row.now }
        ensures segment { self.new ≡ record { shape = self.old.shape; rows = with_row self.old.rows row.now result; is_spent = not result } }
    {
        let taken = self.solo.append(row).is_ok();
        self.is_spent = !taken;
        taken
    }

    /// How many rows it has.
    pub fn count(&mut self) -> u32
        ensures stays { self.new ≡ self.old }
        ensures count { result ≡ length self.old.rows }
    {
        self.solo.count()
    }

    /// What the question finds in its rows, and how many they are.
    pub fn find(&mut self, alloc: Global, question: &Ask) -> Result<(u32, Finding), Memory>
        requires suits { Suits self.old.shape question.now }
        ensures stays { self.new ≡ self.old }
        ensures few { length self.old.rows ≤ self.old.shape.capacity }
        ensures found { IfOk result (λ found. (found.0 ≡ length self.old.rows) × (found.1 ≡ finding_in self.old.shape question.now self.old.rows)) }
    {
        self.solo.find(alloc, question)
    }
}

// Questions.
ghost use Rattle.std.specs.Prelude.{◌≡◌, ◌↔◌, IsTrue, IfOk};
ghost use Rattle.cf_plain.specs.Asks.{Suits, is_attr as is_attr_of, is_indexed as is_indexed_of, is_bucketed as is_bucketed_of};
ghost use Rattle.cf_plain.specs.Asks.{is_aggregate as is_aggregate_of, is_tally as is_tally_of, is_measuring as is_measuring_of};
ghost use Rattle.cf_plain.specs.Asks.{suits_trigger as suits_trigger_of};

use cf_fold::{Part, Trigger};
use cf_row::{Expr, Memory, is_of_schema};
use cf_shape::{Key, Shape, is_lawful_measure};
use std::alloc::Global;

/// A question. A lane goes by its number. Ranges take in both ends; one whose first end is above its last is empty.
#[derive(Debug, Drop)]
pub enum Ask {
    /// The places of the rows of which the expression holds.
    List(Expr),
    /// The places of the lane's rows whose key is in the range. The lane's key is an attribute.
    Find(u8, u64, u64),
    /// The places of the lane's rows whose bucket is in the range.
    Between(u8, u64, u64),
    /// The quad of what the lane measures of its rows whose bucket is in the range.
    Measure(u8, u64, u64),
    /// The buckets in which the trigger fires; where its lane keeps the rows of a bucket apart, the buckets and values.
    Fired(Trigger),
    /// The lane's heaviest keys by that part of what it measures of their rows, and at most so many of them. The greater part
    /// goes first, and of equal ones the lower key.
    Top(u8, Part, u32),
    /// All groups of the lane's rows, ascending by key: for each the quad of what the lane measures of its rows. Where the lane
    /// keeps the rows of a bucket apart, a group has those of one bucket and one value.
    Groups(u8),
    /// The quad of the attribute over the rows of which the expression holds.
    Total(u8, Expr),
}

impl Ask {
    /// An equal question.
    pub fn copy(&self, alloc: Global) -> Result<Ask, Memory>
        ensures { IfOk result (λ ask. ask ≡ self.now) }
    {
        match self {
            Ask::List(expr) => Ok(Ask::List(expr.copy(alloc)?)),
            Ask::Find(lane, low, high) => Ok(Ask::Find(*lane, *low, *high)),
            Ask::Between(lane, low, high) => Ok(Ask::Between(*lane, *low, *high)),
            Ask::Measure(lane, low, high) => Ok(Ask::Measure(*lane, *low, *high)),
            Ask::Fired(trigger) => Ok(Ask::Fired(*trigger)),
            Ask::Top(lane, part, count) => Ok(Ask::Top(*lane, *part, *count)),
            Ask::Groups(lane) => Ok(Ask::Groups(*lane)),
            Ask::Total(attr, expr) => Ok(Ask::Total(*attr, expr.copy(alloc)?)),
        }
    }
}

/// Equal questions.
pub fn copy_asks(alloc: Global, asks: &[Ask]) -> Result<Vec<Ask>, Memory>
    ensures { IfOk result (λ copied. copied.items ≡ asks.now) }
{
    let mut copied = Vec::with_capacity(alloc, asks.len())?;
    for ask in asks {
        copied.push(ask.copy(alloc)?)?;
    }
    Ok(copied)
}

fn is_attr(key: Key) -> bool
    ensures { result ≡ is_attr_of key }
{
    match key {
        Key::Attr(_) => true,
        Key::Bucket | Key::BucketBy(_) => false,
    }
}

// Whether the lane exists and has an attribute's value as its key.
fn is_indexed(shape: &Shape, lane: u8) -> bool
    ensures { result ≡ is_indexed_of shape.now lane }
{
    match shape.lanes().get(lane as usize) {
        Some(lane) => is_attr(lane.key),
        None => false,
    }
}

// Whether the lane exists and has the bucket as its key.
fn is_bucketed(shape: &Shape, lane: u8) -> bool
    ensures { result ≡ is_bucketed_of shape.now lane }
{
    match shape.lanes().get(lane as usize) {
        Some(lane) => !is_attr(lane.key),
        None => false,
    }
}

// Whether the lane exists, has the bucket as its key and measures something.
fn is_aggregate(shape: &Shape, lane: u8) -> bool
    ensures { result ≡ is_aggregate_of shape.now lane }
{
    match shape.lanes().get(lane as usize) {
        Some(lane) => !is_attr(lane.key) && lane.measure.is_some(),
        None => false,
    }
}

// Whether the lane exists, has an attribute's value as its key and measures something.
fn is_tally(shape: &Shape, lane: u8) -> bool
    ensures { result ≡ is_tally_of shape.now lane }
{
    match shape.lanes().get(lane as usize) {
        Some(lane) => is_attr(lane.key) && lane.measure.is_some(),
        None => false,
    }
}

// Whether the lane exists and measures something.
fn is_measuring(shape: &Shape, lane: u8) -> bool
    ensures { result ≡ is_measuring_of shape.now lane }
{
    match shape.lanes().get(lane as usize) {
        Some(lane) => lane.measure.is_some(),
        None => false,
    }
}

fn suits_trigger(shape: &Shape, trigger: &Trigger) -> bool
    ensures { result ≡ suits_trigger_of shape.now trigger.now }
{
    is_aggregate(shape, trigger.agg) && !trigger.op.is_range()
}

/// Whether the question can be asked of a log of that shape. `List` wants an expression of the schema, `Find` a lane
/// whose key is an attribute, `Between` one whose key is the bucket, `Measure` and `Fired` one that also measures
/// something, and `Fired` an operator that is not of a range. `Top` wants a lane whose key is an attribute and that measures
/// something, and a count from 1 to 1000; `Groups` a lane that measures something, whatever its key is; `Total` an attribute of
/// numbers below 2^32 and an expression of the schema.
pub fn suits(shape: &Shape, ask: &Ask) -> bool
    ensures { IsTrue result ↔ Suits shape.now ask.now }
{
    match ask {
        Ask::List(expr) => is_of_schema(shape.schema(), expr),
        Ask::Find(lane, _, _) => is_indexed(shape, *lane),
        Ask::Between(lane, _, _) => is_bucketed(shape, *lane),
        Ask::Measure(lane, _, _) => is_aggregate(shape, *lane),
        Ask::Fired(trigger) => suits_trigger(shape, trigger),
        Ask::Top(lane, _, count) => is_tally(shape, *lane) && 1 <= *count && *count <= 1000,
        Ask::Groups(lane) => is_measuring(shape, *lane),
        Ask::Total(attr, expr) => {
            let schema = shape.schema();
            is_of_schema(schema, expr) && is_lawful_measure(schema.attrs(), Some(*attr))
        }
    }
}

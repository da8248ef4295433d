// A lane of a log.
ghost use Rattle.std.specs.Prelude.{◌≡◌, ◌+◌, ◌*◌, ◌<◌, ◌≤◌, length, IfOk};
ghost use Rattle.cf_shape.specs.Faults.{are_lanes_of, is_lane_of, key_exists, measure_exists};
ghost use Rattle.cf_shape.specs.Uses.{cell_words as cell_words_of, cell_count as cell_count_of};

use cf_row::{Attr, Expr, Memory, Schema, is_of_schema};
use std::alloc::Global;

/// What a lane files its rows under.
#[derive(Clone, Copy, Debug, PartialEq, Eq)]
pub enum Key {
    /// The value of the attribute at that place of the schema.
    Attr(u8),
    /// The row's time in whole widths.
    Bucket,
    /// The same. What is asked of the whole lane goes by the bucket and by the value of the attribute at that place of the schema.
    BucketBy(u8),
}

/// A lane takes the rows of which `select` holds, files them under `key`, and adds up the attribute `measure`.
#[derive(Debug, Drop)]
pub struct Lane {
    /// Which rows it takes.
    pub select: Expr,
    /// What they are filed under.
    pub key: Key,
    /// The place in the schema of the attribute that is added up, if one is.
    pub measure: Option<u8>,
}

impl Lane {
    /// An equal lane.
    pub fn copy(&self, alloc: Global) -> Result<Lane, Memory>
        ensures { IfOk result (λ lane. lane ≡ self.now) }
    {
        Ok(Lane {
            select: self.select.copy(alloc)?,
            key: self.key,
            measure: self.measure,
        })
    }

    // How many words the lane's cell has.
    pub(crate) fn cell_words(&self) -> u8
        ensures { result ≡ cell_words_of self.now }
    {
        match self.measure {
            Some(_) => 3,
            None => 1,
        }
    }
}

// How many words the cells of these lanes have.
pub(crate) fn cell_count(lanes: &[Lane]) -> u64
    requires { length lanes.now ≤ 16 }
    ensures count { result ≡ cell_count_of lanes.now }
    ensures few { result ≤ 48 }
{
    let mut count = 0;
    for lane in lanes {
        count += u64::from(lane.cell_words());
    }
    count
}

/// Equal lanes.
pub fn copy_lanes(alloc: Global, lanes: &[Lane]) -> Result<Vec<Lane>, Memory>
    ensures { IfOk result (λ copied. copied.items ≡ lanes.now) }
{
    let mut copied = Vec::with_capacity(alloc, lanes.len())?;
    for lane in lanes {
        copied.push(lane.copy(alloc)?)?;
    }
    Ok(copied)
}

fn has_key(attrs: &[Attr], key: Key) -> bool
    ensures { result ≡ key_exists attrs.now key }
{
    match key {
        Key::Attr(attr) | Key::BucketBy(attr) => attrs.get(attr as usize).is_some(),
        Key::Bucket => true,
    }
}

fn has_measure(attrs: &[Attr], measure: Option<u8>) -> bool
    ensures { result ≡ measure_exists attrs.now measure }
{
    match measure {
        Some(attr) => attrs.get(attr as usize).is_some(),
        None => true,
    }
}

fn is_lane_of_schema(schema: &Schema, lane: &Lane) -> bool
    ensures { result ≡ is_lane_of schema.now lane.now }
{
    is_of_schema(schema, &lane.select)
        && has_key(schema.attrs(), lane.key)
        && has_measure(schema.attrs(), lane.measure)
}

/// Whether each lane's expression is of the schema, and its key's and its measure's attributes are there.
pub fn belongs(schema: &Schema, lanes: &[Lane]) -> bool
    ensures { result ≡ are_lanes_of schema.now lanes.now }
{
    lanes.iter().all(|lane| is_lane_of_schema(schema, lane))
}

// What a lane says of a row.
ghost use Rattle.std.specs.Prelude.{◌≡◌, ◌<◌, length};
ghost use Rattle.cf_row.specs.Row.{Fits};
ghost use Rattle.cf_shape.specs.Lanes.{key_of, lane_at, selected_by, measure_of, by_of, has_by};
ghost use Rattle.cf_shape.specs.Nodes.{levels_of};
ghost use Rattle.cf_shape.specs.Uses.{cell_words, is_measured};

use crate::kinds::key_nibbles;
use crate::{Key, Shape};
use cf_row::{Row, holds};

/// Whether the lane takes the row.
pub fn selects(shape: &Shape, lane: u8, row: &Row) -> bool
    requires exists { lane < length shape.now.lanes }
    requires fits { Fits shape.now.schema row.now }
    ensures { result ≡ selected_by shape.now lane row.now }
{
    holds(shape.schema(), &shape.lane(lane).select, row)
}

/// The row's key in the lane.
pub fn key(shape: &Shape, lane: u8, row: &Row) -> u64
    requires exists { lane < length shape.now.lanes }
    requires fits { Fits shape.now.schema row.now }
    ensures { result ≡ key_of shape.now lane row.now }
{
    match shape.lane(lane).key {
        Key::Attr(attr) => row.number(attr),
        Key::Bucket | Key::BucketBy(_) => row.time(shape.schema()) / shape.width(),
    }
}

/// The row's number at the attribute by which the lane keeps the rows of a bucket apart, if its key names one.
pub fn by(shape: &Shape, lane: u8, row: &Row) -> Option<u64>
    requires exists { lane < length shape.now.lanes }
    requires fits { Fits shape.now.schema row.now }
    ensures { result ≡ by_of shape.now lane row.now }
{
    match shape.lane(lane).key {
        Key::Attr(_) | Key::Bucket => None,
        Key::BucketBy(attr) => Some(row.number(attr)),
    }
}

/// Whether the lane keeps the rows of a bucket apart by an attribute.
pub fn keeps_apart(shape: &Shape, lane: u8) -> bool
    requires exists { lane < length shape.now.lanes }
    ensures { result ≡ has_by (lane_at shape.now lane).key }
{
    match shape.lane(lane).key {
        Key::Attr(_) | Key::Bucket => false,
        Key::BucketBy(_) => true,
    }
}

/// What the lane measures of the row, 0 where it measures nothing.
pub fn measure(shape: &Shape, lane: u8, row: &Row) -> u32
    requires exists { lane < length shape.now.lanes }
    requires fits { Fits shape.now.schema row.now }
    ensures { result ≡ measure_of shape.now lane row.now }
{
    match shape.lane(lane).measure {
        Some(attr) => row.number(attr) as u32,
        None => 0,
    }
}

/// Whether the lane measures an attribute of its rows.
pub fn measures(shape: &Shape, lane: u8) -> bool
    requires exists { lane < length shape.now.lanes }
    ensures { result ≡ is_measured shape.now lane }
{
    shape.lane(lane).measure.is_some()
}

/// How many words the lane's cell has: 3 where it measures an attribute, else 1.
pub fn cell_size(shape: &Shape, lane: u8) -> u8
    requires exists { lane < length shape.now.lanes }
    ensures { result ≡ cell_words (lane_at shape.now lane) }
{
    shape.lane(lane).cell_words()
}

/// How many nibbles the lane's keys have: 2, 4, 8 or 16 for keys of 1, 2, 4 or 8 bytes, and 16 for buckets.
pub fn levels(shape: &Shape, lane: u8) -> u8
    requires exists { lane < length shape.now.lanes }
    ensures { result ≡ levels_of shape.now lane }
{
    key_nibbles(shape.schema().attrs(), shape.lane(lane).key)
}

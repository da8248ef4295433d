// How many nodes a row needs.
ghost use Rattle.std.specs.Prelude.{◌≡◌, length};
ghost use Rattle.cf_row.specs.Row.{Fits};
ghost use Rattle.cf_shape.specs.Nodes.{nodes_for};

use cf_row::Row;
use cf_shape::{Shape, levels, selects};

/// How many nodes the row's paths in all lanes have.
pub fn nodes_needed(shape: &Shape, row: &Row) -> u32
    requires fits { Fits shape.now.schema row.now }
    ensures { result ≡ length (nodes_for shape.now row.now) }
{
    let lanes = shape.lanes().len() as u8;
    let mut count: u32 = 0;
    for lane in 0..lanes {
        if selects(shape, lane, row) {
            count += u32::from(levels(shape, lane).saturating_sub(1));
        }
    }
    count
}

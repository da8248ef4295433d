// What questions find in segments that stand one behind the other.
ghost use Rattle.std.specs.Prelude.{◌≡◌, ◌*◌, ◌≤◌, ◌^◌, All, length, IfOk};
ghost use Rattle.cf_plain.specs.Asks.{Suits};
ghost use Rattle.cf_plain.specs.Segments.{finding_in};
ghost use Rattle.cf_window.specs.Held.{IsOfShape, rows_each};
ghost use Rattle.cf_window.specs.Windows.{rows_in_all};

use crate::WindowSegment;
use cf_plain::{Ask, Finding};
use cf_row::Memory;
use cf_shape::Shape;
use std::alloc::Global;

// What the question finds in the rows of all segments.
pub(crate) fn find_in(
    alloc: Global,
    shape: &Shape,
    segments: &mut [WindowSegment],
    ask: &Ask,
) -> Result<Finding, Memory>
    requires shapes { All (IsOfShape shape.now) segments.old }
    requires suits { Suits shape.now ask.now }
    requires few { length segments.old * shape.now.capacity ≤ 2 ^ 20 }
    ensures stays { segments.new ≡ segments.old }
    ensures found { IfOk result (λ found. found ≡ finding_in shape.now ask.now (rows_in_all (rows_each segments.old))) }
{
    let _shape = shape;
    let mut count = 0;
    let mut found = Finding::nothing(alloc, ask);
    for segment in segments.iter_mut() {
        let (tail, more) = segment.find(alloc, ask)?;
        found = found.join(alloc, count, more)?;
        count += tail;
    }
    Ok(found)
}

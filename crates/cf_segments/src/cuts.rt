// The parts by which lists and totals are asked of all entries, each with a pass of its own.
ghost use Rattle.std.specs.Prelude.{◌≡◌, ◌+◌, ◌≤◌, ◌*◌, ◌^◌, ◌++◌, ℕ, All, List, Some, length, slice_get, IfOk, OnOk};
ghost use Rattle.std.specs.List.{AllZip, flat_map};
ghost use Rattle.cf_scan.specs.Parts.{IsPart, entries_in};
ghost use Rattle.cf_shape.specs.Lanes.{ShapeValue};
ghost use Rattle.cf_table.specs.Values.{LogValue};
ghost use Rattle.cf_segments.specs.Readers.{ArePartsOf};
ghost use Rattle.cf_segments.specs.Segments.{IsSegment, KeepsAll, KeepsSegment, seen_of, segments_of};

use crate::Segments;
use crate::segments::Segment;
use cf_query::tail;
use cf_row::Memory;
use cf_scan::{Part, push_parts};
use cf_table::Steps;
use std::alloc::Global;
use std::sync::ledger::Ledger;

impl Segment {
    // Puts the parts of all entries behind others. The segment stands at that place. The read tail is loaded once.
    fn push_parts<L: Ledger>(
        &mut self,
        place: usize,
        parts: &mut Vec<Part>,
        steps: &mut Steps<L>,
    ) -> Result<(), Memory>
        requires is { (shape : ShapeValue) × IsSegment shape self.old }
        ensures kept { KeepsSegment self.old self.new }
        ensures few { length (seen_of self.old) ≤ self.old.log.shape.capacity }
        ensures entries { OnOk result (flat_map entries_in parts.new.items ≡ flat_map entries_in parts.old.items ++ seen_of self.old) }
        ensures are { (logs : List LogValue) → slice_get logs place ≡ Some self.old.log → All (IsPart self.old.log.shape logs) parts.old.items
            → All (IsPart self.old.log.shape logs) parts.new.items }
    {
        tail(&self.log, &mut self.root, steps);
        push_parts(&self.log, &mut self.root, place, parts)
    }
}

// The parts of these segments' entries, in order.
fn parts_of<L: Ledger>(
    alloc: Global,
    closed: &mut [Segment],
    current: &mut Segment,
    steps: &mut Steps<L>,
) -> Result<Vec<Part>, Memory>
    requires closed { All (IsSegment current.old.log.shape) closed.old }
    requires current { IsSegment current.old.log.shape current.old }
    requires room { current.old.log.shape.capacity * length closed.old + current.old.log.shape.capacity ≤ 2 ^ 20 }
    ensures closed { AllZip KeepsSegment closed.old closed.new }
    ensures current { KeepsSegment current.old current.new }
    ensures parts { (most : ℕ) → IfOk result (λ parts. ArePartsOf (segments_of most closed.old current.old) parts.items) }
{
    let mut parts = Vec::new(alloc);
    let mut place = 0;
    for segment in closed.iter_mut() {
        segment.push_parts(place, &mut parts, steps)?;
        place += 1;
    }
    current.push_parts(place, &mut parts, steps)?;
    Ok(parts)
}

impl Segments {
    /// The entries of all segments cut into parts, in order, each with a pass of its own that has seen them.
    pub fn parts<L: Ledger>(
        &mut self,
        alloc: Global,
        steps: &mut Steps<L>,
    ) -> Result<Vec<Part>, Memory>
        ensures kept { KeepsAll self.old self.new }
        ensures parts { IfOk result (λ parts. ArePartsOf self.old parts.items) }
    {
        parts_of(alloc, self.closed.as_mut_slice(), &mut self.current, steps)
    }
}

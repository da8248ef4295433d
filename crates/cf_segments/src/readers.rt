// The passes by which questions are asked of all entries, one for each segment.
ghost use Rattle.std.specs.Prelude.{◌≡◌, ◌∷◌, [], ◌++◌, All, map, IfOk};
ghost use Rattle.std.specs.List.{AllZip};
ghost use Rattle.cf_shape.specs.Lanes.{ShapeValue};
ghost use Rattle.cf_scan.specs.Parts.{behind};
ghost use Rattle.cf_segments.specs.Readers.{Reads, log_in};
ghost use Rattle.cf_segments.specs.Segments.{IsSegment, IsSegments, KeepsAll, KeepsSegment, all_of};

use crate::Segments;
use crate::segments::Segment;
use cf_query::tail;
use cf_row::Memory;
use cf_table::{MultiLog, ReaderPass, Steps};
use std::alloc::Global;
use std::sync::ledger::Ledger;

impl Segment {
    // A pass that has seen all entries. The read tail is loaded once.
    fn reader<L: Ledger>(&mut self, steps: &mut Steps<L>) -> ReaderPass
        requires is { (shape : ShapeValue) × IsSegment shape self.old }
        ensures kept { KeepsSegment self.old self.new }
        ensures reads { Reads self.old result }
    {
        tail(&self.log, &mut self.root, steps);
        self.log.fork(&mut self.root)
    }
}

// A pass for each of these segments, in order.
fn readers_of<L: Ledger>(
    alloc: Global,
    closed: &mut [Segment],
    current: &mut Segment,
    steps: &mut Steps<L>,
) -> Result<Vec<ReaderPass>, Memory>
    requires closed { (shape : ShapeValue) × All (IsSegment shape) closed.old }
    requires current { (shape : ShapeValue) × IsSegment shape current.old }
    ensures closed { AllZip KeepsSegment closed.old closed.new }
    ensures current { KeepsSegment current.old current.new }
    ensures read { IfOk result (λ readers. AllZip Reads (closed.old ++ current.old ∷ []) readers.items) }
{
    let mut readers = Vec::new(alloc);
    for segment in closed.iter_mut() {
        readers.push(segment.reader(steps))?;
    }
    readers.push(current.reader(steps))?;
    Ok(readers)
}

impl Segments {
    /// A pass for each segment, in order, which has seen all of its entries.
    pub fn readers<L: Ledger>(
        &mut self,
        alloc: Global,
        steps: &mut Steps<L>,
    ) -> Result<Vec<ReaderPass>, Memory>
        ensures kept { KeepsAll self.old self.new }
        ensures read { IfOk result (λ readers. AllZip Reads (all_of self.old) readers.items) }
    {
        readers_of(alloc, self.closed.as_mut_slice(), &mut self.current, steps)
    }

    /// The logs of all segments, in order.
    pub fn logs<'a>(&'a self, alloc: Global) -> Result<Vec<&'a MultiLog>, Memory>
        ensures logs { IfOk result (λ logs. map behind logs.items ≡ map log_in (all_of self.now)) }
        ensures lawful { IsSegments self.now }
    {
        let mut logs = Vec::new(alloc);
        for segment in &self.closed {
            logs.push(&segment.log)?;
        }
        logs.push(&self.current.log)?;
        Ok(logs)
    }
}

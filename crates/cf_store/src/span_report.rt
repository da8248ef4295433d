// The report of what a span has seen.
ghost use Rattle.std.specs.Arc.{arc_value};
ghost use Rattle.cf_store.specs.Ends.{AreBehind, ReportsWith};
ghost use Rattle.cf_store.specs.Spans.{ReportsSpan};

use crate::held::Reader;
use crate::report::report_seen;
use crate::span::Span;
use cf_row::Memory;
use std::alloc::Global;

impl Reader {
    /// The text of the report of what this reader and those behind it see.
    pub(crate) fn report_with(
        &mut self,
        alloc: Global,
        rest: &mut [Reader],
    ) -> Result<Vec<u8>, Memory>
        requires { AreBehind (arc_value self.old.of) self.old.pass rest.old }
        ensures { ReportsWith self.old self.new rest.old rest.new result }
    {
        report_seen(&self.of, alloc, &mut self.pass, rest)
    }
}

impl Span {
    /// The text of the report of what the span has seen, as that of one reader of one log with the records of all, end to end.
    pub fn report(&mut self, alloc: Global) -> Result<Vec<u8>, Memory>
        ensures { ReportsSpan self.old self.new result }
    {
        self.first.report_with(alloc, self.rest.as_mut_slice())
    }
}

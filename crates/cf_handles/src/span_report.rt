// What C calls for the report of what a span has seen.
ghost use Rattle.std.specs.Prelude.{◌≡◌, None};
ghost use Rattle.cf_handles.specs.Calls.{Tells};
ghost use Rattle.cf_handles.specs.Spanned.{ReportsSpanTo};

use crate::code::Code;
use crate::copies::show_text;
use crate::handle::SpanHandle;
use std::alloc::Global;

/// Copies the text of the report of what the span has seen as far as there is room, and says how long it is.
pub fn confluo_span_report(
    alloc: Global,
    span: &mut SpanHandle,
    text: &mut [u8],
    count: &mut usize,
) -> u32
    ensures told { Tells (ReportsSpanTo text.old text.new) span.old.seat.held span.new.seat.held count.old count.new result }
    ensures nothing { span.old.seat.held ≡ None → text.new ≡ text.old }
{
    let Some(span) = span.get_mut() else {
        return Code::Nothing.number();
    };
    show_text(span.report(alloc), text, count)
}

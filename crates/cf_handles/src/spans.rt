// What C calls with a handle of a span: readers of logs of one setup that answer as one. Each call answers the number of its code, and puts
// what it found at an out-value.
ghost use Rattle.std.specs.Prelude.{◌≡◌, ℕ, IfErr, None, Result};
ghost use Rattle.cf_handles.specs.declared.code.Code.{Code as CodeValue};
ghost use Rattle.cf_store.specs.declared.shown.Shown.{Shown as ShownRow};
ghost use Rattle.cf_store.specs.Spans.{AsksSpanAt, AsksSpanSeen, ShowsSpanRow, TellsSpanGroups};
ghost use Rattle.cf_handles.specs.Codes.{ask_code, lane_code, row_code};
ghost use Rattle.cf_handles.specs.Calls.{ByHandle, IsCoded, Tells, count_or, number_of, number_or};
ghost use Rattle.cf_handles.specs.Spanned.{AddsBy, CountsLogs, DropsBy, IsSpanTail, SpanWordsBy, SpansTo};

use crate::code::Code;
use crate::copies::copy_part;
use crate::handle::{ReaderHandle, SpanHandle};
use crate::readers::show_head;
use cf_store::{Head, ShownValue, Span};
use std::alloc::Global;

/// Makes a span of the reader, and puts it at the second handle. The first leads to nothing then.
pub fn confluo_span_of(alloc: Global, reader: &mut ReaderHandle, span: &mut SpanHandle) -> u32
    ensures { (r : Result (Unit {0}) CodeValue) × SpansTo span.old.seat.held span.new.seat.held reader.old.seat.held reader.new.seat.held r × (result ≡ number_of r) }
{
    let Some(held) = reader.take(alloc) else {
        return Code::Nothing.number();
    };
    match Box::new(alloc, Span::of(held, alloc)) {
        Ok(made) => {
            span.put(made);
            0
        }
        Err(refused) => {
            reader.put(refused.value.into_reader());
            Code::Memory.number()
        }
    }
}

/// Adds the reader of the log that comes next to the span. Its handle leads to nothing then.
pub fn confluo_span_add(alloc: Global, span: &mut SpanHandle, reader: &mut ReaderHandle) -> u32
    ensures { AddsBy (span.old.seat.held, reader.old.seat.held) (span.new.seat.held, reader.new.seat.held) result }
{
    let Some(span) = span.get_mut() else {
        return Code::Nothing.number();
    };
    let Some(held) = reader.take(alloc) else {
        return Code::Nothing.number();
    };
    match span.add(held) {
        Ok(()) => 0,
        Err((back, refusal)) => {
            reader.put(back);
            Code::of_add(refusal).number()
        }
    }
}

/// Lets the first log of the span go, unless it is the only one.
pub fn confluo_span_drop_first(_alloc: Global, span: &mut SpanHandle) -> u32
    ensures { DropsBy span.old.seat.held span.new.seat.held result }
{
    let Some(span) = span.get_mut() else {
        return Code::Nothing.number();
    };
    if !span.drop_first() {
        return Code::OneLog.number();
    }
    0
}

/// Says how many logs the span has.
pub fn confluo_span_logs(_alloc: Global, span: &mut SpanHandle, count: &mut usize) -> u32
    ensures { Tells CountsLogs span.old.seat.held span.new.seat.held count.old count.new result }
{
    let Some(span) = span.get_mut() else {
        return Code::Nothing.number();
    };
    *count = span.parts();
    0
}

/// Says how many records are seen of all logs of the span.
pub fn confluo_span_tail(_alloc: Global, span: &mut SpanHandle, tail: &mut u32) -> u32
    ensures { Tells IsSpanTail span.old.seat.held span.new.seat.held tail.old tail.new result }
{
    let Some(span) = span.get_mut() else {
        return Code::Nothing.number();
    };
    *tail = span.tail();
    0
}

/// Asks the question of that number in the setup by a span, and says the head of the answer, whose words the span keeps.
pub fn confluo_span_ask(alloc: Global, span: &mut SpanHandle, question: u32, head: &mut Head) -> u32
    ensures { Tells (λ m n. IsCoded ask_code (AsksSpanAt question m n)) span.old.seat.held span.new.seat.held head.old head.new result }
{
    let Some(span) = span.get_mut() else {
        return Code::Nothing.number();
    };
    show_head(span.ask(alloc, question), head)
}

/// Asks the question of that number in the setup of what the span has seen, and says what its answer is.
pub fn confluo_span_ask_seen(
    alloc: Global,
    span: &mut SpanHandle,
    question: u32,
    head: &mut Head,
) -> u32
    ensures { Tells (λ m n. IsCoded ask_code (AsksSpanSeen question m n)) span.old.seat.held span.new.seat.held head.old head.new result }
{
    let Some(span) = span.get_mut() else {
        return Code::Nothing.number();
    };
    show_head(span.ask_seen(alloc, question), head)
}

/// Tells the groups of the lane of that number in what the span has seen.
pub fn confluo_span_groups(alloc: Global, span: &mut SpanHandle, lane: u32, head: &mut Head) -> u32
    ensures { Tells (λ m n. IsCoded lane_code (TellsSpanGroups lane m n)) span.old.seat.held span.new.seat.held head.old head.new result }
{
    let Some(span) = span.get_mut() else {
        return Code::Nothing.number();
    };
    match span.groups(alloc, lane) {
        Ok(found) => {
            *head = found;
            0
        }
        Err(refusal) => Code::of_lane(refusal).number(),
    }
}

/// Shows the row at an offset that the span has seen, counted from the first record of its first log: its number, its values as far as
/// there is room, and how many they are.
pub fn confluo_span_row(
    alloc: Global,
    span: &mut SpanHandle,
    offset: u32,
    number: &mut u32,
    values: &mut [ShownValue],
    count: &mut usize,
) -> u32
    ensures { (r : Result ShownRow CodeValue) × ByHandle (λ m n. IsCoded row_code (ShowsSpanRow offset m n values.old values.new)) span.old.seat.held span.new.seat.held r
        × IfErr r (λ _. values.new ≡ values.old) × (result ≡ number_of r) × (number.new ≡ number_or r number.old) × (count.new ≡ count_or r count.old) }
{
    let Some(span) = span.get_mut() else {
        return Code::Nothing.number();
    };
    match span.show_row(alloc, offset, values) {
        Ok(shown) => {
            *number = shown.number;
            *count = shown.count;
            0
        }
        Err(refusal) => Code::of_row(refusal).number(),
    }
}

/// Copies words of the span's last answer, from that place on, as far as there is room, and says how many.
pub fn confluo_span_words(
    _alloc: Global,
    span: &mut SpanHandle,
    from: usize,
    out: &mut [u64],
) -> usize
    ensures same { span.new.seat.held ≡ span.old.seat.held }
    ensures copied { SpanWordsBy from out.old out.new span.old.seat.held result }
{
    let Some(span) = span.get_mut() else {
        return 0;
    };
    copy_part(span.words(), from, out)
}

/// Frees the span. The handle leads to nothing then.
pub fn confluo_free_span(alloc: Global, span: &mut SpanHandle)
    ensures { span.new.seat.held ≡ None }
{
    drop(span.take(alloc));
}

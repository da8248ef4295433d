// What C calls with handles of spans: each contract says what is owned at the pointer to one, before and after.
ghost use Rattle.std.specs.Prelude.{◌≡◌, None, Option};
ghost use base.Fml.{fsep};
ghost use types.Logic.{sem};
ghost use Rattle.cf_handles.specs.Codes.{ask_code, lane_code};
ghost use Rattle.cf_handles.specs.Calls.{IsCoded, Tells};
ghost use Rattle.cf_handles.specs.Spanned.{AddsBy, CountsLogs, DropsBy, IsSpanTail, ReportsSpanTo, SpanWordsBy};
ghost use Rattle.cf_store.specs.Spans.{AsksSpanAt, AsksSpanSeen, SpanValue, TellsSpanGroups};
ghost use Rattle.cf_store.specs.declared.held.Reader.{Reader};
ghost use Rattle.confluo_c.specs.Leads.{reader_at, span_at};
ghost use Rattle.confluo_c.specs.Told.{SpanRowBy, SpansBy};

use crate::raw::RawHandle;
use cf_handles::{span_report, spans};
use cf_store::{Head, ShownValue};
use std::alloc::Global;

/// Makes a span of the reader, and puts it at the second handle. The first leads to nothing then.
#[unsafe(no_mangle)]
pub unsafe extern "C" fn confluo_span_of(
    alloc: Global,
    reader: *mut RawHandle,
    span: *mut RawHandle,
) -> u32
    ghost held: { Option Reader × Option SpanValue }
    requires* { sem 𝓛 (fsep (reader_at reader held.0) (span_at span held.1)) }
    ensures* { ∃ₛ (λ (after : Option Reader × Option SpanValue). sem 𝓛 (fsep (reader_at reader after.0) (span_at span after.1)) ∗ ⌜ SpansBy held after result ⌝) }
{
    spans::confluo_span_of(
        alloc,
        unsafe { &mut *reader.cast() },
        unsafe { &mut *span.cast() },
    )
}

/// Adds the reader of the log that comes next to the span. Its handle leads to nothing then.
#[unsafe(no_mangle)]
pub unsafe extern "C" fn confluo_span_add(
    alloc: Global,
    span: *mut RawHandle,
    reader: *mut RawHandle,
) -> u32
    ghost held: { Option SpanValue × Option Reader }
    requires* { sem 𝓛 (fsep (span_at span held.0) (reader_at reader held.1)) }
    ensures* { ∃ₛ (λ (after : Option SpanValue × Option Reader). sem 𝓛 (fsep (span_at span after.0) (reader_at reader after.1)) ∗ ⌜ AddsBy held after result ⌝) }
{
    spans::confluo_span_add(
        alloc,
        unsafe { &mut *span.cast() },
        unsafe { &mut *reader.cast() },
    )
}

/// Lets the first log of the span go, unless it is the only one.
#[unsafe(no_mangle)]
pub unsafe extern "C" fn confluo_span_drop_first(alloc: Global, span: *mut RawHandle) -> u32
    ghost held: { Option SpanValue }
    requires* { sem 𝓛 (span_at span held) }
    ensures* { ∃ₛ (λ (after : Option SpanValue). sem 𝓛 (span_at span after) ∗ ⌜ DropsBy held after result ⌝) }
{
    spans::confluo_span_drop_first(alloc, unsafe { &mut *span.cast() })
}

/// Says how many logs the span has.
#[unsafe(no_mangle)]
pub unsafe extern "C" fn confluo_span_logs(
    alloc: Global,
    span: *mut RawHandle,
    count: &mut usize,
) -> u32
    ghost held: { Option SpanValue }
    requires* { sem 𝓛 (span_at span held) }
    ensures* { ∃ₛ (λ (after : Option SpanValue). sem 𝓛 (span_at span after) ∗ ⌜ Tells CountsLogs held after count.old count.new result ⌝) }
{
    spans::confluo_span_logs(alloc, unsafe { &mut *span.cast() }, count)
}

/// Says how many records are seen of all logs of the span.
#[unsafe(no_mangle)]
pub unsafe extern "C" fn confluo_span_tail(
    alloc: Global,
    span: *mut RawHandle,
    tail: &mut u32,
) -> u32
    ghost held: { Option SpanValue }
    requires* { sem 𝓛 (span_at span held) }
    ensures* { ∃ₛ (λ (after : Option SpanValue). sem 𝓛 (span_at span after) ∗ ⌜ Tells IsSpanTail held after tail.old tail.new result ⌝) }
{
    spans::confluo_span_tail(alloc, unsafe { &mut *span.cast() }, tail)
}

/// Asks the question of that number in the setup by a span, and says the head of the answer, whose words the span keeps.
#[unsafe(no_mangle)]
pub unsafe extern "C" fn confluo_span_ask(
    alloc: Global,
    span: *mut RawHandle,
    question: u32,
    head: &mut Head,
) -> u32
    ghost held: { Option SpanValue }
    requires* { sem 𝓛 (span_at span held) }
    ensures* { ∃ₛ (λ (after : Option SpanValue). sem 𝓛 (span_at span after) ∗ ⌜ Tells (λ m n. IsCoded ask_code (AsksSpanAt question m n)) held after head.old head.new result ⌝) }
{
    spans::confluo_span_ask(alloc, unsafe { &mut *span.cast() }, question, head)
}

/// Asks the question of that number in the setup of what the span has seen, and says what its answer is.
#[unsafe(no_mangle)]
pub unsafe extern "C" fn confluo_span_ask_seen(
    alloc: Global,
    span: *mut RawHandle,
    question: u32,
    head: &mut Head,
) -> u32
    ghost held: { Option SpanValue }
    requires* { sem 𝓛 (span_at span held) }
    ensures* { ∃ₛ (λ (after : Option SpanValue). sem 𝓛 (span_at span after) ∗ ⌜ Tells (λ m n. IsCoded ask_code (AsksSpanSeen question m n)) held after head.old head.new result ⌝) }
{
    spans::confluo_span_ask_seen(alloc, unsafe { &mut *span.cast() }, question, head)
}

/// Tells the groups of the lane of that number in what the span has seen.
#[unsafe(no_mangle)]
pub unsafe extern "C" fn confluo_span_groups(
    alloc: Global,
    span: *mut RawHandle,
    lane: u32,
    head: &mut Head,
) -> u32
    ghost held: { Option SpanValue }
    requires* { sem 𝓛 (span_at span held) }
    ensures* { ∃ₛ (λ (after : Option SpanValue). sem 𝓛 (span_at span after) ∗ ⌜ Tells (λ m n. IsCoded lane_code (TellsSpanGroups lane m n)) held after head.old head.new result ⌝) }
{
    spans::confluo_span_groups(alloc, unsafe { &mut *span.cast() }, lane, head)
}

/// Shows the row at an offset that the span has seen, counted from the first record of its first log: its number, its values as far as
/// there is room, and how many they are.
#[unsafe(no_mangle)]
pub unsafe extern "C" fn confluo_span_row(
    alloc: Global,
    span: *mut RawHandle,
    offset: u32,
    number: &mut u32,
    values: &mut [ShownValue],
    count: &mut usize,
) -> u32
    ghost held: { Option SpanValue }
    requires* { sem 𝓛 (span_at span held) }
    ensures* { ∃ₛ (λ (after : Option SpanValue). sem 𝓛 (span_at span after) ∗ ⌜ SpanRowBy offset values.old values.new number.old number.new count.old count.new held after result ⌝) }
{
    spans::confluo_span_row(
        alloc,
        unsafe { &mut *span.cast() },
        offset,
        number,
        values,
        count,
    )
}

/// Copies words of the span's last answer, from that place on, as far as there is room, and says how many.
#[unsafe(no_mangle)]
pub unsafe extern "C" fn confluo_span_words(
    alloc: Global,
    span: *mut RawHandle,
    from: usize,
    out: &mut [u64],
) -> usize
    ghost held: { Option SpanValue }
    requires* { sem 𝓛 (span_at span held) }
    ensures* { ∃ₛ (λ (after : Option SpanValue). sem 𝓛 (span_at span after) ∗ ⌜ (after ≡ held) × SpanWordsBy from out.old out.new held result ⌝) }
{
    spans::confluo_span_words(alloc, unsafe { &mut *span.cast() }, from, out)
}

/// Copies the text of the report of what the span has seen as far as there is room, and says how long it is.
#[unsafe(no_mangle)]
pub unsafe extern "C" fn confluo_span_report(
    alloc: Global,
    span: *mut RawHandle,
    text: &mut [u8],
    count: &mut usize,
) -> u32
    ghost held: { Option SpanValue }
    requires* { sem 𝓛 (span_at span held) }
    ensures* { ∃ₛ (λ (after : Option SpanValue). sem 𝓛 (span_at span after) ∗ ⌜ Tells (ReportsSpanTo text.old text.new) held after count.old count.new result × (held ≡ None → text.new ≡ text.old) ⌝) }
{
    span_report::confluo_span_report(alloc, unsafe { &mut *span.cast() }, text, count)
}

/// Frees the span. The handle leads to nothing then.
#[unsafe(no_mangle)]
pub unsafe extern "C" fn confluo_free_span(alloc: Global, span: *mut RawHandle)
    ghost held: { Option SpanValue }
    requires* { sem 𝓛 (span_at span held) }
    ensures* { sem 𝓛 (span_at span None) }
{
    spans::confluo_free_span(alloc, unsafe { &mut *span.cast() });
}

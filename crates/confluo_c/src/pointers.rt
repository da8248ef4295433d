// What C calls with handles: each contract says what is owned at the pointer to one, before and after.
ghost use Rattle.std.specs.Prelude.{◌≡◌, None, Option};
ghost use base.Fml.{fsep};
ghost use types.Logic.{sem};
ghost use Rattle.cf_handles.specs.Codes.{append_code, ask_code, lane_code};
ghost use Rattle.cf_handles.specs.Calls.{IsCoded, IsRoom, IsTail, Tells};
ghost use Rattle.cf_handles.specs.Ends.{ReportsTo};
ghost use Rattle.cf_handles.specs.Named.{IsAbout, IsQuestion, IsWidth};
ghost use Rattle.cf_store.specs.Appends.{AppendsPlain, AppendsValues};
ghost use Rattle.cf_store.specs.Asks.{AsksAt, AsksSeen, TellsGroups};
ghost use Rattle.cf_store.specs.declared.held.Log.{Log};
ghost use Rattle.cf_store.specs.declared.held.Reader.{Reader};
ghost use Rattle.cf_store.specs.declared.held.Writer.{Writer};
ghost use Rattle.confluo_c.specs.Leads.{log_at, reader_at, writer_at};
ghost use Rattle.confluo_c.specs.Told.{AsksBy, BatchTold, ClosesBy, ForksBy, FrameBy, NamesBy, OpensBy, RowBy, TakesBy, WordsBy};

use crate::raw::RawHandle;
use cf_handles::{About, logs, readers, writers};
use cf_store::{Capture, Fault, Framed, Head, Room, ShownValue, Sizes};
use std::alloc::Global;

/// Opens a log of the setup whose text the bytes are, and puts it at the handle. What the handle led to is freed. Refused, it leads to
/// what it led to.
#[unsafe(no_mangle)]
pub unsafe extern "C" fn confluo_open(
    alloc: Global,
    log: *mut RawHandle,
    setup: &[u8],
    sizes: &Sizes,
    fault: &mut Fault,
) -> u32
    ghost held: { Option Log }
    requires* { sem 𝓛 (log_at log held) }
    ensures* { ∃ₛ (λ (after : Option Log). sem 𝓛 (log_at log after) ∗ ⌜ OpensBy setup.now sizes.now fault.old fault.new held after result ⌝) }
{
    logs::confluo_open(alloc, unsafe { &mut *log.cast() }, setup, sizes, fault)
}

/// Takes a writer of the log that is not taken, or was freed, puts it at the second handle, and says its number.
#[unsafe(no_mangle)]
pub unsafe extern "C" fn confluo_take_writer(
    alloc: Global,
    log: *mut RawHandle,
    writer: *mut RawHandle,
    number: &mut u32,
) -> u32
    ghost held: { Option Log × Option Writer }
    requires* { sem 𝓛 (fsep (log_at log held.0) (writer_at writer held.1)) }
    ensures* { ∃ₛ (λ (after : Option Log × Option Writer). sem 𝓛 (fsep (log_at log after.0) (writer_at writer after.1)) ∗ ⌜ TakesBy held after number.old number.new result ⌝) }
{
    logs::confluo_take_writer(
        alloc,
        unsafe { &mut *log.cast() },
        unsafe { &mut *writer.cast() },
        number,
    )
}

/// Takes a reader of the log, and puts it at the second handle.
#[unsafe(no_mangle)]
pub unsafe extern "C" fn confluo_take_reader(
    alloc: Global,
    log: *mut RawHandle,
    reader: *mut RawHandle,
) -> u32
    ghost held: { Option Log × Option Reader }
    requires* { sem 𝓛 (fsep (log_at log held.0) (reader_at reader held.1)) }
    ensures* { ∃ₛ (λ (after : Option Log × Option Reader). sem 𝓛 (fsep (log_at log after.0) (reader_at reader after.1)) ∗ ⌜ ForksBy held after result ⌝) }
{
    logs::confluo_take_reader(
        alloc,
        unsafe { &mut *log.cast() },
        unsafe { &mut *reader.cast() },
    )
}

/// Appends the row of a captured frame by a writer, and says its offset.
#[unsafe(no_mangle)]
pub unsafe extern "C" fn confluo_append(
    alloc: Global,
    writer: *mut RawHandle,
    capture: &Capture,
    bytes: &[u8],
    offset: &mut u32,
) -> u32
    ghost held: { Option Writer }
    requires* { sem 𝓛 (writer_at writer held) }
    ensures* { ∃ₛ (λ (after : Option Writer). sem 𝓛 (writer_at writer after) ∗ ⌜ FrameBy capture.now bytes.now offset.old offset.new held after result ⌝) }
{
    writers::confluo_append(
        alloc,
        unsafe { &mut *writer.cast() },
        capture,
        bytes,
        offset,
    )
}

/// Appends the row of these numbers by a writer, one for each attribute of the schema, and says its offset.
#[unsafe(no_mangle)]
pub unsafe extern "C" fn confluo_append_values(
    alloc: Global,
    writer: *mut RawHandle,
    number: u32,
    values: &[u64],
    offset: &mut u32,
) -> u32
    ghost held: { Option Writer }
    requires* { sem 𝓛 (writer_at writer held) }
    ensures* { ∃ₛ (λ (after : Option Writer). sem 𝓛 (writer_at writer after) ∗ ⌜ Tells (λ m n. IsCoded append_code (AppendsValues number values.now m n)) held after offset.old offset.new result ⌝) }
{
    writers::confluo_append_values(
        alloc,
        unsafe { &mut *writer.cast() },
        number,
        values,
        offset,
    )
}

/// Appends a row of such values by a writer, one for each attribute of the schema, and says its offset.
#[unsafe(no_mangle)]
pub unsafe extern "C" fn confluo_append_row(
    alloc: Global,
    writer: *mut RawHandle,
    number: u32,
    values: &[ShownValue],
    offset: &mut u32,
) -> u32
    ghost held: { Option Writer }
    requires* { sem 𝓛 (writer_at writer held) }
    ensures* { ∃ₛ (λ (after : Option Writer). sem 𝓛 (writer_at writer after) ∗ ⌜ Tells (λ m n. IsCoded append_code (AppendsPlain number values.now m n)) held after offset.old offset.new result ⌝) }
{
    writers::confluo_append_row(
        alloc,
        unsafe { &mut *writer.cast() },
        number,
        values,
        offset,
    )
}

/// Appends the rows of the frames by a writer, in order, until one is refused. Says how many, and their offsets.
#[unsafe(no_mangle)]
pub unsafe extern "C" fn confluo_append_many(
    alloc: Global,
    writer: *mut RawHandle,
    frames: &[Framed],
    bytes: &[u8],
    offsets: &mut [u32],
    done: &mut usize,
) -> u32
    ghost held: { Option Writer }
    requires* { sem 𝓛 (writer_at writer held) }
    ensures* { ∃ₛ (λ (after : Option Writer). sem 𝓛 (writer_at writer after) ∗ ⌜ BatchTold bytes.now frames.now offsets.old offsets.new done.new held after result ⌝) }
{
    writers::confluo_append_many(
        alloc,
        unsafe { &mut *writer.cast() },
        frames,
        bytes,
        offsets,
        done,
    )
}

/// Says what the writer's log and the writer have room for.
#[unsafe(no_mangle)]
pub unsafe extern "C" fn confluo_room_of(
    alloc: Global,
    writer: *mut RawHandle,
    room: &mut Room,
) -> u32
    ghost held: { Option Writer }
    requires* { sem 𝓛 (writer_at writer held) }
    ensures* { ∃ₛ (λ (after : Option Writer). sem 𝓛 (writer_at writer after) ∗ ⌜ Tells IsRoom held after room.old room.new result ⌝) }
{
    writers::confluo_room_of(alloc, unsafe { &mut *writer.cast() }, room)
}

/// Frees the writer, whose place in the log can be taken again. The handle leads to nothing then.
#[unsafe(no_mangle)]
pub unsafe extern "C" fn confluo_free_writer(alloc: Global, writer: *mut RawHandle)
    ghost held: { Option Writer }
    requires* { sem 𝓛 (writer_at writer held) }
    ensures* { sem 𝓛 (writer_at writer None) }
{
    writers::confluo_free_writer(alloc, unsafe { &mut *writer.cast() });
}

/// Asks the question of that number in the setup by a reader, and says the head of the answer, whose words the reader keeps.
#[unsafe(no_mangle)]
pub unsafe extern "C" fn confluo_ask(
    alloc: Global,
    reader: *mut RawHandle,
    question: u32,
    head: &mut Head,
) -> u32
    ghost held: { Option Reader }
    requires* { sem 𝓛 (reader_at reader held) }
    ensures* { ∃ₛ (λ (after : Option Reader). sem 𝓛 (reader_at reader after) ∗ ⌜ Tells (λ m n. IsCoded ask_code (AsksAt question m n)) held after head.old head.new result ⌝) }
{
    readers::confluo_ask(alloc, unsafe { &mut *reader.cast() }, question, head)
}

/// Asks the question that the line says, behind the text of the setup, by a reader, and says the head of the answer, whose words the reader
/// keeps.
#[unsafe(no_mangle)]
pub unsafe extern "C" fn confluo_ask_text(
    alloc: Global,
    reader: *mut RawHandle,
    line: &[u8],
    head: &mut Head,
    fault: &mut Fault,
) -> u32
    ghost held: { Option Reader }
    requires* { sem 𝓛 (reader_at reader held) }
    ensures* { ∃ₛ (λ (after : Option Reader). sem 𝓛 (reader_at reader after) ∗ ⌜ AsksBy line.now head.old head.new fault.old fault.new held after result ⌝) }
{
    readers::confluo_ask_text(alloc, unsafe { &mut *reader.cast() }, line, head, fault)
}

/// Asks the question of that number in the setup of what the reader has seen, and says what its answer is.
#[unsafe(no_mangle)]
pub unsafe extern "C" fn confluo_ask_seen(
    alloc: Global,
    reader: *mut RawHandle,
    question: u32,
    head: &mut Head,
) -> u32
    ghost held: { Option Reader }
    requires* { sem 𝓛 (reader_at reader held) }
    ensures* { ∃ₛ (λ (after : Option Reader). sem 𝓛 (reader_at reader after) ∗ ⌜ Tells (λ m n. IsCoded ask_code (AsksSeen question m n)) held after head.old head.new result ⌝) }
{
    readers::confluo_ask_seen(alloc, unsafe { &mut *reader.cast() }, question, head)
}

/// Tells the groups of the lane of that number in what the reader has seen.
#[unsafe(no_mangle)]
pub unsafe extern "C" fn confluo_groups(
    alloc: Global,
    reader: *mut RawHandle,
    lane: u32,
    head: &mut Head,
) -> u32
    ghost held: { Option Reader }
    requires* { sem 𝓛 (reader_at reader held) }
    ensures* { ∃ₛ (λ (after : Option Reader). sem 𝓛 (reader_at reader after) ∗ ⌜ Tells (λ m n. IsCoded lane_code (TellsGroups lane m n)) held after head.old head.new result ⌝) }
{
    readers::confluo_groups(alloc, unsafe { &mut *reader.cast() }, lane, head)
}

/// Shows the row at an offset that the reader has seen: its number, its values as far as there is room, and how many they are.
#[unsafe(no_mangle)]
pub unsafe extern "C" fn confluo_row(
    alloc: Global,
    reader: *mut RawHandle,
    offset: u32,
    number: &mut u32,
    values: &mut [ShownValue],
    count: &mut usize,
) -> u32
    ghost held: { Option Reader }
    requires* { sem 𝓛 (reader_at reader held) }
    ensures* { ∃ₛ (λ (after : Option Reader). sem 𝓛 (reader_at reader after) ∗ ⌜ RowBy offset values.old values.new number.old number.new count.old count.new held after result ⌝) }
{
    readers::confluo_row(
        alloc,
        unsafe { &mut *reader.cast() },
        offset,
        number,
        values,
        count,
    )
}

/// Says how many records are covered.
#[unsafe(no_mangle)]
pub unsafe extern "C" fn confluo_tail(alloc: Global, reader: *mut RawHandle, tail: &mut u32) -> u32
    ghost held: { Option Reader }
    requires* { sem 𝓛 (reader_at reader held) }
    ensures* { ∃ₛ (λ (after : Option Reader). sem 𝓛 (reader_at reader after) ∗ ⌜ Tells IsTail held after tail.old tail.new result ⌝) }
{
    readers::confluo_tail(alloc, unsafe { &mut *reader.cast() }, tail)
}

/// Copies words of the reader's last answer, from that place on, as far as there is room, and says how many.
#[unsafe(no_mangle)]
pub unsafe extern "C" fn confluo_words(
    alloc: Global,
    reader: *mut RawHandle,
    from: usize,
    out: &mut [u64],
) -> usize
    ghost held: { Option Reader }
    requires* { sem 𝓛 (reader_at reader held) }
    ensures* { ∃ₛ (λ (after : Option Reader). sem 𝓛 (reader_at reader after) ∗ ⌜ (after ≡ held) × WordsBy from out.old out.new held result ⌝) }
{
    readers::confluo_words(alloc, unsafe { &mut *reader.cast() }, from, out)
}

/// Copies the text of the report of what the reader has seen as far as there is room, and says how long it is.
#[unsafe(no_mangle)]
pub unsafe extern "C" fn confluo_report(
    alloc: Global,
    reader: *mut RawHandle,
    text: &mut [u8],
    count: &mut usize,
) -> u32
    ghost held: { Option Reader }
    requires* { sem 𝓛 (reader_at reader held) }
    ensures* { ∃ₛ (λ (after : Option Reader). sem 𝓛 (reader_at reader after) ∗ ⌜ Tells (ReportsTo text.old text.new) held after count.old count.new result × (held ≡ None → text.new ≡ text.old) ⌝) }
{
    readers::confluo_report(alloc, unsafe { &mut *reader.cast() }, text, count)
}

/// Frees the reader. The handle leads to nothing then.
#[unsafe(no_mangle)]
pub unsafe extern "C" fn confluo_free_reader(alloc: Global, reader: *mut RawHandle)
    ghost held: { Option Reader }
    requires* { sem 𝓛 (reader_at reader held) }
    ensures* { sem 𝓛 (reader_at reader None) }
{
    readers::confluo_free_reader(alloc, unsafe { &mut *reader.cast() });
}

/// Copies the name of what the setup has of that sort at that number, as far as there is room, and says how long it is.
#[unsafe(no_mangle)]
pub unsafe extern "C" fn confluo_name(
    alloc: Global,
    log: *mut RawHandle,
    sort: u32,
    number: u32,
    name: &mut [u8],
    count: &mut usize,
) -> u32
    ghost held: { Option Log }
    requires* { sem 𝓛 (log_at log held) }
    ensures* { ∃ₛ (λ (after : Option Log). sem 𝓛 (log_at log after) ∗ ⌜ NamesBy sort number name.old name.new count.old count.new held after result ⌝) }
{
    logs::confluo_name(
        alloc,
        unsafe { &mut *log.cast() },
        sort,
        number,
        name,
        count,
    )
}

/// Says what the setup says of what it has of that sort at that number.
#[unsafe(no_mangle)]
pub unsafe extern "C" fn confluo_tell(
    alloc: Global,
    log: *mut RawHandle,
    sort: u32,
    number: u32,
    about: &mut About,
) -> u32
    ghost held: { Option Log }
    requires* { sem 𝓛 (log_at log held) }
    ensures* { ∃ₛ (λ (after : Option Log). sem 𝓛 (log_at log after) ∗ ⌜ Tells (IsAbout sort number) held after about.old about.new result ⌝) }
{
    logs::confluo_tell(alloc, unsafe { &mut *log.cast() }, sort, number, about)
}

/// Says the number of the question of that name.
#[unsafe(no_mangle)]
pub unsafe extern "C" fn confluo_question(
    alloc: Global,
    log: *mut RawHandle,
    name: &[u8],
    number: &mut u32,
) -> u32
    ghost held: { Option Log }
    requires* { sem 𝓛 (log_at log held) }
    ensures* { ∃ₛ (λ (after : Option Log). sem 𝓛 (log_at log after) ∗ ⌜ Tells (IsQuestion name.now) held after number.old number.new result ⌝) }
{
    logs::confluo_question(alloc, unsafe { &mut *log.cast() }, name, number)
}

/// Says how wide a bucket is, in nanoseconds.
#[unsafe(no_mangle)]
pub unsafe extern "C" fn confluo_width(alloc: Global, log: *mut RawHandle, width: &mut u64) -> u32
    ghost held: { Option Log }
    requires* { sem 𝓛 (log_at log held) }
    ensures* { ∃ₛ (λ (after : Option Log). sem 𝓛 (log_at log after) ∗ ⌜ Tells IsWidth held after width.old width.new result ⌝) }
{
    logs::confluo_width(alloc, unsafe { &mut *log.cast() }, width)
}

/// Closes the log, if none of its writers is taken, and puts a reader that has seen all of it at the second handle. The first leads to
/// nothing then.
#[unsafe(no_mangle)]
pub unsafe extern "C" fn confluo_close(
    alloc: Global,
    log: *mut RawHandle,
    reader: *mut RawHandle,
) -> u32
    ghost held: { Option Log × Option Reader }
    requires* { sem 𝓛 (fsep (log_at log held.0) (reader_at reader held.1)) }
    ensures* { ∃ₛ (λ (after : Option Log × Option Reader). sem 𝓛 (fsep (log_at log after.0) (reader_at reader after.1)) ∗ ⌜ ClosesBy held after result ⌝) }
{
    logs::confluo_close(
        alloc,
        unsafe { &mut *log.cast() },
        unsafe { &mut *reader.cast() },
    )
}

/// Frees the log, unless writers or readers of it are left: the last of them frees it. The handle leads to nothing then.
#[unsafe(no_mangle)]
pub unsafe extern "C" fn confluo_free_log(alloc: Global, log: *mut RawHandle)
    ghost held: { Option Log }
    requires* { sem 𝓛 (log_at log held) }
    ensures* { sem 𝓛 (log_at log None) }
{
    logs::confluo_free_log(alloc, unsafe { &mut *log.cast() });
}

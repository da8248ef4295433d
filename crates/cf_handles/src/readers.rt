// What C calls with a handle of a reader, and how lists of groups are merged. Each call answers the number of its code, and puts what it
// found at an out-value.
ghost use Rattle.std.specs.Prelude.{◌≡◌, ℕ, IfErr, MatchOption, None, Option, Result, Vec};
ghost use Rattle.std.specs.Global.{Global as GlobalValue};
ghost use Rattle.cf_handles.specs.declared.code.Code.{Code as CodeValue};
ghost use Rattle.cf_store.specs.declared.refusals.LineRefusal.{LineRefusal as LineRefusalValue};
ghost use Rattle.cf_store.specs.declared.shown.Head.{Head as HeadValue};
ghost use Rattle.cf_store.specs.declared.refusals.MergeRefusal.{MergeRefusal as MergeRefusalValue};
ghost use Rattle.cf_store.specs.declared.shown.Shown.{Shown as ShownRow};
ghost use Rattle.cf_store.specs.Merges.{Merges};
ghost use Rattle.cf_store.specs.Asks.{AsksAt, AsksSeen, ShowsRowAt, TellsGroups};
ghost use Rattle.cf_handles.specs.Codes.{ask_code, code_number, lane_code, line_code, row_code};
ghost use Rattle.cf_handles.specs.Copied.{Copies};
ghost use Rattle.cf_handles.specs.Calls.{ByHandle, IsCoded, IsTail, LineBy, MergesTo, Tells, coded, count_or, line_fault, line_fault_after, line_head, line_number, number_of, number_or, told_or};
ghost use Rattle.cf_handles.specs.Ends.{ReportsTo};

use crate::code::Code;
use crate::copies::{copy_part, put_all, show_text};
use crate::handle::ReaderHandle;
use cf_store::{AskRefusal, Fault, Head, LineRefusal, ShownValue, merge};
use std::alloc::Global;

// Shows the head of an answer, and answers the number of the code.
pub(crate) fn show_head(made: Result<Head, AskRefusal>, head: &mut Head) -> u32
    ensures number { result ≡ number_of (coded ask_code made) }
    ensures head { head.new ≡ told_or (coded ask_code made) head.old }
{
    match made {
        Ok(found) => {
            *head = found;
            0
        }
        Err(refusal) => Code::of_ask(refusal).number(),
    }
}

/// Asks the question of that number in the setup by a reader, and says the head of the answer, whose words the reader keeps.
pub fn confluo_ask(alloc: Global, reader: &mut ReaderHandle, question: u32, head: &mut Head) -> u32
    ensures { Tells (λ m n. IsCoded ask_code (AsksAt question m n)) reader.old.seat.held reader.new.seat.held head.old head.new result }
{
    let Some(reader) = reader.get_mut() else {
        return Code::Nothing.number();
    };
    show_head(reader.ask(alloc, question), head)
}

/// Asks the question of that number in the setup of what the reader has seen, and says what its answer is.
pub fn confluo_ask_seen(
    alloc: Global,
    reader: &mut ReaderHandle,
    question: u32,
    head: &mut Head,
) -> u32
    ensures { Tells (λ m n. IsCoded ask_code (AsksSeen question m n)) reader.old.seat.held reader.new.seat.held head.old head.new result }
{
    let Some(reader) = reader.get_mut() else {
        return Code::Nothing.number();
    };
    show_head(reader.ask_seen(alloc, question), head)
}

// Shows the fault of a refused line, and answers the number of the code.
fn show_line_fault(refusal: LineRefusal, fault: &mut Fault) -> u32
    ensures number { result ≡ code_number (line_code refusal) }
    ensures fault { fault.new ≡ line_fault_after refusal fault.old }
{
    if let LineRefusal::Setup(line, code) = refusal {
        let code = u32::from(code);
        *fault = Fault { line, code };
    }
    Code::of_line(refusal).number()
}

/// Asks the question that the line says, behind the text of the setup, by a reader, and says the head of the answer, whose words the reader
/// keeps.
pub fn confluo_ask_text(
    alloc: Global,
    reader: &mut ReaderHandle,
    line: &[u8],
    head: &mut Head,
    fault: &mut Fault,
) -> u32
    ensures { (r : Option (Result HeadValue LineRefusalValue)) × LineBy line.now reader.old.seat.held reader.new.seat.held r × (head.new ≡ line_head r head.old)
        × (fault.new ≡ line_fault r fault.old) × (result ≡ line_number r) }
{
    let Some(reader) = reader.get_mut() else {
        return Code::Nothing.number();
    };
    match reader.ask_line(alloc, line) {
        Ok(found) => {
            *head = found;
            0
        }
        Err(refusal) => show_line_fault(refusal, fault),
    }
}

/// Tells the groups of the lane of that number in what the reader has seen.
pub fn confluo_groups(alloc: Global, reader: &mut ReaderHandle, lane: u32, head: &mut Head) -> u32
    ensures { Tells (λ m n. IsCoded lane_code (TellsGroups lane m n)) reader.old.seat.held reader.new.seat.held head.old head.new result }
{
    let Some(reader) = reader.get_mut() else {
        return Code::Nothing.number();
    };
    match reader.groups(alloc, lane) {
        Ok(found) => {
            *head = found;
            0
        }
        Err(refusal) => Code::of_lane(refusal).number(),
    }
}

/// Shows the row at an offset that the reader has seen: its number, its values as far as there is room, and how many they are.
pub fn confluo_row(
    alloc: Global,
    reader: &mut ReaderHandle,
    offset: u32,
    number: &mut u32,
    values: &mut [ShownValue],
    count: &mut usize,
) -> u32
    ensures { (r : Result ShownRow CodeValue) × ByHandle (λ m n. IsCoded row_code (ShowsRowAt offset m n values.old values.new)) reader.old.seat.held reader.new.seat.held r
        × IfErr r (λ _. values.new ≡ values.old) × (result ≡ number_of r) × (number.new ≡ number_or r number.old) × (count.new ≡ count_or r count.old) }
{
    let Some(reader) = reader.get_mut() else {
        return Code::Nothing.number();
    };
    match reader.show_row(alloc, offset, values) {
        Ok(shown) => {
            *number = shown.number;
            *count = shown.count;
            0
        }
        Err(refusal) => Code::of_row(refusal).number(),
    }
}

/// Says how many records are covered.
pub fn confluo_tail(_alloc: Global, reader: &mut ReaderHandle, tail: &mut u32) -> u32
    ensures { Tells IsTail reader.old.seat.held reader.new.seat.held tail.old tail.new result }
{
    let Some(reader) = reader.get_mut() else {
        return Code::Nothing.number();
    };
    *tail = reader.tail();
    0
}

/// Copies words of the reader's last answer, from that place on, as far as there is room, and says how many.
pub fn confluo_words(
    _alloc: Global,
    reader: &mut ReaderHandle,
    from: usize,
    out: &mut [u64],
) -> usize
    ensures same { reader.new.seat.held ≡ reader.old.seat.held }
    ensures copied { MatchOption reader.old.seat.held ((result ≡ 0) × (out.new ≡ out.old)) (λ held. Copies held.words.items from out.old out.new result) }
{
    let Some(reader) = reader.get_mut() else {
        return 0;
    };
    copy_part(reader.words(), from, out)
}

/// Copies the text of the report of what the reader has seen as far as there is room, and says how long it is.
pub fn confluo_report(
    alloc: Global,
    reader: &mut ReaderHandle,
    text: &mut [u8],
    count: &mut usize,
) -> u32
    ensures told { Tells (ReportsTo text.old text.new) reader.old.seat.held reader.new.seat.held count.old count.new result }
    ensures nothing { reader.old.seat.held ≡ None → text.new ≡ text.old }
{
    let Some(reader) = reader.get_mut() else {
        return Code::Nothing.number();
    };
    show_text(reader.report(alloc), text, count)
}

/// Frees the reader. The handle leads to nothing then.
pub fn confluo_free_reader(alloc: Global, reader: &mut ReaderHandle)
    ensures { reader.new.seat.held ≡ None }
{
    drop(reader.take(alloc));
}

/// Merges two lists of groups, as `confluo_groups` tells them, and says how many words the merged list has.
pub fn confluo_merge(
    alloc: Global,
    one: &[u64],
    other: &[u64],
    out: &mut [u64],
    count: &mut usize,
) -> u32
    ensures { (r : Result (Vec ℕ GlobalValue) MergeRefusalValue) × (code : CodeValue) × Merges one.now other.now r × MergesTo r out.old out.new count.old count.new code × (result ≡ code_number code) }
{
    match merge(alloc, one, other) {
        Ok(words) => put_all(&words, out, count).number(),
        Err(refusal) => Code::of_merge(refusal).number(),
    }
}

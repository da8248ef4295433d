// What C calls with a handle of a log. Each call answers the number of its code, and puts what it found at an out-value.
ghost use Rattle.std.specs.Prelude.{◌≡◌, ℕ, None, Result};
ghost use Rattle.std.specs.Arc.{arc_value};
ghost use Rattle.cf_handles.specs.declared.code.Code.{Code as CodeValue};
ghost use Rattle.cf_store.specs.declared.refusals.OpenRefusal.{OpenRefusal as OpenRefusalValue};
ghost use Rattle.cf_store.specs.Opens.{Measures};
ghost use Rattle.cf_handles.specs.Codes.{code_number, open_code};
ghost use Rattle.cf_handles.specs.Calls.{ByHandle, ForksTo, OpensAt, TakesTo, Tells, TellsFault, coded, fault_after, number_of, told_or};
ghost use Rattle.cf_handles.specs.Ends.{ClosesTo};
ghost use Rattle.cf_handles.specs.Named.{CopiesName, IsAbout, IsQuestion, IsWidth, NamesTo};

use crate::abouts::{About, about_in};
use crate::code::Code;
use crate::copies::copy_part;
use crate::handle::{LogHandle, ReaderHandle, WriterHandle};
use crate::setup_names::{name_in, question_in};
use cf_store::{Fault, Log, OpenRefusal, Sizes, measure};
use std::alloc::Global;

// Shows a refused setup's fault, and answers the number of the code.
fn show_fault(refusal: OpenRefusal, fault: &mut Fault) -> u32
    ensures number { result ≡ code_number (open_code refusal) }
    ensures fault { fault.new ≡ fault_after refusal fault.old }
{
    if let OpenRefusal::Setup(line, code) = refusal {
        let code = u32::from(code);
        *fault = Fault { line, code };
    }
    Code::of_open(refusal).number()
}

// Opens a log of the setup that the bytes are the text of, and puts it at the handle.
fn open_at(
    alloc: Global,
    log: &mut LogHandle,
    setup: &[u8],
    sizes: Sizes,
) -> Result<(), OpenRefusal>
    ensures { OpensAt setup.now sizes log.old.seat.held log.new.seat.held result }
{
    let opened = Log::open(alloc, setup, sizes)?;
    let Ok(made) = Box::new(alloc, opened) else {
        return Err(OpenRefusal::Memory);
    };
    log.put(made);
    Ok(())
}

/// Opens a log of the setup whose text the bytes are, and puts it at the handle. What the handle led to is freed. Refused, it leads to
/// what it led to.
pub fn confluo_open(
    alloc: Global,
    log: &mut LogHandle,
    setup: &[u8],
    sizes: &Sizes,
    fault: &mut Fault,
) -> u32
    ensures { (r : Result (Unit {0}) OpenRefusalValue) × OpensAt setup.now sizes.now log.old.seat.held log.new.seat.held r × TellsFault r fault.old fault.new result }
{
    match open_at(alloc, log, setup, *sizes) {
        Ok(()) => 0,
        Err(refusal) => show_fault(refusal, fault),
    }
}

/// Takes a writer of the log that is not taken, or was freed, puts it at the second handle, and says its number.
pub fn confluo_take_writer(
    alloc: Global,
    log: &mut LogHandle,
    writer: &mut WriterHandle,
    number: &mut u32,
) -> u32
    ensures { Tells (TakesTo writer.old.seat.held writer.new.seat.held) log.old.seat.held log.new.seat.held number.old number.new result }
{
    let Some(log) = log.get_mut() else {
        return Code::Nothing.number();
    };
    match log.next_writer(alloc) {
        Ok(taken) => {
            let found = u32::from(taken.number());
            *number = found;
            writer.put(taken);
            0
        }
        Err(refusal) => Code::of_take(refusal).number(),
    }
}

/// Takes a reader of the log, and puts it at the second handle.
pub fn confluo_take_reader(alloc: Global, log: &mut LogHandle, reader: &mut ReaderHandle) -> u32
    ensures { (r : Result (Unit {0}) CodeValue) × ByHandle (ForksTo reader.old.seat.held reader.new.seat.held) log.old.seat.held log.new.seat.held r × (result ≡ number_of r) }
{
    let Some(log) = log.get_mut() else {
        return Code::Nothing.number();
    };
    match log.next_reader(alloc) {
        Ok(taken) => {
            reader.put(taken);
            0
        }
        Err(_) => Code::Memory.number(),
    }
}

/// Closes the log, if none of its writers is taken, and puts a reader that has seen all of it at the second handle. The first leads to
/// nothing then.
pub fn confluo_close(alloc: Global, log: &mut LogHandle, reader: &mut ReaderHandle) -> u32
    ensures { (r : Result (Unit {0}) CodeValue) × ClosesTo reader.old.seat.held reader.new.seat.held log.old.seat.held log.new.seat.held r × (result ≡ number_of r) }
{
    let Some(held) = log.take(alloc) else {
        return Code::Nothing.number();
    };
    match Log::close(held, alloc) {
        Ok(last) => {
            reader.put(last);
            0
        }
        Err((back, refusal)) => {
            log.put(back);
            Code::of_close(refusal).number()
        }
    }
}

// Copies the name as far as there is room, and answers how long it is.
fn copy_name(log: &Log, sort: u32, number: u32, out: &mut [u8]) -> Option<usize>
    ensures { CopiesName (arc_value log.now.of).setup sort number out.old out.new result }
{
    let bytes = name_in(log.setup(), sort, number)?.as_str().as_bytes();
    copy_part(bytes, 0, out);
    Some(bytes.len())
}

/// Copies the name of what the setup has of that sort at that number, as far as there is room, and says how long it is.
pub fn confluo_name(
    _alloc: Global,
    log: &mut LogHandle,
    sort: u32,
    number: u32,
    name: &mut [u8],
    count: &mut usize,
) -> u32
    ensures named { Tells (NamesTo sort number name.old name.new) log.old.seat.held log.new.seat.held count.old count.new result }
    ensures nothing { log.old.seat.held ≡ None → name.new ≡ name.old }
{
    let Some(log) = log.get_mut() else {
        return Code::Nothing.number();
    };
    let found = copy_name(log, sort, number, name);
    match found {
        Some(long) => {
            *count = long;
            0
        }
        None => Code::NoName.number(),
    }
}

/// Says what the setup says of what it has of that sort at that number.
pub fn confluo_tell(
    _alloc: Global,
    log: &mut LogHandle,
    sort: u32,
    number: u32,
    about: &mut About,
) -> u32
    ensures { Tells (IsAbout sort number) log.old.seat.held log.new.seat.held about.old about.new result }
{
    let Some(log) = log.get_mut() else {
        return Code::Nothing.number();
    };
    let found = about_in(log.setup(), sort, number);
    match found {
        Some(said) => {
            *about = said;
            0
        }
        None => Code::NoName.number(),
    }
}

/// Says the number of the question of that name.
pub fn confluo_question(_alloc: Global, log: &mut LogHandle, name: &[u8], number: &mut u32) -> u32
    ensures { Tells (IsQuestion name.now) log.old.seat.held log.new.seat.held number.old number.new result }
{
    let Some(log) = log.get_mut() else {
        return Code::Nothing.number();
    };
    let found = question_in(log.setup(), name);
    match found {
        Some(place) => {
            *number = place;
            0
        }
        None => Code::NoQuestion.number(),
    }
}

/// Says how wide a bucket is, in nanoseconds.
pub fn confluo_width(_alloc: Global, log: &mut LogHandle, width: &mut u64) -> u32
    ensures { Tells IsWidth log.old.seat.held log.new.seat.held width.old width.new result }
{
    let Some(log) = log.get_mut() else {
        return Code::Nothing.number();
    };
    *width = log.setup().width();
    0
}

/// Frees the log, unless writers or readers of it are left: the last of them frees it. The handle leads to nothing then.
pub fn confluo_free_log(alloc: Global, log: &mut LogHandle)
    ensures { log.new.seat.held ≡ None }
{
    drop(log.take(alloc));
}

/// Whether the bytes are the text of a setup and a log may have these sizes, and how many bytes the words of such a log take.
pub fn confluo_check(
    alloc: Global,
    setup: &[u8],
    sizes: &Sizes,
    bytes: &mut u64,
    fault: &mut Fault,
) -> u32
    ensures { (r : Result ℕ OpenRefusalValue) × Measures setup.now sizes.now r × TellsFault r fault.old fault.new result × (bytes.new ≡ told_or (coded open_code r) bytes.old) }
{
    match measure(alloc, setup, *sizes) {
        Ok(found) => {
            *bytes = found;
            0
        }
        Err(refusal) => show_fault(refusal, fault),
    }
}

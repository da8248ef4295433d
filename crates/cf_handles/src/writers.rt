// What C calls with a handle of a writer. Each call answers the number of its code, and puts what it found at an out-value.
ghost use Rattle.std.specs.Prelude.{◌≡◌, None};
ghost use Rattle.cf_handles.specs.declared.code.Code.{Code as CodeValue};
ghost use Rattle.cf_store.specs.Appends.{AppendsFrame, AppendsPlain, AppendsValues};
ghost use Rattle.cf_handles.specs.Codes.{append_code, code_number};
ghost use Rattle.cf_handles.specs.Calls.{AppendsBatch, BatchBy, GivesBack, IsCoded, IsRoom, Tells, coded, number_of, told_or};

use crate::code::Code;
use crate::handle::WriterHandle;
use cf_store::{AppendRefusal, Capture, Framed, Room, Sent, ShownValue, Writer};
use std::alloc::Global;

// Shows the offset of a row that was appended, and answers the number of the code.
fn show_offset(made: Result<u32, AppendRefusal>, offset: &mut u32) -> u32
    ensures number { result ≡ number_of (coded append_code made) }
    ensures offset { offset.new ≡ told_or (coded append_code made) offset.old }
{
    match made {
        Ok(found) => {
            *offset = found;
            0
        }
        Err(refusal) => Code::of_append(refusal).number(),
    }
}

/// Appends the row of a captured frame by a writer, and says its offset.
pub fn confluo_append(
    _alloc: Global,
    writer: &mut WriterHandle,
    capture: &Capture,
    bytes: &[u8],
    offset: &mut u32,
) -> u32
    ensures { Tells (λ m n. IsCoded append_code (AppendsFrame capture.now bytes.now m n)) writer.old.seat.held writer.new.seat.held offset.old offset.new result }
{
    let Some(writer) = writer.get_mut() else {
        return Code::Nothing.number();
    };
    show_offset(writer.append_frame(*capture, bytes), offset)
}

/// Appends the row of these numbers by a writer, one for each attribute of the schema, and says its offset.
pub fn confluo_append_values(
    alloc: Global,
    writer: &mut WriterHandle,
    number: u32,
    values: &[u64],
    offset: &mut u32,
) -> u32
    ensures { Tells (λ m n. IsCoded append_code (AppendsValues number values.now m n)) writer.old.seat.held writer.new.seat.held offset.old offset.new result }
{
    let Some(writer) = writer.get_mut() else {
        return Code::Nothing.number();
    };
    show_offset(writer.append_values(alloc, number, values), offset)
}

/// Appends a row of such values by a writer, one for each attribute of the schema, and says its offset.
pub fn confluo_append_row(
    alloc: Global,
    writer: &mut WriterHandle,
    number: u32,
    values: &[ShownValue],
    offset: &mut u32,
) -> u32
    ensures { Tells (λ m n. IsCoded append_code (AppendsPlain number values.now m n)) writer.old.seat.held writer.new.seat.held offset.old offset.new result }
{
    let Some(writer) = writer.get_mut() else {
        return Code::Nothing.number();
    };
    show_offset(writer.append_plain(alloc, number, values), offset)
}

// Appends the rows of the frames in order, until one is refused. Answers how many, and why no more.
fn append_batch(
    writer: &mut Writer,
    frames: &[Framed],
    bytes: &[u8],
    offsets: &mut [u32],
) -> (usize, Code)
    ensures { AppendsBatch bytes.now frames.now offsets.old offsets.new result.0 result.1 writer.old writer.new }
{
    if offsets.len() < frames.len() {
        return (0, Code::Sizes);
    }
    let (done, stop) = writer.append_frames(frames, bytes, offsets);
    (done, Code::of_stop(stop))
}

/// Appends the rows of the frames by a writer, in order, until one is refused. Says how many, and their offsets.
pub fn confluo_append_many(
    _alloc: Global,
    writer: &mut WriterHandle,
    frames: &[Framed],
    bytes: &[u8],
    offsets: &mut [u32],
    done: &mut usize,
) -> u32
    ensures { (code : CodeValue) × BatchBy bytes.now frames.now offsets.old offsets.new done.new code writer.old.seat.held writer.new.seat.held × (result ≡ code_number code) }
{
    let Some(writer) = writer.get_mut() else {
        *done = 0;
        return Code::Nothing.number();
    };
    let (count, code) = append_batch(writer, frames, bytes, offsets);
    *done = count;
    code.number()
}

/// Says what the writer's log and the writer have room for.
pub fn confluo_room_of(_alloc: Global, writer: &mut WriterHandle, room: &mut Room) -> u32
    ensures { Tells IsRoom writer.old.seat.held writer.new.seat.held room.old room.new result }
{
    let Some(writer) = writer.get_mut() else {
        return Code::Nothing.number();
    };
    *room = writer.room();
    0
}

// Gives the writer back, if there is one: its pass goes home to its place in the log. Leaves nothing.
fn give_back(alloc: Global, writer: &mut WriterHandle) -> Option<Sent>
    ensures sent { GivesBack writer.old.seat.held result }
    ensures nothing { writer.new.seat.held ≡ None }
{
    let Some(found) = writer.take(alloc) else {
        return None;
    };
    Some(Box::into_inner(found).give_back())
}

/// Frees the writer, whose place in the log can be taken again. The handle leads to nothing then.
pub fn confluo_free_writer(alloc: Global, writer: &mut WriterHandle)
    ensures { writer.new.seat.held ≡ None }
{
    drop(give_back(alloc, writer));
}

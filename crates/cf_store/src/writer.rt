// Rows are appended by a writer of a log.
ghost use Rattle.std.specs.Prelude.{◌≡◌, ◌<◌, ◌≤◌, ◌^◌, ◌↔◌, true, IfOk, MatchOption, length, map};
ghost use Rattle.std.specs.Arc.{arc_value};
ghost use Rattle.cf_row.specs.declared.row.Value.TheVariants.{Num};
ghost use Rattle.cf_row.specs.Row.{Fits, is_of_kind, values_fit};
ghost use Rattle.cf_setup.specs.declared.source.Source.TheVariants.{Packets, Records};
ghost use Rattle.cf_table.specs.Values.{book_of};
ghost use Rattle.cf_append.specs.Paths.{Remembers};
ghost use Rattle.cf_append.specs.Appends.{HasAppended};
ghost use Rattle.cf_store.specs.Appends.{AppendsFrame, AppendsFramed, AppendsFrames, AppendsPlain, AppendsRow, AppendsValues, IsRoomOf, IsFrame, StandsIn, numbers_row, frame_of, reads_link, row_by, bytes_in as bytes_in_of};

use crate::held::Writer;
use crate::refusals::AppendRefusal;
use crate::shown::{Capture, Framed, Room, ShownValue};
use crate::values::{are_values, row_of_values};
use cf_headers::{FrameInfo, packet_row_of_bytes, packet6_row_of_bytes};
use cf_log::{AppendFault, Leaves, append_near};
use cf_pcap::LinkSet;
use cf_row::{Attr, Kind, Memory, PacketSchema, Row, Value, fits};
use cf_setup::{Setup, Source};
use cf_table::Pass;
use std::alloc::Global;

// A row of numbers.
fn row_of(alloc: Global, number: u32, values: &[u64]) -> Result<Row, Memory>
    ensures { IfOk result (λ row. row ≡ numbers_row number values.now) }
{
    let mut listed = Vec::with_capacity(alloc, values.len())?;
    for value in values {
        listed.push(Value::Num(*value))?;
    }
    Ok(Row::new(number, listed))
}

// Whether the number is a value of that kind.
fn is_of(kind: Kind, number: u64) -> bool
    ensures { result ≡ is_of_kind kind (Num number) }
{
    match kind {
        Kind::U8 => number < 1 << 8,
        Kind::U16 => number < 1 << 16,
        Kind::U32 => number < 1 << 32,
        Kind::U64 => true,
        Kind::Bytes(_) => false,
    }
}

// Whether there is a number for each attribute, of its kind.
fn are_of(attrs: &[Attr], numbers: &[u64]) -> bool
    ensures { result ≡ values_fit attrs.now (map (λ n. Num n) numbers.now) }
{
    if attrs.len() != numbers.len() {
        return false;
    }
    for place in 0..attrs.len() {
        if !is_of(attrs[place].kind, numbers[place]) {
            return false;
        }
    }
    true
}

// The schema of the packets whose rows the log takes, if it is no log of records.
fn packets_of(setup: &Setup) -> Option<PacketSchema>
    ensures { MatchOption result (setup.now.source ≡ Records) (λ schema. setup.now.source ≡ Packets schema) }
{
    match setup.source() {
        Source::Packets(schema) => Some(schema),
        Source::Records => None,
    }
}

// Whether the schema reads frames of that link.
fn is_read(schema: PacketSchema, link: u16) -> bool
    ensures { result ≡ reads_link schema link }
{
    match schema {
        PacketSchema::Packet => LinkSet::Basic.reads(link),
        PacketSchema::Packet6 => LinkSet::All.reads(link),
    }
}

// Whether it is a frame that is not too long, of a link that the schema reads.
fn is_frame(schema: PacketSchema, capture: Capture, bytes: &[u8]) -> bool
    ensures { (result ≡ true) ↔ IsFrame schema capture bytes.now }
{
    bytes.len() <= 0xffff_ffff
        && capture.reserved == 0
        && capture.link <= 0xffff
        && is_read(schema, capture.link as u16)
}

// Whether all bytes of the frame stand in the buffer.
fn stands_in(buffer: &[u8], framed: Framed) -> bool
    ensures { (result ≡ true) ↔ StandsIn buffer.now framed }
{
    match framed.from.checked_add(framed.count) {
        Some(end) => end <= buffer.len() as u64,
        None => false,
    }
}

// The bytes of the frame.
fn bytes_in(buffer: &[u8], framed: Framed) -> &[u8]
    requires { StandsIn buffer.now framed }
    ensures { result.now ≡ bytes_in_of buffer.now framed }
{
    let (_, rest) = buffer.split_at(framed.from as usize);
    rest.split_at(framed.count as usize).0
}

// The row of a frame by the schema, straight from its bytes.
fn row_of_frame(schema: PacketSchema, capture: Capture, bytes: &[u8]) -> Row
    requires { IsFrame schema capture bytes.now }
    ensures { result ≡ row_by schema (frame_of capture bytes.now) }
{
    let info = FrameInfo {
        num: capture.number,
        ts: capture.ns,
        caplen: bytes.len() as u32,
        len: capture.length,
        link: capture.link as u16,
    };
    match schema {
        PacketSchema::Packet => packet_row_of_bytes(info, bytes),
        PacketSchema::Packet6 => packet6_row_of_bytes(info, bytes),
    }
}

impl Writer {
    /// The writer's number.
    pub fn number(&self) -> u8
        ensures { result ≡ (book_of self.now.pass.view).writer }
    {
        self.pass.writer()
    }

    fn append_fitting(&mut self, row: &Row, leaves: &mut Leaves) -> Result<u32, AppendFault>
        requires fits { Fits (arc_value self.old.of).log.shape.schema row.now }
        requires near { Remembers (arc_value self.old.of).log.shape self.old.pass.view leaves.old }
        ensures of { (self.new.of ≡ self.old.of) × (self.new.way ≡ self.old.way) }
        ensures appended { HasAppended (arc_value self.old.of).log.shape row.now self.old.pass self.new.pass result }
        ensures near { Remembers (arc_value self.old.of).log.shape self.new.pass.view leaves.new }
    {
        append_near(&self.of.log, &mut self.pass, row, leaves)
    }

    fn append_by(&mut self, row: &Row, leaves: &mut Leaves) -> Result<u32, AppendRefusal>
        requires near { Remembers (arc_value self.old.of).log.shape self.old.pass.view leaves.old }
        ensures appended { AppendsRow row.now self.old self.new result }
        ensures near { Remembers (arc_value self.old.of).log.shape self.new.pass.view leaves.new }
    {
        if !fits(self.of.log.shape().schema(), row) {
            return Err(AppendRefusal::Unfit);
        }
        match self.append_fitting(row, leaves) {
            Ok(offset) => Ok(offset),
            Err(AppendFault::Full) => Err(AppendRefusal::Full),
            Err(AppendFault::NodesFull) => Err(AppendRefusal::Nodes),
        }
    }

    /// Appends the row. It needs no memory.
    pub fn append(&mut self, row: &Row) -> Result<u32, AppendRefusal>
        ensures { AppendsRow row.now self.old self.new result }
    {
        self.append_by(row, &mut Leaves::new())
    }

    // Appends the row of a captured frame.
    fn append_frame_by(
        &mut self,
        capture: Capture,
        bytes: &[u8],
        leaves: &mut Leaves,
    ) -> Result<u32, AppendRefusal>
        requires near { Remembers (arc_value self.old.of).log.shape self.old.pass.view leaves.old }
        ensures appended { AppendsFrame capture bytes.now self.old self.new result }
        ensures near { Remembers (arc_value self.old.of).log.shape self.new.pass.view leaves.new }
    {
        let Some(schema) = packets_of(&self.of.setup) else {
            return Err(AppendRefusal::Unfit);
        };
        if !is_frame(schema, capture, bytes) {
            return Err(AppendRefusal::Frame);
        }
        let row = row_of_frame(schema, capture, bytes);
        self.append_by(&row, leaves)
    }

    /// Appends the row of a captured frame. It needs no memory.
    pub fn append_frame(&mut self, capture: Capture, bytes: &[u8]) -> Result<u32, AppendRefusal>
        ensures { AppendsFrame capture bytes.now self.old self.new result }
    {
        self.append_frame_by(capture, bytes, &mut Leaves::new())
    }

    // Appends the row of a frame of a batch.
    fn append_framed(
        &mut self,
        framed: Framed,
        buffer: &[u8],
        leaves: &mut Leaves,
    ) -> Result<u32, AppendRefusal>
        requires near { Remembers (arc_value self.old.of).log.shape self.old.pass.view leaves.old }
        ensures appended { AppendsFramed buffer.now framed self.old self.new result }
        ensures near { Remembers (arc_value self.old.of).log.shape self.new.pass.view leaves.new }
    {
        let Some(_schema) = packets_of(&self.of.setup) else {
            return Err(AppendRefusal::Unfit);
        };
        if !stands_in(buffer, framed) {
            return Err(AppendRefusal::Frame);
        }
        let bytes = bytes_in(buffer, framed);
        self.append_frame_by(framed.capture, bytes, leaves)
    }

    /// Appends the rows of the frames in order, until one is refused, and keeps leaves on the way. Says how many were appended, whose
    /// offsets are the first of `offsets`, and why the next one was not, if there is one. It needs no memory.
    pub fn append_frames(
        &mut self,
        frames: &[Framed],
        buffer: &[u8],
        offsets: &mut [u32],
    ) -> (usize, Option<AppendRefusal>)
        requires { length frames.now ≤ length offsets.old }
        ensures { AppendsFrames buffer.now frames.now self.old self.new offsets.old offsets.new result.0 result.1 }
    {
        let mut leaves = Leaves::new();
        for k in 0..frames.len() {
            match self.append_framed(frames[k], buffer, &mut leaves) {
                Ok(offset) => offsets[k] = offset,
                Err(refusal) => return (k, Some(refusal)),
            }
        }
        (frames.len(), None)
    }

    /// Appends a row of such values.
    pub fn append_plain(
        &mut self,
        alloc: Global,
        number: u32,
        values: &[ShownValue],
    ) -> Result<u32, AppendRefusal>
        ensures { AppendsPlain number values.now self.old self.new result }
    {
        if !are_values(values) {
            return Err(AppendRefusal::Unfit);
        }
        let Ok(row) = row_of_values(alloc, number, values) else {
            return Err(AppendRefusal::Memory);
        };
        self.append(&row)
    }

    /// Appends the row of these numbers.
    pub fn append_values(
        &mut self,
        alloc: Global,
        number: u32,
        values: &[u64],
    ) -> Result<u32, AppendRefusal>
        ensures { AppendsValues number values.now self.old self.new result }
    {
        if !are_of(self.of.log.shape().schema().attrs(), values) {
            return Err(AppendRefusal::Unfit);
        }
        let Ok(row) = row_of(alloc, number, values) else {
            return Err(AppendRefusal::Memory);
        };
        self.append(&row)
    }

    /// What the log has room for, how much of it the writer has seen, and how many nodes the writer has left.
    pub fn room(&self) -> Room
        ensures { IsRoomOf self.now result }
    {
        let shape = self.of.log.shape();
        let nodes_left = match self.pass.free_node() {
            Some(node) => (u32::from(self.pass.writer()) + 1) * shape.nodes() - node,
            None => 0,
        };
        Room {
            capacity: shape.capacity(),
            covered: self.pass.covered(),
            nodes_left,
            reserved: 0,
        }
    }
}

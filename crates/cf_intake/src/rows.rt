// The rows of the bytes of a capture.
ghost use Rattle.std.specs.Prelude.{◌≡◌, All, IfOk, MatchResult};
ghost use Rattle.cf_row.specs.Row.{Fits};
ghost use Rattle.cf_row.specs.Schema6.{attrs_by};
ghost use Rattle.cf_records.specs.Records.{AreFirst};
ghost use Rattle.cf_intake.specs.Faults.{HasLineFault};
ghost use Rattle.cf_intake.specs.Parts.{IsBad, IsSetupRead, source_in, attrs_in};
ghost use Rattle.cf_intake.specs.Reads.{numbered_on};
ghost use Rattle.cf_intake.specs.Rows.{packet_rows, row_by};

use crate::refusal::Halt;
use cf_headers::{FrameInfo, packet_row_of_bytes, packet6_row_of_bytes};
use cf_pcap::Frame;
use cf_records::read_first;
use cf_row::{Memory, PacketSchema, Row, Schema};
use cf_setup::{Setup, Source};
use std::alloc::Global;

/// The format of a capture.
#[derive(Clone, Copy)]
pub enum Format<'a> {
    /// Packets, in pcap or pcapng, by the schema of that name.
    Packets(PacketSchema),
    /// Records of that schema, in CSV.
    Records(&'a Schema),
}

/// How a capture is read.
#[derive(Clone, Copy)]
pub struct Manner<'a> {
    pub format: Format<'a>,
    /// A capture of packets that ends within a record has the records before it.
    pub truncated: bool,
}

/// What is kept of a capture: its first rows.
#[derive(Drop)]
pub struct Captured {
    pub rows: Vec<Row>,
    /// The record within which a truncated capture ends.
    pub cut: Option<u64>,
}

/// The format that a setup asks for.
pub fn format_of<'a>(setup: &'a Setup) -> Format<'a>
    requires { IsSetupRead setup.now }
    ensures { (source_in result ≡ setup.now.source) × (attrs_in result ≡ setup.now.schema) }
{
    match setup.source() {
        Source::Packets(schema) => Format::Packets(schema),
        Source::Records => Format::Records(setup.schema()),
    }
}

// The row of a frame, by that schema.
fn row_of(frame: &Frame, schema: PacketSchema) -> Row
    ensures row { result ≡ row_by schema frame.now }
    ensures fits { Fits (attrs_by schema) result }
{
    let info = FrameInfo::of(frame);
    match schema {
        PacketSchema::Packet => packet_row_of_bytes(info, &frame.bytes),
        PacketSchema::Packet6 => packet6_row_of_bytes(info, &frame.bytes),
    }
}

/// A row for each frame, by that schema.
pub(crate) fn rows_of(
    alloc: Global,
    frames: &[Frame],
    schema: PacketSchema,
) -> Result<Vec<Row>, Memory>
    ensures rows { IfOk result (λ rows. rows.items ≡ packet_rows schema frames.now) }
    ensures fit { IfOk result (λ rows. All (Fits (attrs_by schema)) rows.items) }
{
    let mut rows = Vec::with_capacity(alloc, frames.len())?;
    for frame in frames {
        rows.push(row_of(frame, schema))?;
    }
    Ok(rows)
}

/// A row for each frame, by that schema. They are numbered from this number on, up to 2^32 - 1.
pub(crate) fn numbered_rows(
    alloc: Global,
    frames: Vec<Frame>,
    schema: PacketSchema,
    first: u32,
) -> Result<Vec<Row>, Memory>
    ensures rows { IfOk result (λ rows. rows.items ≡ numbered_on first (packet_rows schema frames.items)) }
    ensures fit { IfOk result (λ rows. All (Fits (attrs_by schema)) rows.items) }
{
    let mut rows = Vec::with_capacity(alloc, frames.len())?;
    let mut num = first;
    for frame in frames {
        let frame = Frame { num, ..frame };
        rows.push(row_of(&frame, schema))?;
        num = num.saturating_add(1);
    }
    Ok(rows)
}

/// The first rows of a file of records, so many at most. Each record is judged.
pub(crate) fn first_records_of(
    alloc: Global,
    schema: &Schema,
    bytes: &[u8],
    most: usize,
) -> Result<Vec<Row>, Halt>
    ensures { MatchResult result (λ rows. AreFirst schema.now bytes.now most rows.items) (IsBad (HasLineFault schema.now bytes.now)) }
{
    Ok(read_first(alloc, schema, bytes, most)?)
}

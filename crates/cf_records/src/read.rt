// The records of a file.
ghost use Rattle.std.specs.Prelude.{◌≡◌, ◌⊎◌, ◌≤◌, ◌<◌, ◌^◌, ◌++◌, ℕ, List, [], ◌∷◌, length, take, All, IfOk, OnOk, MatchResult};
ghost use Rattle.csv.specs.Records.{fields_of};
ghost use Rattle.cf_row.specs.Row.{Fits, RowValue};
ghost use Rattle.cf_records.specs.Records.{AreFirst, IsRecordFile, HasRecordsFault, HasRead, ReadsOn};

use crate::RecordFault;
use crate::row::{is_header, row_of};
use cf_row::{Memory, Row, Schema};
use csv::{ByteRecord, Reader, ReaderBuilder};
use std::alloc::{AllocError, Global};

/// A file of that many bytes or more is refused.
const LIMIT: usize = 1 << 24;

// More records than a file has: each takes a byte of it, the header too.
const MOST: u32 = 1 << 24;

// Reads the next record; false at the end of the text.
fn read_next(reader: &mut Reader<&[u8]>, line: &mut ByteRecord) -> Result<bool, AllocError>
    ensures { IfOk result (λ found. (text : List ℕ) (records : List (List (List ℕ))) → HasRead text records reader.old → ReadsOn text records reader.new (fields_of line.new) found) }
{
    let Ok(found) = reader.read_byte_record(line) else {
        return Err(AllocError);
    };
    Ok(found)
}

// A reader of a text that takes each record as it is: the first is no header to it, and no length is expected.
fn reader_of<'a>(alloc: Global, bytes: &'a [u8]) -> Reader<&'a [u8]>
    ensures { HasRead bytes.entry.now [] result }
{
    ReaderBuilder::new()
        .has_headers(false)
        .flexible(true)
        .from_reader(alloc, bytes)
}

// Keeps a row behind the others, unless these are as many as are wanted.
fn keep_row(rows: &mut Vec<Row>, row: Row, most: usize) -> Result<(), Memory>
    ensures { OnOk result ((all : List RowValue) → rows.old.items ≡ take most all → rows.new.items ≡ take most (all ++ (row ∷ []))) }
{
    if rows.len() < most {
        rows.push(row)?;
    }
    Ok(())
}

// The first rows of a text of less than 2^24 bytes, so many at most. The others are judged as well.
fn read_rows(
    alloc: Global,
    schema: &Schema,
    bytes: &[u8],
    most: usize,
) -> Result<Vec<Row>, RecordFault>
    requires small { length bytes.now < 2 ^ 24 }
    ensures answer { MatchResult result (λ rows. AreFirst schema.now bytes.now most rows.items) (λ fault. (fault ≡ RecordFault.Memory) ⊎ HasRecordsFault schema.now bytes.now fault) }
    ensures all { 2 ^ 24 ≤ most → IfOk result (λ rows. IsRecordFile schema.now bytes.now rows.items × All (Fits schema.now) rows.items) }
{
    let mut reader = reader_of(alloc, bytes);
    let mut line = ByteRecord::new(alloc);
    if !read_next(&mut reader, &mut line)? {
        return Err(RecordFault::NoHeader);
    }
    if !is_header(schema.attrs(), &line) {
        return Err(RecordFault::BadHeader);
    }
    let mut rows = Vec::new(alloc);
    for num in 0..MOST {
        if !read_next(&mut reader, &mut line)? {
            return Ok(rows);
        }
        match row_of(alloc, schema, num, &line) {
            Ok(row) => keep_row(&mut rows, row, most)?,
            Err(fault) => return Err(fault),
        }
    }
    unreachable!()
}

/// The rows of a file of records: CSV as it is read by default, with the schema's names as its first record, and then a
/// record for each row, numbered from 0. Values are those of filter expressions. The first faulty record decides, the
/// number of its fields before their values, and the leftmost faulty one of these.
pub fn read_records(alloc: Global, schema: &Schema, bytes: &[u8]) -> Result<Vec<Row>, RecordFault>
    ensures answer { MatchResult result (λ rows. IsRecordFile schema.now bytes.now rows.items) (λ fault. (fault ≡ RecordFault.Memory) ⊎ HasRecordsFault schema.now bytes.now fault) }
    ensures fit { IfOk result (λ rows. All (Fits schema.now) rows.items) }
{
    read_first(alloc, schema, bytes, LIMIT)
}

/// The same, of which the first rows alone are kept, so many at most. Each record is judged all the same.
pub fn read_first(
    alloc: Global,
    schema: &Schema,
    bytes: &[u8],
    most: usize,
) -> Result<Vec<Row>, RecordFault>
    ensures answer { MatchResult result (λ rows. AreFirst schema.now bytes.now most rows.items) (λ fault. (fault ≡ RecordFault.Memory) ⊎ HasRecordsFault schema.now bytes.now fault) }
    ensures all { 2 ^ 24 ≤ most → IfOk result (λ rows. IsRecordFile schema.now bytes.now rows.items × All (Fits schema.now) rows.items) }
{
    if bytes.len() >= LIMIT {
        return Err(RecordFault::TooManyBytes);
    }
    read_rows(alloc, schema, bytes, most)
}

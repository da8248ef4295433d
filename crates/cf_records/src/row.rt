// The row of a record.
ghost use Rattle.std.specs.Prelude.{◌≡◌, ℕ, List, ◌⊎◌, ◌<◌, ◌↔◌, IsTrue, IfSome, IfNone, IfOk, MatchResult, length, Some, slice_get};
ghost use Rattle.csv.specs.Records.{fields_of};
ghost use Rattle.cf_row.specs.Row.{Fits};
ghost use Rattle.cf_row.specs.Schema.{IsSchema};
ghost use Rattle.cf_row.specs.declared.row.Value.{Value as AnyValue};
ghost use Rattle.cf_filter.specs.Grammar.{ValueText};
ghost use Rattle.cf_records.specs.Records.{names_of, HaveValues, HasRecordFault};

use crate::RecordFault;
use cf_filter::read_value;
use cf_row::{Attr, Kind, Row, Schema, Value};
use csv::ByteRecord;
use std::alloc::Global;

fn field_at(line: &ByteRecord, column: usize) -> &[u8]
    requires { column < length (fields_of line.now) }
    ensures { slice_get (fields_of line.now) column ≡ Some result.now }
{
    match line.get(column) {
        Some(field) => field,
        None => unreachable!(),
    }
}

fn is_field(line: &ByteRecord, column: usize, text: &str) -> bool
    requires { column < length (fields_of line.now) }
    ensures { IsTrue result ↔ (slice_get (fields_of line.now) column ≡ Some text.now) }
{
    field_at(line, column) == text.as_bytes()
}

// Whether the record is the schema's names in order.
pub(crate) fn is_header(attrs: &[Attr], line: &ByteRecord) -> bool
    ensures { IsTrue result ↔ (fields_of line.now ≡ names_of attrs.now) }
{
    if line.len() != attrs.len() {
        return false;
    }
    for column in 0..attrs.len() {
        if !is_field(line, column, attrs[column].name.as_str()) {
            return false;
        }
    }
    true
}

// The value of the record's field in that column.
fn value_at(kind: Kind, line: &ByteRecord, column: usize) -> Option<Value>
    requires { column < length (fields_of line.now) }
    ensures found { IfSome result (λ value. (field : List ℕ) × (slice_get (fields_of line.now) column ≡ Some field) × ValueText kind field value) }
    ensures none { IfNone result ((field : List ℕ) × (slice_get (fields_of line.now) column ≡ Some field) × ((value : AnyValue) → ValueText kind field value → ⊥)) }
{
    read_value(kind, field_at(line, column))
}

// The values of the record of that number, which has a field for each attribute.
fn values_of(
    alloc: Global,
    attrs: &[Attr],
    num: u32,
    line: &ByteRecord,
) -> Result<Vec<Value>, RecordFault>
    requires few { length attrs.now < 256 }
    requires counted { length (fields_of line.now) ≡ length attrs.now }
    ensures { MatchResult result (λ values. HaveValues attrs.now (fields_of line.now) values.items)
        (λ fault. (fault ≡ RecordFault.Memory) ⊎ HasRecordFault attrs.now (fields_of line.now) num fault) }
{
    let mut values = Vec::with_capacity(alloc, attrs.len())?;
    for column in 0..attrs.len() {
        match value_at(attrs[column].kind, line, column) {
            Some(value) => values.push(value)?,
            None => return Err(RecordFault::BadValue(num, column as u8)),
        }
    }
    Ok(values)
}

// The row of the record of that number.
pub(crate) fn row_of(
    alloc: Global,
    schema: &Schema,
    num: u32,
    line: &ByteRecord,
) -> Result<Row, RecordFault>
    ensures row { MatchResult result (λ row. (row.num ≡ num) × HaveValues schema.now (fields_of line.now) row.values)
        (λ fault. (fault ≡ RecordFault.Memory) ⊎ HasRecordFault schema.now (fields_of line.now) num fault) }
    ensures fits { IfOk result (Fits schema.now) }
{
    let attrs = schema.attrs();
    if line.len() != attrs.len() {
        return Err(RecordFault::BadCount(num));
    }
    let values = values_of(alloc, attrs, num, line)?;
    Ok(Row::new(num, values))
}

// Values as C lays them out, and rows of them.
ghost use Rattle.std.specs.Prelude.{◌≡◌, true, IfOk};
ghost use Rattle.std.specs.List.{list_all};
ghost use Rattle.cf_row.specs.Row.{Fits};
ghost use Rattle.cf_store.specs.Values.{ShowsRow, plain_row, is_value as is_value_of, plain_of as plain_of_value, value_of as value_of_plain};

use crate::shown::ShownValue;
use cf_row::{Memory, Row, Schema, Value};
use std::alloc::Global;

// Whether it states a value.
fn is_value(value: &ShownValue) -> bool
    ensures { result ≡ is_value_of value.now }
{
    value.kind == 0 || value.kind == 1 && value.length <= 16
}

// Whether each of them states a value.
pub(crate) fn are_values(values: &[ShownValue]) -> bool
    ensures { result ≡ list_all is_value_of values.now }
{
    values.iter().all(|value| is_value(value))
}

// The value that it states.
fn value_of(value: &ShownValue) -> Value
    requires { is_value_of value.now ≡ true }
    ensures { result ≡ value_of_plain value.now }
{
    if value.kind == 0 {
        return Value::Num(value.number);
    }
    Value::Raw {
        len: value.length as u8,
        bytes: value.bytes,
    }
}

// A row of such values, each of which states one.
pub(crate) fn row_of_values(
    alloc: Global,
    number: u32,
    values: &[ShownValue],
) -> Result<Row, Memory>
    requires { list_all is_value_of values.now ≡ true }
    ensures { IfOk result (λ row. row ≡ plain_row number values.now) }
{
    let mut listed = Vec::with_capacity(alloc, values.len())?;
    for value in values {
        listed.push(value_of(value))?;
    }
    Ok(Row::new(number, listed))
}

// The value, laid out so.
fn plain_of(value: Value) -> ShownValue
    ensures { result ≡ plain_of_value value }
{
    match value {
        Value::Num(number) => ShownValue {
            number,
            kind: 0,
            length: 0,
            bytes: [0; 16],
        },
        Value::Raw { len, bytes } => ShownValue {
            number: 0,
            kind: 1,
            length: u32::from(len),
            bytes,
        },
    }
}

// Shows the values of the row, as far as there is room. Answers how many it has.
pub(crate) fn show_row(schema: &Schema, row: &Row, out: &mut [ShownValue]) -> usize
    requires { Fits schema.now row.now }
    ensures { ShowsRow row.now out.old out.new result }
{
    let count = schema.attrs().len();
    for k in 0..count.min(out.len()) {
        out[k] = plain_of(row.get(schema, k as u8));
    }
    count
}

// The numbers that words are, and the kinds of attributes that statements ask for.
ghost use Rattle.std.specs.Prelude.{◌≡◌, ◌≤◌, IfOk, true, false, Some, None};
ghost use Rattle.std.specs.Result.{IfErr};
ghost use Rattle.cf_row.specs.declared.schema.Kind.TheVariants.{U64};
ghost use Rattle.cf_shape.specs.Lanes.{is_number as is_number_of, is_narrow as is_narrow_of};
ghost use Rattle.cf_filter.specs.Values.{value_at};
ghost use Rattle.cf_setup.specs.declared.fault.Code.TheVariants.{BadNumber, BadAttribute};
ghost use Rattle.cf_setup.specs.Reading.{number_of as number_in, number_from as number_from_in, key_in};

use crate::fault::Code;
use cf_filter::read_value;
use cf_row::{Kind, Value};
use cf_shape::{is_narrow, is_number};

fn value_of(kind: Kind, text: &[u8]) -> Option<Value>
    ensures { result ≡ value_at kind text.now }
{
    read_value(kind, text)
}

// The number that the text is, as a value of the kind.
fn number_as(kind: Kind, text: &[u8]) -> Option<u64>
    ensures { result ≡ number_in kind text.now }
{
    match value_of(kind, text) {
        Some(Value::Num(number)) => Some(number),
        _ => None,
    }
}

/// The number below 2^64 that the text is.
pub(crate) fn number_of(text: &[u8]) -> Result<u64, Code>
    ensures found { IfOk result (λ n. number_in U64 text.now ≡ Some n) }
    ensures none { IfErr result (λ code. (number_in U64 text.now ≡ None) × (code ≡ BadNumber)) }
{
    number_as(Kind::U64, text).ok_or(Code::BadNumber)
}

/// The number from the one to the other that the text is.
pub(crate) fn number_from(low: u64, high: u64, text: &[u8]) -> Result<u64, Code>
    ensures found { IfOk result (λ n. number_from_in low high text.now ≡ Some n) }
    ensures most { IfOk result (λ n. n ≤ high) }
    ensures none { IfErr result (λ code. (number_from_in low high text.now ≡ None) × (code ≡ BadNumber)) }
{
    let number = number_of(text)?;
    if number < low || number > high {
        return Err(Code::BadNumber);
    }
    Ok(number)
}

/// The number of keys that the text is.
pub(crate) fn count_of(text: &[u8]) -> Result<u32, Code>
    ensures found { IfOk result (λ n. number_from_in 1 1000 text.now ≡ Some n) }
    ensures none { IfErr result (λ code. (number_from_in 1 1000 text.now ≡ None) × (code ≡ BadNumber)) }
{
    Ok(number_from(1, 1000, text)? as u32)
}

/// The value of that kind that the text is.
pub(crate) fn key_written(kind: Option<Kind>, text: &[u8]) -> Result<u64, Code>
    ensures found { IfOk result (λ n. key_in kind text.now ≡ Some n) }
    ensures none { IfErr result (λ code. (key_in kind text.now ≡ None) × (code ≡ BadNumber)) }
{
    match kind {
        Some(kind) => number_as(kind, text).ok_or(Code::BadNumber),
        None => Err(Code::BadNumber),
    }
}

/// The kind is one of numbers.
pub(crate) fn must_be_number(kind: Kind) -> Result<(), Code>
    ensures yes { IfOk result (λ _. is_number_of kind ≡ true) }
    ensures no { IfErr result (λ code. (is_number_of kind ≡ false) × (code ≡ BadAttribute)) }
{
    if is_number(kind) {
        Ok(())
    } else {
        Err(Code::BadAttribute)
    }
}

/// The kind is one of numbers of at most 32 bits.
pub(crate) fn must_be_narrow(kind: Kind) -> Result<(), Code>
    ensures yes { IfOk result (λ _. is_narrow_of kind ≡ true) }
    ensures no { IfErr result (λ code. (is_narrow_of kind ≡ false) × (code ≡ BadAttribute)) }
{
    if is_narrow(kind) {
        Ok(())
    } else {
        Err(Code::BadAttribute)
    }
}

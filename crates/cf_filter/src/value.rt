// Values as texts.
ghost use Rattle.std.specs.Prelude.{◌≡◌, ℕ, List, [], ◌≤◌, ◌<◌, ◌^◌, ◌*◌, length, true, MatchOption, IfSome, IfNone, Some, None, is_some};
ghost use Rattle.std.specs.List.{list_all};
ghost use Rattle.std.specs.Option.{option_map, option_copied};
ghost use Rattle.std.specs.Str.Parse.{digits_value};
ghost use Rattle.cf_row.specs.Row.{is_of_kind as is_of_kind_of};
ghost use Rattle.cf_filter.specs.Tokens.{passes};
ghost use Rattle.cf_filter.specs.Values.{digit_of as digit_number, is_run_of as is_run_of_class, is_hex_text, value_form_at, parts_at, part_at, byte_at, address_at, value_at, number_at, of_kind, lawful, pair_at, pairs};
ghost use Rattle.cf_filter.specs.Grammar.{ValueText};
ghost use Rattle.cf_row.specs.declared.row.Value.{Value};

use crate::bytes::{Class, strip};
use cf_row::{Kind, Value};

/// How a value is written.
#[derive(Clone, Copy, Debug, PartialEq, Eq)]
pub(crate) enum ValueForm {
    Decimal,
    Hex,
    Dotted,
}

fn digit_of(byte: u8) -> u8
    ensures value { result ≡ digit_number byte }
    ensures small { result ≤ 15 }
{
    if byte >= b'0' && byte <= b'9' {
        return byte - b'0';
    }
    if byte >= b'A' && byte <= b'F' {
        return byte - b'A' + 10;
    }
    if byte >= b'a' && byte <= b'f' {
        return byte - b'a' + 10;
    }
    0
}

// The number of the digits, if it is below 2^64.
#[tactic(auto, using(crate::proofs::Numbers::number_grows))]
pub(crate) fn number_of(base: u64, digits: &[u8]) -> Option<u64>
    requires { 1 ≤ base }
    ensures { MatchOption result (2 ^ 64 ≤ number_at base digits.now) (λ n. n ≡ number_at base digits.now) }
{
    let mut number = 0u64;
    for digit in digits {
        let Some(front) = number.checked_mul(base) else {
            return None;
        };
        let Some(sum) = front.checked_add(digit_of(*digit) as u64) else {
            return None;
        };
        number = sum;
    }
    Some(number)
}

// From `low` to `high` bytes, all of the class.
pub(crate) fn is_run_of(class: Class, low: usize, high: usize, text: &[u8]) -> bool
    ensures { result ≡ is_run_of_class class low high text.now }
{
    low <= text.len() && text.len() <= high && are_all(class, text)
}

/// Whether all bytes are of the class.
pub fn are_all(class: Class, text: &[u8]) -> bool
    ensures { result ≡ list_all (passes class) text.now }
{
    text.iter().all(|b| class.passes(*b))
}

fn is_hex(text: &[u8]) -> bool
    ensures { result ≡ is_hex_text text.now }
{
    match strip(text, b"0x") {
        Some(digits) => is_run_of(Class::Hex, 1, 32, digits),
        None => false,
    }
}

// The part of a dotted text at the front, and what follows it.
fn part_of(text: &[u8]) -> Option<(&[u8], &[u8])>
    ensures { option_map (λ x. (x.0.now, x.1.now)) result ≡ part_at text.now }
{
    let (digits, rest) = Class::Digit.split(text);
    if !is_run_of(Class::Digit, 1, 3, digits) {
        return None;
    }
    Some((digits, rest))
}

#[derive(Clone, Copy)]
struct Parts<'a> {
    a: &'a [u8],
    b: &'a [u8],
    c: &'a [u8],
    d: &'a [u8],
}

// The four parts of a dotted text.
#[tactic(auto, unfolding(crate::specs::Values::parts_at))]
fn parts_of(text: &[u8]) -> Option<Parts>
    ensures { option_map (λ x. (x.a.now, x.b.now, x.c.now, x.d.now)) result ≡ parts_at text.now }
{
    let (a, rest) = part_of(text)?;
    let (b, rest) = part_of(strip(rest, b".")?)?;
    let (c, rest) = part_of(strip(rest, b".")?)?;
    let (d, rest) = part_of(strip(rest, b".")?)?;
    if !rest.is_empty() {
        return None;
    }
    Some(Parts { a, b, c, d })
}

pub(crate) fn is_dotted(text: &[u8]) -> bool
    ensures { result ≡ is_some (parts_at text.now) }
{
    parts_of(text).is_some()
}

// How the text is written, if it is a value's.
pub(crate) fn value_form_of(text: &[u8]) -> Option<ValueForm>
    ensures { result ≡ value_form_at text.now }
{
    if is_run_of(Class::Digit, 1, 20, text) {
        return Some(ValueForm::Decimal);
    }
    if is_hex(text) {
        return Some(ValueForm::Hex);
    }
    if is_dotted(text) {
        return Some(ValueForm::Dotted);
    }
    None
}

fn byte_of(digits: &[u8]) -> Option<u64>
    ensures value { result ≡ byte_at digits.now }
    ensures small { IfSome result (λ n. n ≤ 255) }
{
    let Some(number) = number_of(10, digits) else {
        return None;
    };
    if number > 255 {
        return None;
    }
    Some(number)
}

// The number of a dotted text, if no part is above 255.
#[tactic(auto, unfolding(crate::specs::Values::address_at))]
pub(crate) fn address_of(text: &[u8]) -> Option<u64>
    ensures value { result ≡ address_at text.now }
    ensures small { IfSome result (λ n. n < 2 ^ 32) }
{
    let parts = parts_of(text)?;
    let a = byte_of(parts.a)?;
    let b = byte_of(parts.b)?;
    let c = byte_of(parts.c)?;
    let d = byte_of(parts.d)?;
    Some(((a * 256 + b) * 256 + c) * 256 + d)
}

fn is_of_kind(kind: Kind, number: u64) -> bool
    ensures { result ≡ is_of_kind_of kind (Value.Num number) }
{
    match kind {
        Kind::U8 => number < 1 << 8,
        Kind::U16 => number < 1 << 16,
        Kind::U32 => number < 1 << 32,
        Kind::U64 => true,
        Kind::Bytes(_) => false,
    }
}

// The number of the digits as a value of the kind.
fn number_value(kind: Kind, base: u64, digits: &[u8]) -> Option<Value>
    requires { 1 ≤ base }
    ensures { result ≡ of_kind kind (number_at base digits.now) }
{
    let Some(number) = number_of(base, digits) else {
        return None;
    };
    if !is_of_kind(kind, number) {
        return None;
    }
    Some(Value::Num(number))
}

// The byte that the pair of digits at this place writes, or 0 if there is none.
fn pair_of(digits: &[u8], place: usize) -> u8
    requires { place < 16 }
    ensures { result ≡ pair_at digits.now place }
{
    if 2 * place + 1 < digits.len() {
        return digit_of(digits[2 * place]) * 16 + digit_of(digits[2 * place + 1]);
    }
    0
}

#[tactic(auto, using(crate::proofs::Numbers::pairs_more, crate::proofs::Numbers::pairs_all), unfolding(crate::specs::Values::pairs))]
fn bytes_of(digits: &[u8]) -> [u8; 16]
    ensures { result ≡ pairs 16 digits.now }
{
    let mut bytes = [0; 16];
    for i in 0..16 {
        bytes[i] = pair_of(digits, i);
    }
    bytes
}

// The value of a text of this form, if it is lawful for the kind.
pub(crate) fn lawful_value(kind: Kind, form: ValueForm, text: &[u8]) -> Option<Value>
    ensures { result ≡ lawful kind form text.now }
{
    match (kind, form) {
        (Kind::Bytes(len), ValueForm::Hex) => {
            let Some(digits) = strip(text, b"0x") else {
                return None;
            };
            if digits.len() != 2 * len as usize {
                return None;
            }
            Some(Value::Raw {
                len,
                bytes: bytes_of(digits),
            })
        }
        (Kind::Bytes(_), _) => None,
        (_, ValueForm::Decimal) => number_value(kind, 10, text),
        (_, ValueForm::Hex) => {
            let Some(digits) = strip(text, b"0x") else {
                return None;
            };
            if digits.len() > 16 {
                return None;
            }
            number_value(kind, 16, digits)
        }
        (Kind::U32, ValueForm::Dotted) => match address_of(text) {
            Some(number) => Some(Value::Num(number)),
            None => None,
        },
        (_, ValueForm::Dotted) => None,
    }
}

fn value_of(kind: Kind, text: &[u8]) -> Option<Value>
    ensures { result ≡ value_at kind text.now }
{
    let form = value_form_of(text)?;
    lawful_value(kind, form, text)
}

/// The value of the kind that the text is one of; `None` where it is no lawful value of that kind.
///
/// A number is decimal (1 to 20 digits), or `0x` and 1 to 16 hexadecimal digits, or for `U32` also four dotted decimals (RFC
/// 791); a byte string is `0x` and two digits for each byte.
pub fn read_value(kind: Kind, text: &[u8]) -> Option<Value>
    ensures found { IfSome result (ValueText kind text.now) }
    ensures none { IfNone result ((value : Value) → ValueText kind text.now value → ⊥) }
{
    value_of(kind, text)
}

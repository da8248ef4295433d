// Values and ranges, with what is wrong with them.
ghost use Rattle.std.specs.Prelude.{◌≡◌, ℕ, List, ◌≤◌, ◌<◌, ◌^◌, ◌-◌, length, Ok, Err};
ghost use Rattle.std.specs.Option.{option_map};
ghost use Rattle.cf_row.specs.Expr.{number_of as number_in};
ghost use Rattle.cf_filter.specs.Ranges.{dots_len as dots_len_of, are_dots as are_dots_of, cut_at, sized_at, between_at, net_at, net_from, range_at, bounds_at, is_address_kind as is_address_kind_of};

use crate::bytes::{Class, strip};
use crate::fault::Offence;
use crate::value::{address_of, is_dotted, is_run_of, lawful_value, number_of, value_form_of};
use cf_row::{Kind, Op, Value};

// The value of the text.
fn value_of(kind: Kind, text: &[u8]) -> Result<Value, Offence>
    ensures { result ≡ sized_at kind text.now }
{
    let Some(form) = value_form_of(text) else {
        return Err(Offence::Syntax);
    };
    let Some(value) = lawful_value(kind, form, text) else {
        return Err(Offence::ValueRange);
    };
    Ok(value)
}

fn are_dots(text: &[u8]) -> bool
    ensures { result ≡ are_dots_of text.now }
{
    strip(text, b"..").is_some()
}

// How many bytes stand before the first two dots.
fn dots_len(text: &[u8]) -> usize
    ensures len { result ≡ dots_len_of text.now }
    ensures bound { result ≤ length text.now }
{
    for i in 0..text.len() {
        if are_dots(&text[i..]) {
            return i;
        }
    }
    text.len()
}

// What stands before the first two dots, and what stands after them.
fn cut(text: &[u8]) -> Option<(&[u8], &[u8])>
    ensures { option_map (λ x. (x.0.now, x.1.now)) result ≡ cut_at text.now }
{
    let (low, rest) = text.split_at(dots_len(text));
    let Some(high) = strip(rest, b"..") else {
        return None;
    };
    Some((low, high))
}

// From one value to another, both taken in.
fn between(kind: Kind, low: &[u8], high: &[u8]) -> Result<(Value, Value), Offence>
    ensures { result ≡ between_at kind low.now high.now }
{
    let Some(low_form) = value_form_of(low) else {
        return Err(Offence::Syntax);
    };
    let Some(high_form) = value_form_of(high) else {
        return Err(Offence::Syntax);
    };
    let Some(first) = lawful_value(kind, low_form, low) else {
        return Err(Offence::ValueRange);
    };
    let Some(last) = lawful_value(kind, high_form, high) else {
        return Err(Offence::ValueRange);
    };
    if first.number() > last.number() {
        return Err(Offence::ValueRange);
    }
    Ok((first, last))
}

// How many addresses share the first bits.
#[tactic(auto, using(crate::proofs::Numbers::power_small))]
fn net_size(bits: u64) -> u64
    requires { bits ≤ 32 }
    ensures size { result ≡ 2 ^ (32 - bits) }
    ensures small { result ≤ 2 ^ 32 }
    ensures some { 1 ≤ result }
{
    2u64.pow((32 - bits) as u32)
}

// The addresses that share their first bits with this one.
fn net_of(address: u64, bits: u64) -> (Value, Value)
    requires bits { bits ≤ 32 }
    requires address { address < 2 ^ 32 }
    ensures { result ≡ net_from address bits }
{
    let size = net_size(bits);
    let low = address - address % size;
    (Value::Num(low), Value::Num(low + (size - 1)))
}

fn is_address_kind(kind: Kind) -> bool
    ensures { result ≡ is_address_kind_of kind }
{
    match kind {
        Kind::U32 => true,
        _ => false,
    }
}

// An address and how many of its first bits are shared, as `10.0.0.0/8` (RFC 4632).
fn net(kind: Kind, text: &[u8]) -> Result<(Value, Value), Offence>
    ensures { result ≡ net_at kind text.now }
{
    let (front, rest) = Class::Except(b'/').split(text);
    let Some(bits) = strip(rest, b"/") else {
        return Err(Offence::Syntax);
    };
    if !is_dotted(front) {
        return Err(Offence::Syntax);
    }
    if !is_run_of(Class::Digit, 1, 20, bits) {
        return Err(Offence::Syntax);
    }
    if !is_address_kind(kind) {
        return Err(Offence::ValueRange);
    }
    let Some(address) = address_of(front) else {
        return Err(Offence::ValueRange);
    };
    let Some(number) = number_of(10, bits) else {
        return Err(Offence::ValueRange);
    };
    if number > 32 {
        return Err(Offence::ValueRange);
    }
    Ok(net_of(address, number))
}

// A range is cut at the first two dots.
fn range_of(kind: Kind, text: &[u8]) -> Result<(Value, Value), Offence>
    ensures { result ≡ range_at kind text.now }
{
    match cut(text) {
        Some((low, high)) => between(kind, low, high),
        None => net(kind, text),
    }
}

/// The value of the text twice, or after `in` and `not in` the ends of its range.
pub(crate) fn bounds_of(kind: Kind, op: Op, text: &[u8]) -> Result<(Value, Value), Offence>
    ensures { result ≡ bounds_at kind op text.now }
{
    match op {
        Op::Within | Op::Outside => range_of(kind, text),
        _ => match value_of(kind, text) {
            Ok(value) => Ok((value, value)),
            Err(offence) => Err(offence),
        },
    }
}

// The text of a value.
ghost use Rattle.std.specs.Prelude.{◌≡◌, ◌++◌, OnOk, string_bytes, take, decimal};
ghost use Rattle.std.specs.List.{flat_map};
ghost use Rattle.cf_report.specs.Dump.{is_address as is_address_of, is_half as is_half_of, dotted, byte_text, half_text, value_text};

use cf_row::{Attr, Memory, Value};
use std::fmt::Write;

fn is_address(attr: &Attr) -> bool
    ensures { result ≡ is_address_of attr.now }
{
    attr.is_named("src") || attr.is_named("dst")
}

fn is_half(attr: &Attr) -> bool
    ensures { result ≡ is_half_of attr.now }
{
    attr.is_named("src6")
        || attr.is_named("src6_low")
        || attr.is_named("dst6")
        || attr.is_named("dst6_low")
}

fn push_dotted(text: &mut String, address: u64) -> Result<(), Memory>
    ensures { OnOk result (string_bytes text.new ≡ string_bytes text.old ++ dotted address) }
{
    let first = address / (1 << 24);
    let second = address / (1 << 16) % (1 << 8);
    let third = address / (1 << 8) % (1 << 8);
    let fourth = address % (1 << 8);
    write!(text, "{first}.{second}.{third}.{fourth}")
}

fn push_byte(text: &mut String, byte: u8) -> Result<(), Memory>
    ensures { OnOk result (string_bytes text.new ≡ string_bytes text.old ++ byte_text byte) }
{
    write!(text, "{byte:02x}")
}

fn push_bytes(text: &mut String, bytes: &[u8]) -> Result<(), Memory>
    ensures { OnOk result (string_bytes text.new ≡ string_bytes text.old ++ flat_map byte_text bytes.now) }
{
    for byte in bytes {
        push_byte(text, *byte)?;
    }
    Ok(())
}

// The first so many bytes, or all.
fn front(bytes: &[u8], len: usize) -> &[u8]
    ensures { result.now ≡ take len bytes.now }
{
    if bytes.len() <= len {
        return bytes;
    }
    bytes.split_at(len).0
}

// `0x` and sixteen digits.
fn push_half(text: &mut String, half: u64) -> Result<(), Memory>
    ensures { OnOk result (string_bytes text.new ≡ string_bytes text.old ++ half_text half) }
{
    text.push_str("0x")?;
    push_bytes(text, &half.to_be_bytes())
}

fn push_number(text: &mut String, number: u64) -> Result<(), Memory>
    ensures { OnOk result (string_bytes text.new ≡ string_bytes text.old ++ decimal number) }
{
    write!(text, "{number}")
}

/// The value: bytes and halves of IPv6 addresses as hexadecimal digits, an IPv4 address with dots, other numbers in decimal.
pub(crate) fn push_value(text: &mut String, attr: &Attr, value: Value) -> Result<(), Memory>
    ensures { OnOk result (string_bytes text.new ≡ string_bytes text.old ++ value_text attr.now value) }
{
    match value {
        Value::Num(number) => {
            if is_address(attr) {
                push_dotted(text, number)
            } else if is_half(attr) {
                push_half(text, number)
            } else {
                push_number(text, number)
            }
        }
        Value::Raw { len, bytes } => {
            text.push_str("0x")?;
            push_bytes(text, front(&bytes, len as usize))
        }
    }
}

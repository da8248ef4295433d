// The list of a schema's attributes.
ghost use Rattle.std.specs.Prelude.{◌≡◌, ℕ, List, ◌≤◌, ◌<◌, length, Some, IfOk, IfSome, All};
ghost use Rattle.std.specs.Option.{option_map};
ghost use Rattle.cf_row.specs.declared.schema.Attr.{Attr};
ghost use Rattle.cf_row.specs.Schema.{IsSchema};
ghost use Rattle.cf_row.specs.declared.schema.TheConstants.{MOST_GIVEN};
ghost use Rattle.cf_lines.specs.Schemas.{size_at, kind_named, member_at, attrs_at, is_schema, schema_at, ListText};

use crate::lines::is_name;
use cf_filter::{Class, strip};
use cf_row::{Attr, Kind, MOST_GIVEN, Memory, Name, Schema};
use std::alloc::Global;

// 1 to 16 in decimal.
fn size_of(digits: &[u8]) -> Option<u8>
    ensures { result ≡ size_at digits.now }
{
    match digits {
        [a] if *a >= b'1' && *a <= b'9' => Some(*a - b'0'),
        [a, b] if *a == b'1' && *b >= b'0' && *b <= b'6' => Some(*b - b'0' + 10),
        _ => None,
    }
}

fn kind_of(text: &[u8]) -> Option<Kind>
    ensures { result ≡ kind_named text.now }
{
    if text == b"u8".as_slice() {
        return Some(Kind::U8);
    }
    if text == b"u16".as_slice() {
        return Some(Kind::U16);
    }
    if text == b"u32".as_slice() {
        return Some(Kind::U32);
    }
    if text == b"u64".as_slice() {
        return Some(Kind::U64);
    }
    let size = size_of(strip(text, b"b")?)?;
    Some(Kind::Bytes(size))
}

// The name and the kind of a member.
#[tactic(auto, unfolding(crate::specs::Schemas::member_at))]
fn parts_of(member: &[u8]) -> Option<(&[u8], Kind)>
    ensures parts { option_map (λ x. record { name = x.0.now; kind = x.1 }) result ≡ member_at member.now }
    ensures ascii { IfSome result (λ x. All (λ b. b < 128) x.0.now) }
{
    let (name, rest) = Class::Except(b':').split(member);
    let kind = kind_of(strip(rest, b":")?)?;
    if !is_name(16, name) {
        return None;
    }
    Some((name, kind))
}

// The attributes of the list, of at most 24 members.
fn attrs_of(alloc: Global, list: &[u8]) -> Result<Option<Vec<Attr>>, Memory>
    ensures { IfOk result (λ read. option_map (λ attrs. attrs.items) read ≡ attrs_at MOST_GIVEN list.now) }
{
    let mut attrs = Vec::new(alloc);
    let mut text = list;
    for _i in 0..MOST_GIVEN {
        let (member, rest) = Class::Except(b',').split(text);
        let Some((name, kind)) = parts_of(member) else {
            return Ok(None);
        };
        attrs.push(Attr {
            name: Name::from_ascii(alloc, name)?,
            kind,
        })?;
        if rest.is_empty() {
            return Ok(Some(attrs));
        }
        text = rest.split_at(1).1;
    }
    Ok(None)
}

// The schema that is read of the list.
#[tactic(auto, using(crate::proofs::Members::schema_some, crate::proofs::Members::schema_none))]
fn read_schema(alloc: Global, list: &[u8]) -> Result<Option<Schema>, Memory>
    ensures { IfOk result (λ read. read ≡ schema_at list.now) }
{
    let Some(attrs) = attrs_of(alloc, list)? else {
        return Ok(None);
    };
    match Schema::new(attrs) {
        Ok(schema) => Ok(Some(schema)),
        Err(_) => Ok(None),
    }
}

/// The schema that the list states, if it states one.
pub fn schema_of(alloc: Global, list: &[u8]) -> Result<Option<Schema>, Memory>
    ensures read { IfOk result (λ read. read ≡ schema_at list.now) }
    // The list is written as the list of the schema that it states.
    ensures found { IfOk result (λ read. IfSome read (ListText list.now)) }
    // A list that is written as one states that schema.
    ensures only { (attrs : List Attr) → ListText list.now attrs → IfOk result (λ read. read ≡ Some attrs) }
{
    read_schema(alloc, list)
}

// What a lane asks of the kinds of its attributes.
ghost use Rattle.std.specs.Prelude.{◌≡◌, slice_get};
ghost use Rattle.cf_shape.specs.Lanes.{is_number as is_number_of, is_narrow as is_narrow_of, is_lawful_key as is_lawful_key_of, is_lawful_measure as is_lawful_measure_of};
ghost use Rattle.cf_shape.specs.Nodes.{nibbles_of_kind, nibbles_of_key as nibbles_of_key_of};

use crate::Key;
use cf_row::{Attr, Kind};

/// Whether the kind is one of numbers.
pub fn is_number(kind: Kind) -> bool
    ensures { result ≡ is_number_of kind }
{
    match kind {
        Kind::Bytes(_) => false,
        _ => true,
    }
}

/// Whether the kind is one of numbers below 2^32.
pub fn is_narrow(kind: Kind) -> bool
    ensures { result ≡ is_narrow_of kind }
{
    match kind {
        Kind::U8 | Kind::U16 | Kind::U32 => true,
        _ => false,
    }
}

// Whether the key is a bucket or an attribute with numbers, or both.
pub(crate) fn is_lawful_key(attrs: &[Attr], key: Key) -> bool
    ensures { result ≡ is_lawful_key_of attrs.now key }
{
    match key {
        Key::Attr(attr) | Key::BucketBy(attr) => match attrs.get(attr as usize) {
            Some(attr) => is_number(attr.kind),
            None => false,
        },
        Key::Bucket => true,
    }
}

/// Whether the measure is none, or one of the attributes and of numbers below 2^32.
pub fn is_lawful_measure(attrs: &[Attr], measure: Option<u8>) -> bool
    ensures { result ≡ is_lawful_measure_of attrs.now measure }
{
    match measure {
        Some(attr) => match attrs.get(attr as usize) {
            Some(attr) => is_narrow(attr.kind),
            None => false,
        },
        None => true,
    }
}

fn kind_nibbles(kind: Kind) -> u8
    ensures { result ≡ nibbles_of_kind kind }
{
    match kind {
        Kind::U8 => 2,
        Kind::U16 => 4,
        Kind::U32 => 8,
        Kind::U64 => 16,
        Kind::Bytes(_) => 0,
    }
}

// The nibbles of the key.
pub(crate) fn key_nibbles(attrs: &[Attr], key: Key) -> u8
    ensures { result ≡ nibbles_of_key_of attrs.now key }
{
    match key {
        Key::Attr(attr) => match attrs.get(attr as usize) {
            Some(attr) => kind_nibbles(attr.kind),
            None => 0,
        },
        Key::Bucket | Key::BucketBy(_) => 16,
    }
}

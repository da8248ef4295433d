// The words that spell an entry.
ghost use Rattle.std.specs.Prelude.{◌≡◌, ℕ, ◌+◌, ◌-◌, ◌*◌, ◌^◌, ◌<◌, ◌≤◌, ◌++◌, List, length, take, drop, IfOk, IsOk, IsTrue, ◌↔◌, true, nat_lt};
ghost use Rattle.cf_row.specs.Schema.{has_good_size};
ghost use Rattle.cf_row.specs.declared.schema.Kind.TheVariants.{Bytes};
ghost use Rattle.cf_row.specs.Row.{Fits};
ghost use Rattle.cf_row.specs.Kept.{values_of};
ghost use Rattle.cf_row.specs.Words.{word_count as word_count_of, words_of_kind, big_number as big_number_of, big_bytes, value_words, values_words, value_read, entry_read, raw_words, raw_read, spelled, IsEntry, AreSpelled, word_fits, words_fit};
ghost use Rattle.cf_row.specs.declared.row.Entry.{Entry};
ghost use Rattle.cf_row.specs.declared.schema.TheConstants.{MOST_ATTRS};

use crate::values::{Spelling, Values};
use crate::{Attr, Entry, Kind, MOST_ATTRS, Memory, Row, Schema, Value};
use std::alloc::Global;

/// How many words an entry has at most: two for each attribute, and the tag.
pub const MOST_WORDS: usize = 2 * MOST_ATTRS + 1;

// How many words the values of a kind take.
pub(crate) fn kind_words(kind: Kind) -> usize
    ensures { result ≡ words_of_kind kind }
{
    match kind {
        Kind::Bytes(size) if size > 8 => 2,
        _ => 1,
    }
}

pub(crate) fn count_words(attrs: &[Attr]) -> usize
    requires { length attrs.now ≤ MOST_ATTRS }
    ensures count { result ≡ word_count_of attrs.now }
    ensures few { result ≤ 2 * MOST_ATTRS }
{
    let mut count = 0;
    for attr in attrs {
        count += kind_words(attr.kind);
    }
    count
}

/// The number of attribute words of a row: one for a number or up to 8 bytes, two for more bytes.
pub fn word_count(schema: &Schema) -> usize
    ensures count { result ≡ word_count_of schema.now }
    ensures few { result ≤ 2 * MOST_ATTRS }
{
    usize::from(schema.words())
}

// Bytes as a number, the first the highest.
fn big_number(bytes: &[u8]) -> u64
    requires few { length bytes.now ≤ 8 }
    ensures { result ≡ big_number_of bytes.now }
{
    let mut number = 0;
    for byte in bytes {
        number = number * 256 + u64::from(*byte);
    }
    number
}

// Writes the words of a value from `at` on, and answers where they end.
pub(crate) fn put_value(value: &Value, out: &mut [u64], at: usize) -> usize
    requires room { at + length (value_words value.now) ≤ length out.old }
    ensures end { result ≡ at + length (value_words value.now) }
    ensures words { take result out.new ≡ take at out.old ++ value_words value.now }
{
    match value {
        Value::Num(number) => {
            out[at] = *number;
            at + 1
        }
        Value::Raw { len, bytes } => put_bytes(*len, bytes, out, at),
    }
}

// The same of a string of bytes.
fn put_bytes(len: u8, bytes: &[u8; 16], out: &mut [u64], at: usize) -> usize
    requires room { at + length (raw_words len bytes.now) ≤ length out.old }
    ensures end { result ≡ at + length (raw_words len bytes.now) }
    ensures words { take result out.new ≡ take at out.old ++ raw_words len bytes.now }
{
    let end = (len as usize).min(16);
    if len > 8 {
        out[at] = big_number(&bytes[..8]);
        out[at + 1] = big_number(&bytes[8..end]);
        at + 2
    } else {
        out[at] = big_number(&bytes[..end]);
        at + 1
    }
}

// Writes the words of the values, and answers where they end.
fn put_list(values: &[Value], out: &mut [u64]) -> usize
    requires room { length (values_words values.now) ≤ length out.old }
    ensures end { result ≡ length (values_words values.now) }
    ensures words { take result out.new ≡ values_words values.now }
{
    let mut at = 0;
    for value in values {
        at = put_value(value, out, at);
    }
    at
}

// Copies the words to the front, and answers where they end.
fn put_words(words: &[u64], out: &mut [u64]) -> usize
    requires room { length words.now ≤ length out.old }
    ensures end { result ≡ length words.now }
    ensures words { take result out.new ≡ words.now }
{
    out[..words.len()].copy_from_slice(words);
    words.len()
}

// Writes the words of a row's values, and answers where they end.
fn put_values(values: &Values, out: &mut [u64]) -> usize
    requires room { length (values_words (values_of values.now)) ≤ length out.old }
    ensures end { result ≡ length (values_words (values_of values.now)) }
    ensures words { take result out.new ≡ values_words (values_of values.now) }
{
    match values {
        Values::Listed(values) => put_list(values, out),
        Values::Spelled(spelling) => put_words(spelling.words(), out),
    }
}

/// Writes the words of the entry of that row and writer: for each attribute one word with a number or up to 8 bytes as a
/// number, the first byte the highest, or two with the first 8 bytes and the rest; then the tag, `num * 16 + writer`.
pub fn words_of(schema: &Schema, row: &Row, writer: u8, out: &mut [u64])
    requires fits { Fits schema.now row.now }
    requires writer { writer < 16 }
    requires room { length out.old ≡ word_count_of schema.now + 1 }
    ensures { out.new ≡ spelled (record { writer = writer; row = row.now }) }
{
    let _ = schema;
    let at = put_values(row.values(), out);
    out[at] = u64::from(row.num()) * 16 + u64::from(writer);
}

// Writes the `size` bytes of a number from `from` on, the first the highest.
fn read_bytes(number: u64, out: &mut [u8], from: usize, size: usize)
    requires room { from + size ≤ length out.old }
    requires fits { number < 256 ^ size }
    ensures { out.new ≡ take from out.old ++ (big_bytes size number ++ drop (from + size) out.old) }
{
    let mut rest = number;
    let mut left = size;
    while left > 0 {
        left -= 1;
        out[from + left] = (rest % 256) as u8;
        rest /= 256;
    }
}

fn read_string(size: u8, words: &[u64], at: usize) -> Value
    requires few { size ≤ 16 }
    requires room { at + words_of_kind (Bytes size) ≤ length words.now }
    requires fits { word_fits (Bytes size) (drop at words.now) ≡ true }
    ensures { result ≡ value_read (Bytes size) (drop at words.now) }
{
    let mut bytes = [0; 16];
    if size > 8 {
        read_bytes(words[at], &mut bytes, 0, 8);
        read_bytes(words[at + 1], &mut bytes, 8, size as usize - 8);
    } else {
        read_bytes(words[at], &mut bytes, 0, size as usize);
    }
    Value::Raw { len: size, bytes }
}

pub(crate) fn read_value(kind: Kind, words: &[u64], at: usize) -> Value
    requires few { has_good_size kind ≡ true }
    requires room { at + words_of_kind kind ≤ length words.now }
    requires fits { word_fits kind (drop at words.now) ≡ true }
    ensures { result ≡ value_read kind (drop at words.now) }
{
    match kind {
        Kind::Bytes(size) => read_string(size, words, at),
        _ => Value::Num(words[at]),
    }
}

/// The entry that these words spell, without a block of memory where its values have at most 32 words.
pub fn row_of(alloc: Global, schema: &Schema, words: &[u64]) -> Result<Entry, Memory>
    requires { AreSpelled schema.now words.now }
    ensures entry { IfOk result (λ entry. IsEntry schema.now entry × (words.now ≡ spelled entry)) }
    ensures inverse { IfOk result (λ read. (entry : Entry) → IsEntry schema.now entry → words.now ≡ spelled entry → read ≡ entry) }
    ensures read { IfOk result (λ entry. entry ≡ entry_read schema.now words.now) }
    ensures free { word_count_of schema.now ≤ MOST_ATTRS → IsOk result }
{
    let count = word_count(schema);
    let values = Spelling::new(alloc, schema.attrs(), &words[..count])?;
    let tag = words[count];
    Ok(Entry {
        writer: (tag % 16) as u8,
        row: Row::spelled((tag / 16) as u32, values),
    })
}

// Whether the word is a number of that many bytes.
fn is_below(word: u64, bytes: u8) -> bool
    ensures { result ≡ nat_lt word (256 ^ bytes) }
{
    bytes >= 8 || word < 256u64.pow(u32::from(bytes))
}

fn is_in_range(kind: Kind, words: &[u64], at: usize) -> bool
    requires room { at + words_of_kind kind ≤ length words.now }
    ensures { result ≡ word_fits kind (drop at words.now) }
{
    match kind {
        Kind::U8 => is_below(words[at], 1),
        Kind::U16 => is_below(words[at], 2),
        Kind::U32 => is_below(words[at], 4),
        Kind::U64 => is_below(words[at], 8),
        Kind::Bytes(size) if size > 8 => is_below(words[at], 8)
            && is_below(words[at + 1], size - 8),
        Kind::Bytes(size) => is_below(words[at], size),
    }
}

// Whether all words are in the range of the attributes' kinds, and the tag in that of a number of 32 bits and a writer.
fn are_in_range(attrs: &[Attr], words: &[u64]) -> bool
    requires few { length attrs.now ≤ MOST_ATTRS }
    requires room { length words.now ≡ word_count_of attrs.now + 1 }
    ensures { result ≡ words_fit attrs.now words.now }
{
    let mut at = 0;
    for attr in attrs {
        if !is_in_range(attr.kind, words, at) {
            return false;
        }
        at += kind_words(attr.kind);
    }
    words[at] < 1 << 36
}

/// Whether these words are those of an entry: of a row that fits the schema, and a writer below 16.
pub fn spells(schema: &Schema, words: &[u64]) -> bool
    ensures { IsTrue result ↔ AreSpelled schema.now words.now }
{
    words.len() == word_count(schema) + 1 && are_in_range(schema.attrs(), words)
}

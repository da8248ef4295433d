// How a row keeps its values: as a list, or as the words that spell them.
ghost use Rattle.std.specs.Prelude.{◌≡◌, ◌<◌, ◌≤◌, ◌++◌, length, map, take, IfOk, IfSome, IfNone, slice_index_or, true, false, IsOk, IsTrue, OnErr, OnOk};
ghost use Rattle.cf_row.specs.Keeping.{keep};
ghost use Rattle.std.specs.List.{list_all};
ghost use Rattle.cf_row.specs.declared.row.Value.TheVariants.{Num};
ghost use Rattle.cf_row.specs.Row.{is_of_kind as is_of_kind_of};
ghost use Rattle.cf_row.specs.Schema.{has_good_size};
ghost use Rattle.cf_row.specs.Words.{word_count, words_fit, values_read, values_words};
ghost use Rattle.cf_row.specs.Kept.{AreWithin, len_of as len_of_kind, kind_of as kind_of_len, attrs_of, values_kept, AreKept, can_be_kept, lie_within, values_of, words_in};
ghost use Rattle.cf_row.specs.declared.schema.TheConstants.{MOST_ATTRS};

use crate::row::is_of_kind;
use crate::words::{kind_words, put_value, read_value};
use crate::{Attr, Kind, MOST_ATTRS, Memory, Value};
use std::alloc::Global;
use std::marker::Model;

/// The values of a row: a list, or the words that spell them.
#[derive(Debug, Drop)]
pub(crate) enum Values {
    Listed(Vec<Value>),
    Spelled(Spelling),
}

impl Values {
    pub(crate) fn len(&self) -> usize
        ensures { result ≡ length (values_of self.now) }
    {
        match self {
            Values::Listed(values) => values.len(),
            Values::Spelled(spelling) => spelling.len(),
        }
    }

    // The value at that place, `Num(0)` where there is none.
    pub(crate) fn at(&self, place: usize) -> Value
        ensures { result ≡ slice_index_or (values_of self.now) place (Num 0) }
    {
        match self {
            Values::Listed(values) => values.get(place).copied().unwrap_or(Value::Num(0)),
            Values::Spelled(spelling) => spelling.at(place),
        }
    }

    // These values, without a block of memory where they lie within a row.
    #[inline(always)]
    pub(crate) fn of(alloc: Global, values: &[Value]) -> Result<Values, Memory>
        ensures same { IfOk result (λ kept. values_of kept ≡ values.now) }
        ensures free { lie_within values.now ≡ true → IsOk result }
    {
        match Spelling::of(values) {
            Some(spelling) => Ok(Values::Spelled(spelling)),
            None => Ok(Values::Listed(values.to_vec(alloc)?)),
        }
    }

    // The values that are marked.
    fn marked(&self, alloc: Global, kept: &[bool]) -> Result<Vec<Value>, Memory>
        requires { length kept.now ≡ length (values_of self.now) }
        ensures { IfOk result (λ left. left.items ≡ keep kept.now (values_of self.now)) }
    {
        let mut left = Vec::with_capacity(alloc, kept.len())?;
        for place in 0..kept.len() {
            if kept[place] {
                left.push(self.at(place))?;
            }
        }
        Ok(left)
    }

    // Leaves the values that are marked, in order. Where each has one word within the row, they move and no memory is taken.
    pub(crate) fn keep(&mut self, alloc: Global, kept: &[bool]) -> Result<(), Memory>
        requires { length kept.now ≡ length (values_of self.old) }
        ensures left { OnOk result (values_of self.new ≡ keep kept.now (values_of self.old)) }
        ensures stays { OnErr result (self.new ≡ self.old) }
    {
        if let Values::Spelled(spelling) = self {
            if spelling.keep(kept) {
                return Ok(());
            }
        }
        let left = self.marked(alloc, kept)?;
        *self = Values::of(alloc, &left)?;
        Ok(())
    }

    // Equal values, without a block of memory where they lie within a row.
    pub(crate) fn copy(&self, alloc: Global) -> Result<Values, Memory>
        ensures same { IfOk result (λ values. values_of values ≡ values_of self.now) }
        ensures free { lie_within (values_of self.now) ≡ true → IsOk result }
    {
        match self {
            Values::Listed(values) => Values::of(alloc, values),
            Values::Spelled(spelling) => Ok(Values::Spelled(spelling.copy(alloc)?)),
        }
    }
}

/// How many words a row keeps within itself: those of a packet, by either schema.
const FEW: usize = MOST_ATTRS;

/// The words of a row: a few lie within it, more have a block of their own.
#[derive(Debug, Drop)]
pub(crate) enum Words {
    // the words, and how many of them count
    Few([u64; MOST_ATTRS], u8),
    Many(Vec<u64>),
}

impl Words {
    fn new(alloc: Global, words: &[u64]) -> Result<Words, Memory>
        ensures words { IfOk result (λ kept. words_in kept ≡ words.now) }
        ensures free { length words.now ≤ MOST_ATTRS → IsOk result }
    {
        if words.len() > FEW {
            return Ok(Words::Many(words.to_vec(alloc)?));
        }
        let mut few = [0; FEW];
        few[..words.len()].copy_from_slice(words);
        Ok(Words::Few(few, words.len() as u8))
    }

    fn as_slice(&self) -> &[u64]
        ensures { result.now ≡ words_in self.now }
    {
        match self {
            Words::Few(words, count) => front(words, *count),
            Words::Many(words) => words,
        }
    }

    // Whether they lie within the row and are so many.
    fn are_within(&self, count: u8) -> bool
        ensures within { IsTrue result → AreWithin count self.now }
    {
        matches!(self, Words::Few(_, few) if *few == count)
    }

    // Leaves the words that are marked, of which there are so many.
    fn keep(&mut self, kept: &[bool], left: u8)
        requires few { length kept.now ≤ MOST_ATTRS }
        requires within { AreWithin (length kept.now) self.old }
        requires left { left ≡ length (keep kept.now (words_in self.old)) }
        ensures { words_in self.new ≡ keep kept.now (words_in self.old) }
    {
        if let Words::Few(words, _) = self {
            keep_front(words, kept);
        }
        if let Words::Few(_, count) = self {
            *count = left;
        }
    }

    fn copy(&self, alloc: Global) -> Result<Words, Memory>
        ensures words { IfOk result (λ kept. words_in kept ≡ words_in self.now) }
        ensures free { length (words_in self.now) ≤ MOST_ATTRS → IsOk result }
    {
        match self {
            Words::Few(words, count) => Ok(Words::Few(*words, *count)),
            Words::Many(words) => Words::new(alloc, words),
        }
    }
}

// Moves the marked ones of the first items to the front, in order. The answer is how many these are.
fn keep_front<T: Copy>(items: &mut [T], kept: &[bool]) -> usize
    requires { length kept.now ≤ length items.old }
    ensures kept { take result items.new ≡ keep kept.now items.old }
    ensures count { result ≡ length (keep kept.now items.old) }
{
    let mut count = 0;
    for place in 0..kept.len() {
        if kept[place] {
            items[count] = items[place];
            count += 1;
        }
    }
    count
}

// The first words, all of them where there are fewer.
fn front(words: &[u64; MOST_ATTRS], count: u8) -> &[u64]
    ensures { result.now ≡ take count words.now }
{
    &words[..usize::from(count).min(FEW)]
}

/// The words of values, and for each value how many bytes it has, 0 for a number.
#[derive(Debug, Drop)]
pub(crate) struct Spelling {
    lens: [u8; MOST_ATTRS],
    // how many values there are
    count: u8,
    words: Words,
}

impl Model for Spelling {
    ghost use Rattle.std.specs.Prelude.{List};
    ghost use Rattle.cf_row.specs.declared.row.Value.{Value as ValueOf};

    ghost Value = { List ValueOf };

    ghost use Rattle.std.specs.Prelude.{take, length, ◌≤◌};
    ghost use Rattle.cf_row.specs.Kept.{values_kept, AreKept, words_in};

    ghost view = { λ s. values_kept (take s.count s.lens) (words_in s.words) };

    ghost invariant = { λ s. AreKept (take s.count s.lens) (words_in s.words) × (s.count ≤ length s.lens) };
}

impl Spelling {
    // The values of these attributes, spelled by the words.
    pub(crate) fn new(alloc: Global, attrs: &[Attr], words: &[u64]) -> Result<Spelling, Memory>
        requires sized { list_all (λ attr. has_good_size attr.kind) attrs.now ≡ true }
        requires few { length attrs.now ≤ MOST_ATTRS }
        requires long { length words.now ≡ word_count attrs.now }
        requires fits { words_fit attrs.now words.now ≡ true }
        ensures read { IfOk result (λ spelling. spelling ≡ values_read attrs.now words.now) }
        ensures free { length words.now ≤ MOST_ATTRS → IsOk result }
    {
        Ok(Spelling {
            lens: lens_of(attrs),
            count: attrs.len() as u8,
            words: Words::new(alloc, words)?,
        })
    }

    // So many values of these lengths, each of which one word spells.
    #[inline(always)]
    pub(crate) fn of_words(count: u8, lens: [u8; MOST_ATTRS], words: [u64; MOST_ATTRS]) -> Spelling
        requires few { count ≤ MOST_ATTRS }
        requires kept { AreKept (take count lens) (take count words) }
        ensures { result ≡ values_kept (take count lens) (take count words) }
    {
        Spelling {
            lens,
            count,
            words: Words::Few(words, count),
        }
    }

    // These values, where they are few enough and each is a number or has 1 to 16 bytes.
    #[inline(always)]
    pub(crate) fn of(values: &[Value]) -> Option<Spelling>
        ensures same { IfSome result (λ spelling. spelling ≡ values.now) }
        ensures none { IfNone result (lie_within values.now ≡ false) }
    {
        if values.len() > FEW {
            return None;
        }
        let mut lens = [0; MOST_ATTRS];
        let mut words = [0; FEW];
        let mut at = 0;
        for place in 0..values.len() {
            let Some(len) = len_kept(values[place]) else {
                return None;
            };
            if at + kind_words(kind_of(len)) > FEW {
                return None;
            }
            lens[place] = len;
            at = put_value(&values[place], &mut words, at);
        }
        Some(Spelling {
            lens,
            count: values.len() as u8,
            words: Words::Few(words, at as u8),
        })
    }

    // Leaves the values that are marked, if each value has one word within the row. The answer is whether that is so.
    fn keep(&mut self, kept: &[bool]) -> bool
        requires { length kept.now ≡ length self.old }
        ensures left { IsTrue result → self.new ≡ keep kept.now self.old }
        ensures stays { result ≡ false → self.new ≡ self.old }
    {
        if !self.words.are_within(self.count) {
            return false;
        }
        let left = keep_front(&mut self.lens, kept) as u8;
        self.words.keep(kept, left);
        self.count = left;
        true
    }

    // The words that spell the values.
    pub(crate) fn words(&self) -> &[u64]
        ensures { result.now ≡ values_words self.now }
    {
        self.words.as_slice()
    }

    fn len(&self) -> usize
        ensures { result ≡ length self.now }
    {
        usize::from(self.count)
    }

    fn at(&self, place: usize) -> Value
        ensures { result ≡ slice_index_or self.now place (Num 0) }
    {
        value_of(
            &self.lens[..usize::from(self.count)],
            self.words.as_slice(),
            place,
        )
    }

    fn copy(&self, alloc: Global) -> Result<Spelling, Memory>
        ensures same { IfOk result (λ spelling. spelling ≡ self.now) }
        ensures free { length (values_words self.now) ≤ MOST_ATTRS → IsOk result }
    {
        let words = self.words.copy(alloc)?;
        Ok(Spelling {
            lens: self.lens,
            count: self.count,
            words,
        })
    }
}

fn len_of(kind: Kind) -> u8
    ensures { result ≡ len_of_kind kind }
{
    match kind {
        Kind::Bytes(size) => size,
        _ => 0,
    }
}

fn kind_of(len: u8) -> Kind
    ensures { result ≡ kind_of_len len }
{
    if len == 0 {
        return Kind::U64;
    }
    Kind::Bytes(len)
}

// The length that is kept for the value, if the value is of the kind that is kept for it.
fn len_kept(value: Value) -> Option<u8>
    ensures kept { IfSome result (λ len. is_of_kind_of (kind_of_len len) value ≡ true) }
    ensures none { IfNone result (can_be_kept value ≡ false) }
{
    let len = match value {
        Value::Num(_) => 0,
        Value::Raw { len, .. } => len,
    };
    if is_of_kind(kind_of(len), value) {
        Some(len)
    } else {
        None
    }
}

fn lens_of(attrs: &[Attr]) -> [u8; MOST_ATTRS]
    requires { length attrs.now ≤ MOST_ATTRS }
    ensures lens { take (length attrs.now) result ≡ map (λ attr. len_of_kind attr.kind) attrs.now }
    ensures room { length attrs.now ≤ length result }
{
    let mut lens = [0; MOST_ATTRS];
    for place in 0..attrs.len() {
        lens[place] = len_of(attrs[place].kind);
    }
    lens
}

// How many words values of these lengths take.
fn count_lens(lens: &[u8]) -> usize
    requires { length lens.now ≤ MOST_ATTRS }
    ensures { result ≡ word_count (attrs_of lens.now) }
{
    let mut count = 0;
    for len in lens {
        count += kind_words(kind_of(*len));
    }
    count
}

// Where the words of a value begin; if each value has one word, at its own place.
fn start_of(lens: &[u8], count: usize, place: usize) -> usize
    requires few { length lens.now ≤ MOST_ATTRS }
    requires place { place < length lens.now }
    requires count { count ≡ word_count (attrs_of lens.now) }
    ensures { result ≡ word_count (attrs_of (take place lens.now)) }
{
    if count == lens.len() {
        return place;
    }
    count_lens(&lens[..place])
}

fn value_of(lens: &[u8], words: &[u64], place: usize) -> Value
    requires { AreKept lens.now words.now }
    ensures { result ≡ slice_index_or (values_kept lens.now words.now) place (Num 0) }
{
    if place >= lens.len() {
        return Value::Num(0);
    }
    let at = start_of(lens, words.len(), place);
    read_value(kind_of(lens[place]), words, at)
}

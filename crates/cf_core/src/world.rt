// A world, and its first steps.
ghost use Rattle.std.specs.Prelude.{◌≡◌, ℕ, ◌+◌, ◌<◌, ◌≤◌, ◌∷◌, ◌++◌, List, [], length, IfOk, MatchResult, MatchOption, Some, None, slice_get, slice_index_or, set, cond, ◌==◌, take, drop, true, IsTrue, ◌↔◌};
ghost use Rattle.cf_shape.specs.Places.{place};
ghost use Rattle.cf_shape.specs.Places.Slot.{cell};
ghost use Rattle.cf_shape.specs.Uses.{ticket_words};
ghost use Rattle.cf_shape.specs.Lanes.{ShapeValue};
ghost use Rattle.cf_core.specs.Worlds.{WorldValue, IsLawfulWorld, AreReadable, Answers, NoPass, IsLivePass, event_of};
ghost use Rattle.cf_law.specs.Events.{entries_spelled, plain_at, opening};
ghost use Rattle.cf_row.specs.Words.{AreSpelled};
ghost use Rattle.cf_law.specs.Events.WorldEvent.{acts, splits, joins};
ghost use Rattle.cf_law.specs.Steps.Act.{take_ticket, store_cell, finish_record, look_done, load_word, load_tail, advance};
ghost use Rattle.cf_law.specs.Lawful.{Lawful};
ghost use Rattle.cf_law.specs.Shapes.{layout};

use crate::cells::{are_all, is_next, is_whole, own_word};
use crate::{Act, Event};
use cf_pass::{PassState, empty_books};
use cf_row::{Entry, Memory, Row, fits, row_of, word_count};
use cf_shape::{Shape, place_ticket, word_total};
use std::alloc::Global;
use std::marker::Model;

/// The words of a table and the passes over it. It is lawful, always.
#[derive(Debug, Drop)]
pub struct World {
    shape: Shape,
    words: Vec<u64>,
    passes: Vec<PassState>,
}

impl Model for World {
    ghost use Rattle.cf_core.specs.Worlds.{WorldValue, IsLawfulWorld};

    ghost Value = { WorldValue };

    ghost view = { λ w. record { shape = w.shape; words = w.words.items; passes = w.passes.items } };

    ghost invariant = { λ w. IsLawfulWorld (record { shape = w.shape; words = w.words.items; passes = w.passes.items }) };
}

impl World {
    /// The words of the table.
    pub fn words(&self) -> &[u64]
        ensures words { result.now ≡ self.now.words }
        ensures lawful { IsLawfulWorld self.now }
    {
        &self.words
    }

    pub(crate) fn shape(&self) -> &Shape
        ensures shape { result.now ≡ self.now.shape }
        ensures lawful { IsLawfulWorld self.now }
    {
        &self.shape
    }

    // The pass of that number, where it is there and not spent.
    pub(crate) fn live(&self, number: u32) -> Option<&PassState>
        ensures { MatchOption result (NoPass self.now number) (λ p. IsLivePass self.now number p.now) }
    {
        match self.passes.get(number as usize) {
            Some(pass) => { if pass.is_spent() { None } else { Some(pass) } }
            None => None,
        }
    }

    // The word becomes the value, and the pass that pass.
    pub(crate) fn put(&mut self, number: u32, place: u64, value: u64, pass: PassState)
        requires pass { number < length self.old.passes }
        requires word { place < length self.old.words }
        requires lawful { Lawful (layout self.old.shape) (set self.old.words place value) (set self.old.passes number pass) }
        ensures { self.new ≡ record { shape = self.old.shape; words = set self.old.words place value; passes = set self.old.passes number pass } }
    {
        self.words[place as usize] = value;
        self.passes[number as usize] = pass;
    }

    pub(crate) fn word(&self, place: u64) -> u64
        requires { place < length self.now.words }
        ensures { result ≡ slice_index_or self.now.words place 0 }
    {
        self.words[place as usize]
    }

    // The place of word `index` of a ticket.
    pub(crate) fn ticket_place(&self, offset: u32, index: u64) -> u64
        requires offset { offset < self.now.shape.capacity }
        requires word { index < ticket_words self.now.shape }
        ensures at { result ≡ place (layout self.now.shape).sizes (cell offset index) }
        ensures there { result < length self.now.words }
    {
        place_ticket(self.shape(), offset, index)
    }

    fn look_done(&mut self, alloc: Global, number: u32, offset: u32) -> Result<bool, Memory>
        ensures { MatchResult result (Answers self.old number (acts (look_done offset)) self.new) (λ _. self.new ≡ self.old) }
    {
        let Some(pass) = self.live(number) else {
            return Ok(false);
        };
        let shape = self.shape();
        if offset >= shape.capacity() {
            return Ok(false);
        }
        let place = self.ticket_place(offset, shape.ticket_words() - 1);
        let found = self.word(place);
        let after = pass.looked(alloc, place, found)?;
        self.put(number, place, found, after);
        Ok(true)
    }

    fn load_word(
        &mut self,
        alloc: Global,
        number: u32,
        offset: u32,
        index: u32,
    ) -> Result<bool, Memory>
        ensures { MatchResult result (Answers self.old number (acts (load_word offset index)) self.new) (λ _. self.new ≡ self.old) }
    {
        let Some(pass) = self.live(number) else {
            return Ok(false);
        };
        if offset as usize >= pass.covered() || u64::from(index) >= self.shape().ticket_words() {
            return Ok(false);
        }
        let place = self.ticket_place(offset, u64::from(index));
        let found = self.word(place);
        let after = pass.looked(alloc, place, found)?;
        self.put(number, place, found, after);
        Ok(true)
    }

    // The entries that the words of the first `count` places spell.
    fn entries(&self, alloc: Global, count: u32) -> Result<Vec<Entry>, Memory>
        requires within { count ≤ self.now.shape.capacity }
        requires readable { AreReadable self.now count }
        ensures { IfOk result (λ entries. entries.items ≡ entries_spelled (layout self.now.shape) self.now.words count) }
    {
        let mut entries = Vec::new(alloc);
        for offset in 0..count {
            entries.push(self.entry(alloc, offset)?)?;
        }
        Ok(entries)
    }

    // The entry that the words of a place spell.
    fn entry(&self, alloc: Global, offset: u32) -> Result<Entry, Memory>
        requires within { offset < self.now.shape.capacity }
        requires readable { AreSpelled self.now.shape.schema (plain_at (layout self.now.shape) self.now.words offset) }
        ensures { IfOk result (λ entry. entry ≡ (layout self.now.shape).reads (plain_at (layout self.now.shape) self.now.words offset)) }
    {
        let schema = self.shape().schema();
        row_of(alloc, schema, self.plain_words(offset))
    }

    // The words of attributes and tag of a place.
    fn plain_words(&self, offset: u32) -> &[u64]
        requires { offset < self.now.shape.capacity }
        ensures { result.now ≡ plain_at (layout self.now.shape) self.now.words offset }
    {
        let start = self.ticket_place(offset, 0) as usize;
        let count = word_count(self.shape().schema()) + 1;
        part(self.words(), start, count)
    }

    fn load_tail(&mut self, alloc: Global, number: u32, asked: bool) -> Result<bool, Memory>
        ensures { MatchResult result (Answers self.old number (acts (load_tail asked)) self.new) (λ _. self.new ≡ self.old) }
    {
        let Some(pass) = self.live(number) else {
            return Ok(false);
        };
        let tail = self.read_tail();
        let entries = self.entries(alloc, tail as u32)?;
        let after = pass.tail_loaded(alloc, asked, tail, entries)?;
        self.put(number, 1, tail, after);
        Ok(true)
    }

    fn read_tail(&self) -> u64
        ensures tail { result ≡ slice_index_or self.now.words 1 0 }
        ensures there { 1 < length self.now.words }
        ensures within { result ≤ self.now.shape.capacity }
        ensures few { result ≤ 65536 }
        ensures readable { AreReadable self.now result }
        ensures lawful { IsLawfulWorld self.now }
    {
        self.words()[1]
    }

    fn advance(&mut self, alloc: Global, number: u32, tail: u32) -> Result<bool, Memory>
        ensures { MatchResult result (Answers self.old number (acts (advance tail)) self.new) (λ _. self.new ≡ self.old) }
    {
        let Some(pass) = self.live(number) else {
            return Ok(false);
        };
        let shape = self.shape();
        if tail as usize > pass.covered() || tail >= shape.capacity() {
            return Ok(false);
        }
        let place = self.ticket_place(tail, shape.ticket_words() - 1);
        if !pass.found_one(place) {
            return Ok(false);
        }
        let left = advanced(self.read_tail(), u64::from(tail));
        let entries = self.entries(alloc, tail + 1)?;
        let after = pass.advanced(alloc, tail, entries)?;
        self.put(number, 1, left, after);
        Ok(true)
    }

    fn write_tail(&self) -> u64
        ensures tail { result ≡ slice_index_or self.now.words 0 0 }
        ensures there { 0 < length self.now.words }
        ensures few { result ≤ 65551 }
        ensures lawful { IsLawfulWorld self.now }
    {
        self.words()[0]
    }

    fn take_ticket(&mut self, alloc: Global, number: u32, row: &Row) -> Result<bool, Memory>
        ensures { MatchResult result (Answers self.old number (acts (take_ticket row.now)) self.new) (λ _. self.new ≡ self.old) }
    {
        let Some(pass) = self.live(number) else {
            return Ok(false);
        };
        let shape = self.shape();
        if !is_of(shape, row) || !pass.may_take() {
            return Ok(false);
        }
        let tail = self.write_tail();
        let after = pass.ticketed(alloc, shape.capacity(), tail as u32, row)?;
        self.put(number, 0, tail + 1, after);
        Ok(true)
    }

    fn store_cell(
        &mut self,
        alloc: Global,
        number: u32,
        offset: u32,
        index: u32,
        value: u64,
    ) -> Result<bool, Memory>
        ensures { MatchResult result (Answers self.old number (acts (store_cell offset index value)) self.new) (λ _. self.new ≡ self.old) }
    {
        let Some(pass) = self.live(number) else {
            return Ok(false);
        };
        let Some((place, book, ticket)) = pass.flying(offset) else {
            return Ok(false);
        };
        let shape = self.shape();
        let row = ticket.row();
        if !is_next(shape, row, ticket.filled(), index) {
            return Ok(false);
        }
        if value != own_word(alloc, shape, book, row, index)? {
            return Ok(false);
        }
        let at = self.ticket_place(offset, u64::from(index));
        let after = pass.at_book(alloc, place, book.filled(alloc, ticket, index)?)?;
        self.put(number, at, value, after);
        Ok(true)
    }

    fn finish_record(&mut self, alloc: Global, number: u32, offset: u32) -> Result<bool, Memory>
        ensures { MatchResult result (Answers self.old number (acts (finish_record offset)) self.new) (λ _. self.new ≡ self.old) }
    {
        let Some(pass) = self.live(number) else {
            return Ok(false);
        };
        let Some((place, book, ticket)) = pass.flying(offset) else {
            return Ok(false);
        };
        let shape = self.shape();
        let row = ticket.row();
        if !is_whole(shape, row, ticket.filled()) {
            return Ok(false);
        }
        if !are_all(shape, row, ticket.linked()) {
            return Ok(false);
        }
        let at = self.ticket_place(offset, shape.ticket_words() - 1);
        let after = pass.at_book(alloc, place, book.finished(alloc, ticket)?)?;
        self.put(number, at, 1, after);
        Ok(true)
    }

    // The pass of that number becomes the one on the left, and the one on the right is the next.
    fn part(&mut self, number: u32, left: PassState, right: PassState) -> Result<(), Memory>
        requires pass { number < length self.old.passes }
        requires lawful { Lawful (layout self.old.shape) self.old.words (set self.old.passes number left ++ right ∷ []) }
        ensures { MatchResult result (λ _. self.new ≡ record { shape = self.old.shape; words = self.old.words; passes = set self.old.passes number left ++ right ∷ [] }) (λ _. self.new ≡ self.old) }
    {
        self.passes.push(right)?;
        self.passes[number as usize] = left;
        Ok(())
    }

    fn split(&mut self, alloc: Global, number: u32, writer: Option<u8>) -> Result<bool, Memory>
        ensures { MatchResult result (Answers self.old number (splits writer) self.new) (λ _. self.new ≡ self.old) }
    {
        let _held = self.shape();
        let Some(pass) = self.live(number) else {
            return Ok(false);
        };
        match writer {
            None => {
                let right = pass.fellow(alloc)?;
                let left = pass.copy(alloc)?;
                self.part(number, left, right)?;
                Ok(true)
            }
            Some(writer) => {
                let Some(place) = pass.book_of(writer) else {
                    return Ok(false);
                };
                let (left, right) = pass.handed(alloc, place)?;
                self.part(number, left, right)?;
                Ok(true)
            }
        }
    }

    // The one pass becomes the joined one, and the other is spent.
    fn unite(&mut self, number: u32, other: u32, joined: PassState, spent: PassState)
        requires pass { number < length self.old.passes }
        requires other { other < length self.old.passes }
        requires lawful { Lawful (layout self.old.shape) self.old.words (set (set self.old.passes number joined) other spent) }
        ensures { self.new ≡ record { shape = self.old.shape; words = self.old.words; passes = set (set self.old.passes number joined) other spent } }
    {
        self.passes[number as usize] = joined;
        self.passes[other as usize] = spent;
    }

    fn join(&mut self, alloc: Global, number: u32, other: u32) -> Result<bool, Memory>
        ensures { MatchResult result (Answers self.old number (joins other) self.new) (λ _. self.new ≡ self.old) }
    {
        let _held = self.shape();
        let Some(pass) = self.live(number) else {
            return Ok(false);
        };
        let Some(there) = self.live(other) else {
            return Ok(false);
        };
        if other == number || !there.is_at_rest() {
            return Ok(false);
        }
        let joined = pass.joined(alloc, there)?;
        self.unite(number, other, joined, PassState::spent(alloc));
        Ok(true)
    }

    /// A world in which nothing has happened: all words are 0, and one pass holds all books, which are empty.
    pub fn new(alloc: Global, shape: Shape) -> Result<World, Memory>
        ensures opening { IfOk result (λ world. world ≡ record { shape = shape; words = (opening (layout shape)).words; passes = (opening (layout shape)).passes }) }
        ensures lawful { IfOk result IsLawfulWorld }
    {
        let _lawful = shape.lanes();
        let words = vec![in alloc; 0; word_total(&shape) as usize]?;
        let books = empty_books(alloc, shape.writers())?;
        let mut passes = Vec::with_capacity(alloc, 1)?;
        passes.push(PassState::newcomer(alloc, books, Vec::new(alloc)))?;
        Ok(World {
            shape,
            words,
            passes,
        })
    }
}

/// Makes the event, where it is lawful, and answers true; answers false exactly where no event of that name is lawful, and
/// then nothing changes. After want of memory nothing has changed either.
pub fn step(alloc: Global, world: &mut World, event: &Event) -> Result<bool, Memory>
    ensures { MatchResult result (Answers world.old event.now.pass (event_of event.now.act) world.new) (λ _. world.new ≡ world.old) }
{
    let k = event.pass;
    match &event.act {
        Act::Ticket(row) => world.take_ticket(alloc, k, row),
        Act::Cell(offset, i, value) => world.store_cell(alloc, k, *offset, *i, *value),
        Act::Done(offset) => world.finish_record(alloc, k, *offset),
        Act::Advance(t) => world.advance(alloc, k, *t),
        Act::LoadTail(asked) => world.load_tail(alloc, k, *asked),
        Act::LookDone(offset) => world.look_done(alloc, k, *offset),
        Act::LoadWord(offset, i) => world.load_word(alloc, k, *offset, *i),
        Act::Label(node, value) => world.label(alloc, k, *node, *value),
        Act::Link(place, node) => world.link(alloc, k, *place, *node),
        Act::Head(lane, node, d, offset) => world.store_head(alloc, k, *lane, *node, *d, *offset),
        Act::LoadChild(place) => world.load_child(alloc, k, *place),
        Act::LoadHead(node, d, writer) => world.load_head(alloc, k, *node, *d, *writer),
        Act::LoadCell(offset, lane, i) => world.load_cell(alloc, k, *offset, *lane, *i),
        Act::Split(writer) => world.split(alloc, k, *writer),
        Act::Join(other) => world.join(alloc, k, *other),
    }
}

// Whether the row is one of the shape's.
fn is_of(shape: &Shape, row: &Row) -> bool
    ensures { IsTrue result ↔ ((layout shape.now).fits row.now ≡ true) }
{
    let _number = row.num();
    fits(shape.schema(), row)
}

fn part(words: &[u64], start: usize, count: usize) -> &[u64]
    requires { start + count ≤ length words.now }
    ensures { result.now ≡ take count (drop start words.now) }
{
    &words[start..start + count]
}

// The read tail after it was moved from `from`, if it stood there.
fn advanced(tail: u64, from: u64) -> u64
    requires { tail ≤ 65536 }
    ensures { result ≡ cond (tail == from) (from + 1) tail }
{
    if tail == from { from + 1 } else { tail }
}

// The passes of a world and their books.
ghost use Rattle.std.specs.Prelude.{◌≡◌, ℕ, ◌+◌, ◌-◌, ◌*◌, ◌^◌, ◌<◌, ◌≤◌, ◌++◌, ◌∷◌, List, [], length, take, IfOk, IsTrue, ◌↔◌, Some, None, MatchOption, slice_get, set, false};
ghost use Rattle.cf_law.specs.Passes.{Book, Pass};
ghost use Rattle.cf_law.specs.Steps.{pass_with_book, pass_with_look, pass_with_tail, book_with_label, book_with_node, pass_with_link, pass_with_child, pass_with_head, pass_with_cell, pass_that_sees, book_with_word, book_with_head, book_with_record, new_pass, spent_pass, joined_pass, without, IsAtRest, HoldsInFlight, Holds, Knows, IsOwn, IsNamed};
ghost use Rattle.cf_law.specs.Events.{tabulated, no_book};
ghost use Rattle.cf_pass.specs.Books.{MayTake, ticketed_at, NoneFlies, NoneHeld, NoneKnown, IsFreeIn, IsFree, NoneFree, HasFinished, HasOpen, Owns, MayRead};

use crate::nodes::{
    KnownNode, NodeSpot, Walk, copy_known, copy_spots, copy_walk, learnt, met_by, walk_on,
};
use cf_row::{Entry, Memory, Row};
use std::alloc::{AllocError, Global};
use std::marker::Model;

/// A finished ticket.
#[derive(Debug, Drop)]
pub struct OwnTicket {
    offset: u32,
    row: Row,
}

impl Model for OwnTicket {
    ghost use Rattle.cf_law.specs.Passes.{Own};

    ghost Value = { Own };

    ghost view = { λ t. record { offset = t.offset; row = t.row } };
}

/// A ticket in flight: how far its words are filled, and the lanes in which it is linked.
#[derive(Debug, Drop)]
pub struct OpenTicket {
    offset: u32,
    row: Row,
    filled: u32,
    linked: Vec<u8>,
}

impl Model for OpenTicket {
    ghost use Rattle.cf_law.specs.Passes.{Flight};

    ghost Value = { Flight };

    ghost view = { λ t. record { offset = t.offset; row = t.row; filled = t.filled; linked = t.linked.items } };
}

/// A writer's book.
#[derive(Debug, Drop)]
pub struct WriterBook {
    writer: u8,
    mine: Vec<OwnTicket>,
    flight: Option<OpenTicket>,
    over: bool,
    used: Vec<NodeSpot>,
    label: u64,
}

impl Model for WriterBook {
    ghost use Rattle.cf_law.specs.Passes.{Book};

    ghost Value = { Book };

    ghost view = { λ b. record { writer = b.writer; mine = b.mine.items; flight = b.flight; over = b.over; used = b.used.items; label = b.label } };
}

// Entries that were seen.
#[derive(Debug, Drop)]
pub(crate) struct Entries {
    items: Vec<Entry>,
}

impl Model for Entries {
    ghost use Rattle.std.specs.Prelude.{List};
    ghost use Rattle.cf_row.specs.declared.row.Entry.{Entry};

    ghost Value = { List Entry };

    ghost view = { λ e. e.items.items };
}

/// A pass: its books, what it has seen, asked and been told, its last load, the nodes that it knows, and its walk.
#[derive(Debug, Drop)]
pub struct PassState {
    books: Vec<WriterBook>,
    seen: Vec<Entry>,
    olds: Vec<Entries>,
    tails: Vec<u64>,
    told: Vec<u64>,
    look_place: u64,
    look_value: u64,
    look_count: u64,
    known: Vec<KnownNode>,
    cursor: Option<Walk>,
    spent: bool,
}

impl Model for PassState {
    ghost use Rattle.cf_law.specs.Passes.{Pass};

    ghost Value = { Pass };

    ghost view = { λ p. record {
      books = p.books.items;
      seen = p.seen.items;
      olds = p.olds.items;
      tails = p.tails.items;
      told = p.told.items;
      look = record { word = p.look_place; value = p.look_value; count = p.look_count };
      known = p.known.items;
      cursor = p.cursor;
      spent = p.spent;
    } };
}

impl OwnTicket {
    /// The ticket's place in the log.
    pub fn offset(&self) -> u32
        ensures { result ≡ self.now.offset }
    {
        self.offset
    }

    /// The ticket's row.
    pub fn row(&self) -> &Row
        ensures { result.now ≡ self.now.row }
    {
        &self.row
    }

    fn copy(&self, alloc: Global) -> Result<OwnTicket, Memory>
        ensures { IfOk result (λ ticket. ticket ≡ self.now) }
    {
        Ok(OwnTicket {
            offset: self.offset,
            row: self.row.copy(alloc)?,
        })
    }
}

impl OpenTicket {
    fn copy(&self, alloc: Global) -> Result<OpenTicket, Memory>
        ensures { IfOk result (λ ticket. ticket ≡ self.now) }
    {
        Ok(OpenTicket {
            offset: self.offset,
            row: self.row.copy(alloc)?,
            filled: self.filled,
            linked: self.linked.to_vec(alloc)?,
        })
    }
}

impl OpenTicket {
    /// The ticket's row.
    pub fn row(&self) -> &Row
        ensures { result.now ≡ self.now.row }
    {
        &self.row
    }

    /// The lanes in which it is linked.
    pub fn linked(&self) -> &[u8]
        ensures { result.now ≡ self.now.linked }
    {
        &self.linked
    }

    /// How many of its words are filled.
    pub fn filled(&self) -> u32
        ensures { result ≡ self.now.filled }
    {
        self.filled
    }
}

fn copy_tickets(alloc: Global, tickets: &[OwnTicket]) -> Result<Vec<OwnTicket>, Memory>
    ensures { IfOk result (λ copied. copied.items ≡ tickets.now) }
{
    let mut copied = Vec::with_capacity(alloc, tickets.len())?;
    for ticket in tickets {
        copied.push(ticket.copy(alloc)?)?;
    }
    Ok(copied)
}

fn copy_entries(alloc: Global, entries: &[Entry]) -> Result<Vec<Entry>, Memory>
    ensures { IfOk result (λ copied. copied.items ≡ entries.now) }
{
    let mut copied = Vec::with_capacity(alloc, entries.len())?;
    for entry in entries {
        copied.push(entry.copy(alloc)?)?;
    }
    Ok(copied)
}

impl Entries {
    fn copy(&self, alloc: Global) -> Result<Entries, Memory>
        ensures { IfOk result (λ entries. entries ≡ self.now) }
    {
        Ok(Entries {
            items: copy_entries(alloc, &self.items)?,
        })
    }
}

fn copy_olds(alloc: Global, olds: &[Entries]) -> Result<Vec<Entries>, Memory>
    ensures { IfOk result (λ copied. copied.items ≡ olds.now) }
{
    let mut copied = Vec::with_capacity(alloc, olds.len())?;
    for old in olds {
        copied.push(old.copy(alloc)?)?;
    }
    Ok(copied)
}

fn copy_flight(alloc: Global, flight: &Option<OpenTicket>) -> Result<Option<OpenTicket>, Memory>
    ensures { IfOk result (λ copied. copied ≡ flight.now) }
{
    match flight {
        Some(ticket) => Ok(Some(ticket.copy(alloc)?)),
        None => Ok(None),
    }
}

impl WriterBook {
    fn copy(&self, alloc: Global) -> Result<WriterBook, Memory>
        ensures { IfOk result (λ book. book ≡ self.now) }
    {
        let mine = copy_tickets(alloc, &self.mine)?;
        let flight = copy_flight(alloc, &self.flight)?;
        let used = copy_spots(alloc, &self.used)?;
        Ok(WriterBook {
            writer: self.writer,
            mine,
            flight,
            over: self.over,
            used,
            label: self.label,
        })
    }
}

impl WriterBook {
    fn open(&self) -> Option<&OpenTicket>
        ensures { MatchOption result (self.now.flight ≡ None) (λ ticket. self.now.flight ≡ Some ticket.now) }
    {
        self.flight.as_ref()
    }

    /// The tickets that the writer has finished, in order.
    pub fn mine(&self) -> &[OwnTicket]
        ensures { result.now ≡ self.now.mine }
    {
        &self.mine
    }

    /// The number of the writer.
    pub fn writer(&self) -> u8
        ensures { result ≡ self.now.writer }
    {
        self.writer
    }

    /// The book once the ticket's words up to that index are filled.
    pub fn filled(
        &self,
        alloc: Global,
        ticket: &OpenTicket,
        index: u32,
    ) -> Result<WriterBook, Memory>
        requires { index < 2 ^ 32 - 1 }
        ensures { IfOk result (λ book. book ≡ book_with_word index self.now ticket.now) }
    {
        let mut book = self.copy(alloc)?;
        let mut ticket = ticket.copy(alloc)?;
        ticket.filled = index + 1;
        book.flight = Some(ticket);
        Ok(book)
    }

    /// The book once the ticket is linked in the lane.
    pub fn headed(&self, alloc: Global, ticket: &OpenTicket, lane: u8) -> Result<WriterBook, Memory>
        ensures { IfOk result (λ book. book ≡ book_with_head lane self.now ticket.now) }
    {
        let mut linked = Vec::with_capacity(alloc, 1)?;
        linked.push(lane)?;
        linked.extend_from_slice(&ticket.linked)?;
        let mut book = self.copy(alloc)?;
        let mut ticket = ticket.copy(alloc)?;
        ticket.linked = linked;
        book.flight = Some(ticket);
        Ok(book)
    }

    /// The book once the ticket is finished.
    pub fn finished(&self, alloc: Global, ticket: &OpenTicket) -> Result<WriterBook, Memory>
        ensures { IfOk result (λ book. book ≡ book_with_record self.now ticket.now) }
    {
        let mut book = self.copy(alloc)?;
        book.mine.push(OwnTicket {
            offset: ticket.offset,
            row: ticket.row.copy(alloc)?,
        })?;
        book.flight = None;
        Ok(book)
    }

    fn has_finished(&self, offset: u32) -> bool
        ensures { IsTrue result ↔ HasFinished self.now offset }
    {
        for ticket in &self.mine {
            if ticket.offset == offset {
                return true;
            }
        }
        false
    }

    fn has_open(&self, offset: u32) -> bool
        ensures { IsTrue result ↔ HasOpen self.now offset }
    {
        match &self.flight {
            Some(ticket) => ticket.offset == offset,
            None => false,
        }
    }

    fn owns(&self, offset: u32) -> bool
        ensures { IsTrue result ↔ Owns self.now offset }
    {
        self.has_finished(offset) || self.has_open(offset)
    }

    // Whether the node is the book's least one that is not used, of so many that a writer has.
    fn is_free_node(&self, nodes: u32, node: u32) -> bool
        ensures { IsTrue result ↔ IsFreeIn nodes self.now node }
    {
        let used = self.used.len() as u64;
        let first = u64::from(self.writer) * u64::from(nodes);
        used < u64::from(nodes) && first + used == u64::from(node)
    }

    /// Whether the label that was stored last is that of the child word at the place.
    pub fn is_labelled(&self, place: u64, spot: &NodeSpot) -> bool
        requires { length spot.now.path < 32 }
        ensures { IsTrue result ↔ (self.now.label ≡ 32 * place + length spot.now.path) }
    {
        self.label / 32 == place && self.label % 32 == spot.level() as u64
    }

    /// The book once the label is stored.
    pub fn labelled(&self, alloc: Global, value: u64) -> Result<WriterBook, Memory>
        ensures { IfOk result (λ book. book ≡ book_with_label value self.now) }
    {
        let mut book = self.copy(alloc)?;
        book.label = value;
        Ok(book)
    }

    // The book once its least free node is used for that lane and prefix.
    fn linked(&self, alloc: Global, spot: &NodeSpot) -> Result<WriterBook, Memory>
        ensures { IfOk result (λ book. book ≡ book_with_node spot.now self.now) }
    {
        let mut book = self.copy(alloc)?;
        book.used.push(spot.copy(alloc)?)?;
        book.label = 0;
        Ok(book)
    }

    fn is_free(&self) -> bool
        ensures { IsTrue result ↔ ((self.now.over ≡ false) × (self.now.flight ≡ None)) }
    {
        !self.over && self.flight.is_none()
    }

    fn ticketed(
        &self,
        alloc: Global,
        capacity: u32,
        tail: u32,
        row: &Row,
    ) -> Result<WriterBook, Memory>
        ensures { IfOk result (λ book. book ≡ ticketed_at capacity row.now tail self.now) }
    {
        let mut book = self.copy(alloc)?;
        if tail < capacity {
            book.flight = Some(OpenTicket {
                offset: tail,
                row: row.copy(alloc)?,
                filled: 0,
                linked: Vec::new(alloc),
            });
        } else {
            book.over = true;
        }
        Ok(book)
    }
}

fn copy_books(alloc: Global, books: &[WriterBook]) -> Result<Vec<WriterBook>, Memory>
    ensures { IfOk result (λ copied. copied.items ≡ books.now) }
{
    let mut copied = Vec::with_capacity(alloc, books.len())?;
    for book in books {
        copied.push(book.copy(alloc)?)?;
    }
    Ok(copied)
}

impl PassState {
    /// An equal pass.
    pub fn copy(&self, alloc: Global) -> Result<PassState, Memory>
        ensures { IfOk result (λ pass. pass ≡ self.now) }
    {
        let books = copy_books(alloc, &self.books)?;
        let seen = copy_entries(alloc, &self.seen)?;
        let olds = copy_olds(alloc, &self.olds)?;
        let tails = self.tails.to_vec(alloc)?;
        let told = self.told.to_vec(alloc)?;
        let known = copy_known(alloc, &self.known)?;
        let cursor = copy_walk(alloc, &self.cursor)?;
        Ok(PassState {
            books,
            seen,
            olds,
            tails,
            told,
            look_place: self.look_place,
            look_value: self.look_value,
            look_count: self.look_count,
            known,
            cursor,
            spent: self.spent,
        })
    }

    /// The pass after a load. The count of loads takes a word, and there is no memory for a greater one.
    pub fn looked(&self, alloc: Global, place: u64, found: u64) -> Result<PassState, Memory>
        ensures { IfOk result (λ pass. pass ≡ pass_with_look place found self.now) }
    {
        let mut pass = self.copy(alloc)?;
        if pass.look_count == u64::MAX {
            return Err(AllocError);
        }
        pass.look_place = place;
        pass.look_value = found;
        pass.look_count += 1;
        Ok(pass)
    }

    /// The pass with that book in place of the one that it holds there.
    pub fn at_book(
        &self,
        alloc: Global,
        place: usize,
        book: WriterBook,
    ) -> Result<PassState, Memory>
        requires { place < length self.now.books }
        ensures { IfOk result (λ pass. pass ≡ pass_with_book place book self.now) }
    {
        let mut pass = self.copy(alloc)?;
        pass.books[place] = book;
        Ok(pass)
    }

    /// The nodes that the pass knows, the last learnt first.
    pub fn known(&self) -> &[KnownNode]
        ensures { result.now ≡ self.now.known }
    {
        &self.known
    }

    /// The lane and prefix of that known node.
    pub fn spot_of(&self, node: u32) -> Option<&NodeSpot>
        ensures { MatchOption result (NoneKnown self.now node) (λ s. Knows self.now s.now node) }
    {
        for known in &self.known {
            if known.node() == u64::from(node) {
                return Some(known.spot());
            }
        }
        None
    }

    /// The book whose least free node that is, and its place.
    pub fn free(&self, nodes: u32, node: u32) -> Option<(usize, &WriterBook)>
        ensures { MatchOption result (NoneFree nodes self.now node) (λ r. IsFree nodes self.now node r.0 r.1.now) }
    {
        for (place, book) in self.books.iter().enumerate() {
            if book.is_free_node(nodes, node) {
                return Some((place, book));
            }
        }
        None
    }

    /// The pass after a link of that book's node was tried at the child word of that lane and prefix.
    pub fn link_tried(
        &self,
        alloc: Global,
        at: usize,
        spot: NodeSpot,
        node: u32,
        found: u64,
    ) -> Result<PassState, Memory>
        requires { at < length self.now.books }
        ensures { IfOk result (λ pass. (b : Book) → Holds self.now at b → pass ≡ pass_with_link at b spot node self.now found) }
    {
        if found != 0 {
            let mut pass = self.copy(alloc)?;
            pass.known = learnt(alloc, spot, found - 1, &self.known)?;
            return Ok(pass);
        }
        let book = self.books[at].linked(alloc, &spot)?;
        let mut pass = self.at_book(alloc, at, book)?;
        pass.known = learnt(alloc, spot, u64::from(node), &self.known)?;
        Ok(pass)
    }

    // Whether the ticket is the pass's own.
    fn owns(&self, offset: u32) -> bool
        ensures { IsTrue result ↔ IsOwn self.now offset }
    {
        for book in &self.books {
            if book.owns(offset) {
                return true;
            }
        }
        false
    }

    // Whether the cursor names the cell of that ticket and lane.
    fn is_named(&self, offset: u32, lane: u8) -> bool
        ensures { IsTrue result ↔ IsNamed self.now offset lane }
    {
        match &self.cursor {
            Some(walk) => walk.names(offset, lane),
            None => false,
        }
    }

    /// Whether the pass may load the cells of that ticket and lane.
    pub fn may_read(&self, offset: u32, lane: u8) -> bool
        ensures { IsTrue result ↔ MayRead self.now offset lane }
    {
        (offset as usize) < self.seen.len() || self.owns(offset) || self.is_named(offset, lane)
    }

    /// The pass after a load of the child word of that lane and prefix.
    pub fn child_loaded(
        &self,
        alloc: Global,
        place: u64,
        spot: NodeSpot,
        found: u64,
    ) -> Result<PassState, Memory>
        ensures { IfOk result (λ pass. pass ≡ pass_with_child place spot self.now found) }
    {
        let mut pass = self.looked(alloc, place, found)?;
        if found != 0 {
            pass.known = learnt(alloc, spot, found - 1, &self.known)?;
        }
        Ok(pass)
    }

    /// The pass after a load of that writer's head in the leaf of that lane and key.
    pub fn head_loaded(
        &self,
        alloc: Global,
        place: u64,
        writer: u8,
        spot: NodeSpot,
        found: u64,
    ) -> Result<PassState, Memory>
        ensures { IfOk result (λ pass. pass ≡ pass_with_head place writer spot self.now found) }
    {
        let mut pass = self.looked(alloc, place, found)?;
        let met = met_by(alloc, &self.cursor)?;
        pass.cursor = Some(Walk::new(alloc, writer, spot, found, met));
        Ok(pass)
    }

    /// The pass after a load of the word of that index of the cell of that ticket and lane.
    pub fn cell_loaded(
        &self,
        alloc: Global,
        place: u64,
        offset: u32,
        lane: u8,
        index: u8,
        found: u64,
    ) -> Result<PassState, Memory>
        ensures { IfOk result (λ pass. pass ≡ pass_with_cell place offset lane index self.now found) }
    {
        let mut pass = self.looked(alloc, place, found)?;
        pass.cursor = walk_on(alloc, &self.cursor, offset, lane, index, found)?;
        Ok(pass)
    }

    /// Whether the pass was joined away.
    pub fn is_spent(&self) -> bool
        ensures { result ≡ self.now.spent }
    {
        self.spent
    }

    /// How many entries the pass has seen.
    pub fn covered(&self) -> usize
        ensures { result ≡ length self.now.seen }
    {
        self.seen.len()
    }

    /// Whether the last load was of that place, and found 1.
    pub fn found_one(&self, place: u64) -> bool
        ensures { IsTrue result ↔ ((self.now.look.word ≡ place) × (self.now.look.value ≡ 1)) }
    {
        self.look_place == place && self.look_value == 1
    }

    /// The pass after a load of the read tail, which found that tail, where these are the entries below it.
    pub fn tail_loaded(
        &self,
        alloc: Global,
        asked: bool,
        tail: u64,
        entries: Vec<Entry>,
    ) -> Result<PassState, Memory>
        requires { length entries.items ≤ tail }
        ensures { IfOk result (λ pass. pass ≡ pass_with_tail asked tail entries.items self.now) }
    {
        let mut pass = self.copy(alloc)?;
        if pass.look_count == u64::MAX {
            return Err(AllocError);
        }
        if asked {
            pass.tails.push(tail)?;
        }
        if (pass.seen.len() as u64) < tail {
            pass.seen = entries;
            pass.cursor = None;
        }
        pass.look_place = 1;
        pass.look_value = tail;
        pass.look_count += 1;
        Ok(pass)
    }

    /// The pass once the read tail is above `tail`, where these are the entries up to that.
    pub fn advanced(
        &self,
        alloc: Global,
        tail: u32,
        entries: Vec<Entry>,
    ) -> Result<PassState, Memory>
        requires { length entries.items ≤ tail + 1 }
        ensures { IfOk result (λ pass. pass ≡ pass_that_sees (tail + 1) entries.items self.now) }
    {
        let mut pass = self.copy(alloc)?;
        if pass.seen.len() <= tail as usize {
            pass.seen = entries;
            pass.cursor = None;
        }
        Ok(pass)
    }

    /// Whether the pass may take a ticket: it holds just one book, which is not marked and has no ticket in flight.
    pub fn may_take(&self) -> bool
        ensures { IsTrue result ↔ MayTake self.now }
    {
        self.books.len() == 1 && self.books[0].is_free()
    }

    /// The pass with a ticket of the row, or with its book marked over where the write tail was at the capacity.
    pub fn ticketed(
        &self,
        alloc: Global,
        capacity: u32,
        tail: u32,
        row: &Row,
    ) -> Result<PassState, Memory>
        requires { MayTake self.now }
        ensures { IfOk result (λ pass. (b : Book) → self.now.books ≡ b ∷ [] → pass ≡ record self.now { books = ticketed_at capacity row.now tail b ∷ [] }) }
    {
        let book = self.books[0].ticketed(alloc, capacity, tail, row)?;
        let mut pass = self.copy(alloc)?;
        let mut books = Vec::new(alloc);
        books.push(book)?;
        pass.books = books;
        Ok(pass)
    }

    /// The ticket in flight of that offset, with its book and the book's place.
    pub fn flying(&self, offset: u32) -> Option<(usize, &WriterBook, &OpenTicket)>
        ensures { MatchOption result (NoneFlies self.now offset) (λ x. HoldsInFlight self.now x.0 x.1.now x.2.now × (x.2.now.offset ≡ offset)) }
    {
        for (place, book) in self.books.iter().enumerate() {
            if let Some(ticket) = book.open() {
                if ticket.offset == offset {
                    return Some((place, book, ticket));
                }
            }
        }
        None
    }

    /// The place of the held book of that writer.
    pub fn book_of(&self, writer: u8) -> Option<usize>
        ensures { MatchOption result (NoneHeld self.now writer) (λ j. (b : Book) × Holds self.now j b × (b.writer ≡ writer)) }
    {
        for (place, book) in self.books.iter().enumerate() {
            if book.writer == writer {
                return Some(place);
            }
        }
        None
    }

    /// Whether no ticket of the pass is in flight.
    pub fn is_at_rest(&self) -> bool
        ensures { IsTrue result ↔ IsAtRest self.now }
    {
        for (place, book) in self.books.iter().enumerate() {
            let _ = place;
            if book.open().is_some() {
                return false;
            }
        }
        true
    }

    /// A pass with these books that has seen as much as these entries.
    pub fn newcomer(alloc: Global, books: Vec<WriterBook>, seen: Vec<Entry>) -> PassState
        ensures { result ≡ new_pass books.items seen.items }
    {
        PassState {
            books,
            seen,
            olds: Vec::new(alloc),
            tails: Vec::new(alloc),
            told: Vec::new(alloc),
            look_place: 0,
            look_value: 0,
            look_count: 0,
            known: Vec::new(alloc),
            cursor: None,
            spent: false,
        }
    }

    /// What a pass is once it was joined away.
    pub fn spent(alloc: Global) -> PassState
        ensures { result ≡ spent_pass }
    {
        let mut pass = PassState::newcomer(alloc, Vec::new(alloc), Vec::new(alloc));
        pass.spent = true;
        pass
    }

    /// A new pass of no book that has seen as much.
    pub fn fellow(&self, alloc: Global) -> Result<PassState, Memory>
        ensures { IfOk result (λ pass. pass ≡ new_pass [] self.now.seen) }
    {
        let seen = copy_entries(alloc, &self.seen)?;
        Ok(PassState::newcomer(alloc, Vec::new(alloc), seen))
    }

    /// The pass without the book at that place, and a new pass of that book that has seen as much.
    pub fn handed(&self, alloc: Global, place: usize) -> Result<(PassState, PassState), Memory>
        requires { place < length self.now.books }
        ensures stays { IfOk result (λ passes. passes.0 ≡ record self.now { books = without place self.now.books }) }
        ensures goes { IfOk result (λ passes. (b : Book) → Holds self.now place b → passes.1 ≡ new_pass (b ∷ []) self.now.seen) }
    {
        let mut left = self.copy(alloc)?;
        left.books = without(alloc, &self.books, place)?;
        let seen = copy_entries(alloc, &self.seen)?;
        let mut books = Vec::with_capacity(alloc, 1)?;
        books.push(self.books[place].copy(alloc)?)?;
        Ok((left, PassState::newcomer(alloc, books, seen)))
    }

    /// The pass once the other was joined into it.
    pub fn joined(&self, alloc: Global, other: &PassState) -> Result<PassState, Memory>
        ensures { IfOk result (λ pass. pass ≡ joined_pass self.now other.now) }
    {
        let books = both_books(alloc, &self.books, &other.books)?;
        let olds = both_seen(alloc, &self.seen, &other.seen)?;
        let mut pass = self.copy(alloc)?;
        pass.told.extend_from_slice(&other.told)?;
        pass.told.extend_from_slice(&other.tails)?;
        if self.seen.len() < other.seen.len() {
            pass.seen = copy_entries(alloc, &other.seen)?;
            pass.cursor = None;
        }
        pass.books = books;
        pass.olds = olds;
        Ok(pass)
    }
}

// The books but the one at that place.
fn without(alloc: Global, books: &[WriterBook], place: usize) -> Result<Vec<WriterBook>, Memory>
    requires { place < length books.now }
    ensures { IfOk result (λ left. left.items ≡ without place books.now) }
{
    let mut left = copy_books(alloc, books)?;
    left.remove(place);
    Ok(left)
}

// The books of the one and then of the other.
fn both_books(
    alloc: Global,
    one: &[WriterBook],
    other: &[WriterBook],
) -> Result<Vec<WriterBook>, Memory>
    ensures { IfOk result (λ books. books.items ≡ one.now ++ other.now) }
{
    let mut books = copy_books(alloc, one)?;
    for book in other {
        books.push(book.copy(alloc)?)?;
    }
    Ok(books)
}

// What the one has seen and what the other has.
fn both_seen(alloc: Global, one: &[Entry], other: &[Entry]) -> Result<Vec<Entries>, Memory>
    ensures { IfOk result (λ olds. olds.items ≡ one.now ∷ (other.now ∷ [])) }
{
    let mut olds = Vec::with_capacity(alloc, 2)?;
    olds.push(Entries {
        items: copy_entries(alloc, one)?,
    })?;
    olds.push(Entries {
        items: copy_entries(alloc, other)?,
    })?;
    Ok(olds)
}

/// Empty books of that many writers.
pub fn empty_books(alloc: Global, writers: u8) -> Result<Vec<WriterBook>, Memory>
    ensures { IfOk result (λ books. books.items ≡ tabulated no_book writers) }
{
    let mut books = Vec::with_capacity(alloc, writers as usize)?;
    for writer in 0..writers {
        books.push(WriterBook {
            writer,
            mine: Vec::new(alloc),
            flight: None,
            over: false,
            used: Vec::new(alloc),
            label: 0,
        })?;
    }
    Ok(books)
}

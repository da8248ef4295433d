// The events of a world.
use cf_row::Row;

/// What a pass does. The first seven are steps, one word each; a split hands over the book of a writer, or none, to a new
/// pass of the next number; a join ends the other pass, and its books come along.
#[derive(Debug, Drop)]
pub enum Act {
    Ticket(Row),
    Cell(u32, u32, u64),
    Done(u32),
    Advance(u32),
    LoadTail(bool),
    LookDone(u32),
    LoadWord(u32, u32),
    Label(u32, u64),
    Link(u64, u32),
    Head(u8, u32, u8, u32),
    LoadChild(u64),
    LoadHead(u32, u8, u8),
    LoadCell(u32, u8, u8),
    Split(Option<u8>),
    Join(u32),
}

/// An act of the pass of that number. Pass 0 is there from the start, with all books.
#[derive(Debug, Drop)]
pub struct Event {
    pub pass: u32,
    pub act: Act,
}

// Why calls are refused.

/// Why a setup is not taken, or a log not opened.
#[derive(Clone, Copy)]
pub enum OpenRefusal {
    /// The setup has that first faulty line, with that code.
    Setup(u32, u8),
    /// The setup is lawful, and a size is out of range.
    Sizes,
    Memory,
}

/// Why no writer is taken.
#[derive(Clone, Copy)]
pub enum TakeRefusal {
    /// All are taken.
    NoWriter,
    Memory,
}

/// Why a row is not appended.
#[derive(Clone, Copy)]
pub enum AppendRefusal {
    /// The log is full.
    Full,
    /// The writer's nodes are used, and the row needs one more.
    Nodes,
    /// The row does not fit the log's schema, or it is a frame's, and the log one of records.
    Unfit,
    /// The frame has 2^32 bytes or more, its link is one that the schema does not read, or `reserved` is not 0.
    Frame,
    Memory,
}

/// Why a question is not answered.
#[derive(Clone, Copy)]
pub enum AskRefusal {
    /// The setup has no such question.
    NoQuestion,
    Memory,
}

/// Why the question of a line is not answered.
#[derive(Clone, Copy)]
pub enum LineRefusal {
    /// Behind the text of the setup, of whose lines it is then the one of that number, the line is faulty, with that code.
    Setup(u32, u8),
    /// The line says no question: it is another statement, or none, or several lines.
    NoQuestion,
    Memory,
}

/// Why no groups are told.
#[derive(Clone, Copy)]
pub enum LaneRefusal {
    /// The setup has no such lane, it measures nothing, or it keeps the rows of a bucket apart by a key.
    NoLane,
    Memory,
}

/// Why no row is read.
#[derive(Clone, Copy)]
pub enum RowRefusal {
    /// The reader has seen no record at that offset.
    NoRow,
    Memory,
}

/// Why no groups are merged.
#[derive(Clone, Copy)]
pub enum MergeRefusal {
    /// The words of one of the lists are no groups, or both are of more than 2^20 numbers together.
    NoGroups,
    Memory,
}

/// Why a log is not closed.
#[derive(Clone, Copy)]
pub enum CloseRefusal {
    /// A writer is taken.
    Busy,
    Memory,
}

/// Why a reader is not added to a span.
#[derive(Clone, Copy)]
pub enum AddRefusal {
    /// Its log has another setup's text than those of the span, or is of another size.
    Unlike,
    /// The logs would take more than 2^20 records.
    Full,
    Memory,
}

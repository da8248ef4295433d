// What callers pass and are shown, as C lays it out.

/// How large a log is.
#[repr(C)]
#[derive(Clone, Copy)]
pub struct Sizes {
    /// How many records it takes, 1 to 65,536.
    pub capacity: u32,
    /// How many writers it has, 1 to 15.
    pub writers: u32,
    /// How many nodes each writer has, at most 65,536.
    pub nodes: u32,
    /// 0.
    pub reserved: u32,
}

/// The first faulty line of a setup, from 1, and the least code of a rule that it breaks.
#[repr(C)]
#[derive(Clone, Copy)]
pub struct Fault {
    pub line: u32,
    pub code: u32,
}

/// How many records an answer is about, the kind of its body, and how many words it has.
#[repr(C)]
#[derive(Clone, Copy)]
pub struct Head {
    pub tail: u32,
    pub kind: u32,
    pub count: u64,
}

/// What a log has room for, how many of its records the writer knows as covered, and how many nodes the writer has left.
#[repr(C)]
#[derive(Clone, Copy)]
pub struct Room {
    pub capacity: u32,
    pub covered: u32,
    pub nodes_left: u32,
    pub reserved: u32,
}

/// What is said of a captured frame beside its bytes.
#[repr(C)]
#[derive(Clone, Copy)]
pub struct Capture {
    /// When it was captured, in nanoseconds since the epoch.
    pub ns: u64,
    /// A number of the caller's, which the row has.
    pub number: u32,
    /// Its length on the wire.
    pub length: u32,
    /// The number of its link-layer header type, at most 65,535.
    pub link: u32,
    /// 0.
    pub reserved: u32,
}

/// A frame of a batch: what is said of it, and where its captured bytes stand in the batch's buffer.
#[repr(C)]
#[derive(Clone, Copy)]
pub struct Framed {
    pub capture: Capture,
    /// How many bytes of the buffer stand before them.
    pub from: u64,
    /// How many bytes they are.
    pub count: u64,
}

/// The value of an attribute.
#[repr(C)]
#[derive(Clone, Copy)]
pub struct ShownValue {
    /// The number; 0 of a string.
    pub number: u64,
    /// 0 for a number, 1 for a string of bytes.
    pub kind: u32,
    /// How many bytes the string has; 0 of a number.
    pub length: u32,
    /// Its bytes, and 0 behind them.
    pub bytes: [u8; 16],
}

/// What is said of a row beside its values: its number, and how many values it has.
#[derive(Clone, Copy)]
pub struct Shown {
    pub number: u32,
    pub count: usize,
}

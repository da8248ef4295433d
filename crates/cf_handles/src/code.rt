// The codes that calls answer, and their texts.
ghost use Rattle.std.specs.Prelude.{◌≡◌};
ghost use Rattle.cf_handles.specs.Codes.{code_number, text_of, open_code, take_code, add_code, append_code, ask_code, close_code, lane_code, line_code, merge_code, row_code, stop_code};

use cf_store::{
    AddRefusal, AppendRefusal, AskRefusal, CloseRefusal, LaneRefusal, LineRefusal, MergeRefusal,
    OpenRefusal, RowRefusal, TakeRefusal,
};

/// What came of a call.
#[derive(Clone, Copy)]
pub enum Code {
    /// The call did what it is for.
    Done = 0,
    /// Out of memory.
    Memory = 1,
    /// A size is out of range, or there is too little room.
    Sizes = 2,
    /// The setup is faulty.
    Setup = 3,
    /// The handle leads to nothing.
    Nothing = 4,
    /// All writers are taken.
    NoWriter = 5,
    /// The log is full.
    Full = 6,
    /// The writer's nodes are used.
    Nodes = 7,
    /// The row does not fit the log's schema.
    Unfit = 8,
    /// The frame is too long, not in the buffer, or of a link that the schema does not read.
    Frame = 9,
    /// The setup has no such question, or the line says none.
    NoQuestion = 10,
    /// The setup has no such lane, it measures nothing, or it keeps the rows of a bucket apart by a key.
    NoLane = 11,
    /// The reader has seen no record there.
    NoRow = 12,
    /// The setup has nothing of that sort and number.
    NoName = 13,
    /// The words are no groups that can be merged.
    NoGroups = 14,
    /// A writer of the log is taken.
    Busy = 15,
    /// The reader's log has another setup or size than those of the span.
    Unlike = 16,
    /// The span has one log, which stays.
    OneLog = 17,
}

impl Code {
    /// Its number.
    pub fn number(self) -> u32
        ensures { result ≡ code_number self }
    {
        self as u32
    }

    /// Of a refused setup or log.
    pub fn of_open(refusal: OpenRefusal) -> Code
        ensures { result ≡ open_code refusal }
    {
        match refusal {
            OpenRefusal::Memory => Code::Memory,
            OpenRefusal::Sizes => Code::Sizes,
            OpenRefusal::Setup(_, _) => Code::Setup,
        }
    }

    /// Of a writer that was not taken.
    pub fn of_take(refusal: TakeRefusal) -> Code
        ensures { result ≡ take_code refusal }
    {
        match refusal {
            TakeRefusal::NoWriter => Code::NoWriter,
            TakeRefusal::Memory => Code::Memory,
        }
    }

    /// Of a row that was not appended.
    pub fn of_append(refusal: AppendRefusal) -> Code
        ensures { result ≡ append_code refusal }
    {
        match refusal {
            AppendRefusal::Full => Code::Full,
            AppendRefusal::Nodes => Code::Nodes,
            AppendRefusal::Unfit => Code::Unfit,
            AppendRefusal::Frame => Code::Frame,
            AppendRefusal::Memory => Code::Memory,
        }
    }

    /// Of a batch that stopped there, or did not.
    pub fn of_stop(stop: Option<AppendRefusal>) -> Code
        ensures { result ≡ stop_code stop }
    {
        match stop {
            Some(refusal) => Code::of_append(refusal),
            None => Code::Done,
        }
    }

    /// Of a line whose question was not answered.
    pub fn of_line(refusal: LineRefusal) -> Code
        ensures { result ≡ line_code refusal }
    {
        match refusal {
            LineRefusal::Setup(_, _) => Code::Setup,
            LineRefusal::NoQuestion => Code::NoQuestion,
            LineRefusal::Memory => Code::Memory,
        }
    }

    /// Of groups that were not told.
    pub fn of_lane(refusal: LaneRefusal) -> Code
        ensures { result ≡ lane_code refusal }
    {
        match refusal {
            LaneRefusal::NoLane => Code::NoLane,
            LaneRefusal::Memory => Code::Memory,
        }
    }

    /// Of groups that were not merged.
    pub fn of_merge(refusal: MergeRefusal) -> Code
        ensures { result ≡ merge_code refusal }
    {
        match refusal {
            MergeRefusal::NoGroups => Code::NoGroups,
            MergeRefusal::Memory => Code::Memory,
        }
    }

    /// Of a log that was not closed.
    pub fn of_close(refusal: CloseRefusal) -> Code
        ensures { result ≡ close_code refusal }
    {
        match refusal {
            CloseRefusal::Busy => Code::Busy,
            CloseRefusal::Memory => Code::Memory,
        }
    }

    /// Of a reader that was not added to a span.
    pub fn of_add(refusal: AddRefusal) -> Code
        ensures { result ≡ add_code refusal }
    {
        match refusal {
            AddRefusal::Unlike => Code::Unlike,
            AddRefusal::Full => Code::Full,
            AddRefusal::Memory => Code::Memory,
        }
    }

    /// Of a row that was not read.
    pub fn of_row(refusal: RowRefusal) -> Code
        ensures { result ≡ row_code refusal }
    {
        match refusal {
            RowRefusal::NoRow => Code::NoRow,
            RowRefusal::Memory => Code::Memory,
        }
    }

    /// Of a question that was not answered.
    pub fn of_ask(refusal: AskRefusal) -> Code
        ensures { result ≡ ask_code refusal }
    {
        match refusal {
            AskRefusal::NoQuestion => Code::NoQuestion,
            AskRefusal::Memory => Code::Memory,
        }
    }
}

/// The text of the code of that number.
pub fn message_of(number: u32) -> &'static [u8]
    ensures { result.now ≡ text_of number }
{
    match number {
        0 => b"done",
        1 => b"out of memory",
        2 => b"a size is out of range, or an array is too short",
        3 => b"the setup is faulty",
        4 => b"the handle leads to nothing",
        5 => b"all writers are taken",
        6 => b"the log is full",
        7 => b"the writer's nodes are used",
        8 => b"the row does not fit the log's schema",
        9 => b"the frame is too long, not in the buffer, or of a link not read",
        10 => b"the setup has no such question, or the line says none",
        11 => b"the setup has no such lane, it measures nothing or is by a key",
        12 => b"the reader has seen no record at that offset",
        13 => b"the setup has nothing of that sort and number",
        14 => b"the words are no groups, or of too many numbers",
        15 => b"a writer of the log is taken",
        16 => b"the reader's log has another setup or size than the span's",
        17 => b"the span has one log, which stays",
        _ => b"no code of confluo",
    }
}

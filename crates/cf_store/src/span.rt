// Readers of logs of one setup that stand one behind the other.
ghost use Rattle.std.specs.Prelude.{◌≡◌, ◌+◌, ◌*◌, [], true, false, length};
ghost use Rattle.std.specs.Box.{box_value};
ghost use Rattle.std.specs.Result.{result_map_both};
ghost use Rattle.cf_store.specs.Spans.{AddsReader, AreLike, AsksSpanAt, AsksSpanSeen, AsksTails, DropsFirst, ReadsSpanRow, ShowsSpanRow, TellsSpanGroups, seen_by, span_of};

use crate::ends::look_on;
use crate::held::{Reader, Shared};
use crate::refusals::{AddRefusal, AskRefusal, LaneRefusal, RowRefusal};
use crate::shown::{Head, Shown, ShownValue};
use crate::values::show_row;
use cf_row::Row;
use cf_table::Pass;
use std::alloc::Global;
use std::marker::Model;

/// Readers of logs of one setup, each of which goes on where the one before is full. They answer as one reader of one log that has the
/// records of all, end to end. A log is looked at only once all is seen that the logs before it take, so what is seen is always the
/// beginning of one history. Places and offsets are counted from the first record of the first log.
#[derive(Drop)]
pub struct Span {
    // the reader of the first log, which has the words of the last answer
    pub(crate) first: Box<Reader>,
    pub(crate) rest: Vec<Reader>,
}

impl Model for Span {
    ghost use Rattle.cf_store.specs.Spans.{IsSpan, SpanValue, span_of};

    ghost Value = { SpanValue };

    ghost view = { λ s. span_of s.first.value s.rest.items };

    ghost invariant = { λ s. IsSpan s.first.value s.rest.items };
}

// Whether the other log has the same text of its setup and the same sizes.
fn are_like(shared: &Shared, other: &Shared) -> bool
    ensures yes { result ≡ true → AreLike shared.now other.now }
    ensures no { result ≡ false → AreLike shared.now other.now → ⊥ }
{
    let (one, more) = (shared.log.shape(), other.log.shape());
    one.capacity() == more.capacity()
        && one.writers() == more.writers()
        && one.nodes() == more.nodes()
        && shared.text.as_slice() == other.text.as_slice()
}

impl Span {
    /// A span of the log of one reader, with the words of that reader's last answer.
    pub fn of(reader: Box<Reader>, alloc: Global) -> Span
        ensures { result ≡ span_of reader.value [] }
    {
        // A log takes at most 65,536 records, as its shape tells.
        let _shape = reader.of.log.shape();
        Span {
            first: reader,
            rest: Vec::new(alloc),
        }
    }

    /// The reader of the log of a span that has one, with the words of the last answer.
    pub fn into_reader(self) -> Box<Reader>
        requires { length self.passes ≡ 1 }
        ensures { span_of result.value [] ≡ self }
    {
        let Span { first, rest: _rest } = self;
        first
    }

    // How many records the logs and one more take.
    fn room_with_one(&self) -> u64
        ensures { result ≡ (length self.now.passes + 1) * self.now.shape.capacity }
    {
        let capacity = u64::from(self.first.of.log.shape().capacity());
        (self.rest.len() as u64 + 2) * capacity
    }

    /// Adds the reader of the log that comes next. A reader that is refused comes back.
    pub fn add(&mut self, reader: Box<Reader>) -> Result<(), (Box<Reader>, AddRefusal)>
        ensures { AddsReader reader.value self.old self.new (result_map_both (λ done. done) (λ back. (box_value back.0, back.1)) result) }
    {
        if !are_like(&self.first.of, &reader.of) {
            return Err((reader, AddRefusal::Unlike));
        }
        if self.room_with_one() > 0x10_0000 {
            return Err((reader, AddRefusal::Full));
        }
        if self.rest.reserve(1).is_err() {
            return Err((reader, AddRefusal::Memory));
        }
        self.rest.push_reserved(Box::into_inner(reader));
        Ok(())
    }

    /// Lets the first log go, unless it is the only one. Says whether it did. What is seen then begins with the log behind it.
    pub fn drop_first(&mut self) -> bool
        ensures { DropsFirst self.old self.new result }
    {
        if self.rest.is_empty() {
            return false;
        }
        let mut next = self.rest.remove(0);
        std::mem::swap(&mut next.words, &mut self.first.words);
        *self.first = next;
        true
    }

    /// How many logs there are.
    pub fn parts(&self) -> usize
        ensures { result ≡ length self.now.passes }
    {
        self.rest.len() + 1
    }

    // How many records are seen.
    fn covered(&self) -> u32
        ensures { result ≡ length (seen_by self.now) }
    {
        self.first.covered_with(&self.rest)
    }

    /// Asks the tails, of each log once all is seen that the log before it takes. Answers how many records are seen.
    pub fn tail(&mut self) -> u32
        ensures asks { AsksTails self.old self.new }
        ensures tail { result ≡ length (seen_by self.new) }
    {
        let capacity = self.first.of.log.shape().capacity();
        self.first.tail();
        look_on(capacity, &self.first.pass, self.rest.as_mut_slice());
        self.covered()
    }

    /// Asks the question of that number in the setup at the tail, and keeps the words of the answer.
    pub fn ask(&mut self, alloc: Global, number: u32) -> Result<Head, AskRefusal>
        ensures { AsksSpanAt number self.old self.new result }
    {
        if number as usize >= self.first.of.setup.asks().len() {
            return Err(AskRefusal::NoQuestion);
        }
        self.tail();
        self.ask_seen(alloc, number)
    }

    /// Asks the question of that number in the setup of what is seen, and keeps the words of the answer.
    pub fn ask_seen(&mut self, alloc: Global, number: u32) -> Result<Head, AskRefusal>
        ensures { AsksSpanSeen number self.old self.new result }
    {
        self.first.ask_with(alloc, self.rest.as_mut_slice(), number)
    }

    /// Tells the groups of a lane in what is seen, and keeps their words: of each group its key, and its quad. A lane that keeps the rows
    /// of a bucket apart is refused, as one that is not there.
    pub fn groups(&mut self, alloc: Global, lane: u32) -> Result<Head, LaneRefusal>
        ensures { TellsSpanGroups lane self.old self.new result }
    {
        self.first
            .groups_with(alloc, self.rest.as_mut_slice(), lane)
    }

    /// The row at an offset that is seen.
    pub fn row(&mut self, alloc: Global, offset: u32) -> Result<Row, RowRefusal>
        ensures { ReadsSpanRow offset self.old self.new result }
    {
        if offset >= self.covered() {
            return Err(RowRefusal::NoRow);
        }
        let capacity = self.first.of.log.shape().capacity();
        let (part, place) = (offset / capacity, offset % capacity);
        if part == 0 {
            return self.first.row(alloc, place);
        }
        self.rest[part as usize - 1].row(alloc, place)
    }

    /// Shows the row at an offset that is seen: its number, and its values as far as there is room.
    pub fn show_row(
        &mut self,
        alloc: Global,
        offset: u32,
        out: &mut [ShownValue],
    ) -> Result<Shown, RowRefusal>
        ensures { ShowsSpanRow offset self.old self.new out.old out.new result }
    {
        let row = self.row(alloc, offset)?;
        Ok(Shown {
            number: row.num(),
            count: show_row(self.first.of.log.shape().schema(), &row, out),
        })
    }

    /// The words of the last answer.
    pub fn words(&self) -> &[u64]
        ensures { result.now ≡ self.now.words }
    {
        self.first.words()
    }
}

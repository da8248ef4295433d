// The numbers and the writers of a log's entries: all that a text tells of them.
ghost use Rattle.std.specs.Prelude.{◌≡◌, ◌<◌, length, IfOk};
ghost use Rattle.cf_plain.specs.Asks.{rows_in, row_at};
ghost use Rattle.cf_report.specs.Runs.{IsWriterAt};
ghost use Rattle.cf_report.specs.Tags.{bare, bare_log};

use cf_row::{Entry, Memory};
use std::alloc::Global;
use std::marker::Model;

/// The numbers in the input and the writers of the entries of a log, in its order. Contracts see entries with these numbers and
/// writers, and rows without values.
#[derive(Drop)]
pub struct Tags {
    nums: Vec<u32>,
    writers: Vec<u8>,
}

impl Model for Tags {
    ghost use Rattle.std.specs.Prelude.{◌≡◌, List, length};
    ghost use Rattle.cf_row.specs.declared.row.Entry.{Entry as EntryValue};
    ghost use Rattle.cf_report.specs.Tags.{bare_log};

    ghost Value = { List EntryValue };

    ghost view = { λ t. bare_log t.nums.items t.writers.items };

    ghost invariant = { λ t. length t.writers.items ≡ length t.nums.items };
}

impl Tags {
    /// The numbers and the writers of as many entries.
    pub fn new(nums: Vec<u32>, writers: Vec<u8>) -> Tags
        requires { length writers.items ≡ length nums.items }
        ensures { result ≡ bare_log nums.items writers.items }
    {
        Tags { nums, writers }
    }

    /// Those of the entries.
    pub fn of(alloc: Global, entries: &[Entry]) -> Result<Tags, Memory>
        ensures { IfOk result (λ tags. tags ≡ bare entries.now) }
    {
        let mut nums = Vec::with_capacity(alloc, entries.len())?;
        let mut writers = Vec::with_capacity(alloc, entries.len())?;
        for entry in entries {
            nums.push(entry.row.num())?;
            writers.push(entry.writer)?;
        }
        Ok(Tags { nums, writers })
    }

    /// How many entries there are.
    pub fn len(&self) -> usize
        ensures { result ≡ length self.now }
    {
        self.nums.len()
    }

    // The number of the entry at a place.
    pub(crate) fn num_at(&self, place: usize) -> u32
        requires { place < length self.now }
        ensures { result ≡ (row_at (rows_in self.now) place).num }
    {
        self.nums[place]
    }

    // Its writer.
    pub(crate) fn writer_at(&self, place: usize) -> u8
        requires { place < length self.now }
        ensures { IsWriterAt self.now place result }
    {
        self.writers[place]
    }
}

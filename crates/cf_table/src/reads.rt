// Entries are read back.
ghost use Rattle.std.specs.Prelude.{◌≡◌, ◌+◌, ◌<◌, ◌≤◌, length, slice_get, Some, IfOk};
ghost use Rattle.cf_row.specs.Words.{word_count as word_count_of};
ghost use Rattle.cf_row.specs.declared.words.TheConstants.{MOST_WORDS};
ghost use Rattle.cf_table.specs.Loads.{CountsLoads};
ghost use Rattle.cf_table.specs.Values.{IsOf};
ghost use Rattle.cf_table.specs.Moves.{OnlyLooked, AreWordsAt};

use crate::count::Steps;
use crate::log::MultiLog;
use crate::pass::{Pass, Root};
use cf_row::{Entry, MOST_WORDS, Memory, row_of, word_count};
use std::alloc::Global;
use std::marker::Brand;
use std::sync::ledger::{Blank, Ledger};

impl MultiLog {
    // Loads the words of attributes and tag of the entry at that offset.
    fn load_words<P: Pass, L: Ledger>(
        &self,
        pass: &mut P,
        offset: u32,
        words: &mut [u64],
        steps: &mut Steps<L>,
    )
        requires of { IsOf (P.held pass.old) self.now }
        requires covered { offset < length (P.held pass.old).view.seen }
        requires long { length words.old ≡ word_count_of self.now.shape.schema + 1 }
        requires few { length words.old ≤ MOST_WORDS }
        ensures words { AreWordsAt self.now.shape (P.held pass.old).view.seen offset words.new }
        ensures looked { OnlyLooked (P.held pass.old) (P.held pass.new) }
        ensures steps { steps.new ≡ steps.old + length words.old }
        ensures loads { CountsLoads (P.held pass.old) (P.held pass.new) steps.old steps.new }
    {
        // No more is covered than there are places, as the first load tells.
        let place = offset.min(self.shape().capacity() - 1);
        for i in 0..words.len() {
            words[i] = self.load_word(pass, place, i as u8, steps);
        }
    }

    /// The entry at that offset, which the pass knows as covered. Its attribute words and its tag are read, one step each, and
    /// no others. If memory runs out, there is no entry, and the pass has looked at those words alone.
    pub fn load_entry<P: Pass, L: Ledger>(
        &self,
        alloc: Global,
        pass: &mut P,
        offset: u32,
        steps: &mut Steps<L>,
    ) -> Result<Entry, Memory>
        requires of { IsOf (P.held pass.old) self.now }
        requires covered { offset < length (P.held pass.old).view.seen }
        ensures entry { IfOk result (λ entry. slice_get (P.held pass.old).view.seen offset ≡ Some entry) }
        ensures looked { OnlyLooked (P.held pass.old) (P.held pass.new) }
        ensures steps { steps.new ≡ steps.old + (word_count_of self.now.shape.schema + 1) }
        ensures loads { CountsLoads (P.held pass.old) (P.held pass.new) steps.old steps.new }
    {
        let schema = self.shape().schema();
        let mut buffer = [0u64; MOST_WORDS];
        let words = &mut buffer[..word_count(schema) + 1];
        self.load_words(pass, offset, words, steps);
        row_of(alloc, schema, words)
    }

    /// The log's entries, which are those that the root has seen, in the order of their offsets. Only the root's last look is
    /// another then, also after want of memory.
    pub fn entries(&self, alloc: Global, root: &mut Root) -> Result<Vec<Entry>, Memory>
        requires of { IsOf root.old self.now }
        ensures entries { IfOk result (λ entries. entries.items ≡ root.old.view.seen) }
        ensures looked { OnlyLooked root.old root.new }
    {
        entries_counted::<Brand>(self, alloc, root, Blank::new(1))
    }
}

// All entries that the root has seen. No one asks for the count of steps.
fn entries_counted<L: Ledger>(
    log: &MultiLog,
    alloc: Global,
    root: &mut Root,
    blank: Blank,
) -> Result<Vec<Entry>, Memory>
    requires of { IsOf root.old log.now }
    requires blank { (blank.name ≡ L.name) × (blank.parts ≡ L.parts) × (0 < L.parts) }
    ensures entries { IfOk result (λ entries. entries.items ≡ root.old.view.seen) }
    ensures looked { OnlyLooked root.old root.new }
{
    let mut steps = Steps::<L>::new(blank);
    let mut entries = Vec::with_capacity(alloc, root.covered() as usize)?;
    for offset in 0..root.covered() {
        let entry = log.load_entry(alloc, root, offset, &mut steps)?;
        entries.push(entry)?;
    }
    Ok(entries)
}

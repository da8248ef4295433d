// Rows that are kept as words.
ghost use Rattle.std.specs.Prelude.{◌≡◌, ◌+◌, ◌<◌, ◌≤◌, ◌^◌, ◌++◌, ◌∷◌, [], All, length, take, drop, is_ok, IfOk, OnOk, if◌then◌else◌, slice_index_or};
ghost use Rattle.cf_row.specs.Row.{Fits};
ghost use Rattle.cf_row.specs.declared.row.Value.TheVariants.{Num};

use cf_load::BATCH;
use cf_row::{MOST_WORDS, Memory, Row, Schema, row_of, word_count, words_of};
use std::alloc::Global;
use std::marker::Model;

/// Rows of a schema, which are kept as the words that spell them, side by side: about half of what the rows take.
#[derive(Drop)]
pub(crate) struct SpelledRows {
    schema: Schema,
    words: Vec<u64>,
}

impl Model for SpelledRows {
    ghost use Rattle.cf_long.specs.SpelledRows.{AreRowWords, KeptValue, rows_kept};

    ghost Value = { KeptValue };

    ghost view = { λ k. record { schema = k.schema; rows = rows_kept k.schema k.words.items } };

    ghost invariant = { λ k. AreRowWords k.schema k.words.items };
}

// So many of the words, from there on.
fn part(words: &[u64], at: usize, count: usize) -> &[u64]
    requires { at + count ≤ length words.now }
    ensures { result.now ≡ take count (drop at words.now) }
{
    &words[at..at + count]
}

impl SpelledRows {
    /// No row.
    pub(crate) fn new(alloc: Global, schema: &Schema) -> Result<SpelledRows, Memory>
        ensures { IfOk result (λ kept. kept ≡ record { schema = schema.now; rows = [] }) }
    {
        Ok(SpelledRows {
            schema: schema.copy(alloc)?,
            words: Vec::new(alloc),
        })
    }

    // Keeps one row more. If there is no memory for it, the rows stay.
    fn push(&mut self, row: &Row) -> Result<(), Memory>
        requires fits { Fits self.old.schema row.now }
        ensures { self.new ≡ record self.old { rows = if is_ok result then self.old.rows ++ row.now ∷ [] else self.old.rows } }
    {
        // The number of a row has 32 bits.
        let _num = row.num();
        let mut buffer = [0; MOST_WORDS];
        let spelled = &mut buffer[..word_count(&self.schema) + 1];
        words_of(&self.schema, row, 0, spelled);
        self.words.extend_from_slice(spelled)
    }

    /// Keeps these rows behind those before.
    pub(crate) fn push_all(&mut self, rows: &[Row]) -> Result<(), Memory>
        requires fit { All (Fits self.old.schema) rows.now }
        ensures schema { self.new.schema ≡ self.old.schema }
        ensures rows { OnOk result (self.new.rows ≡ self.old.rows ++ rows.now) }
    {
        for row in rows {
            self.push(row)?;
        }
        Ok(())
    }

    /// How many rows are kept.
    pub(crate) fn count(&self) -> usize
        ensures { result ≡ length self.now.rows }
    {
        self.words.len() / (word_count(&self.schema) + 1)
    }

    // The row at that place.
    fn at(&self, alloc: Global, place: usize) -> Result<Row, Memory>
        requires within { place < length self.now.rows }
        ensures { IfOk result (λ row. row ≡ slice_index_or self.now.rows place (record { num = 0; values = [] })) }
    {
        let width = word_count(&self.schema) + 1;
        let words = part(&self.words, place * width, width);
        Ok(row_of(alloc, &self.schema, words)?.row)
    }

    /// The rows from that place on, as many as a batch has, or as there are.
    pub(crate) fn batch(&self, alloc: Global, from: usize) -> Result<Vec<Row>, Memory>
        ensures { IfOk result (λ rows. rows.items ≡ take 4096 (drop from self.now.rows)) }
    {
        let count = self.count().saturating_sub(from).min(BATCH);
        let mut rows = Vec::with_capacity(alloc, count)?;
        for place in 0..count {
            rows.push(self.at(alloc, from + place)?)?;
        }
        Ok(rows)
    }
}

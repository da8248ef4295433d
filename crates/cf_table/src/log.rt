// The log: the words, and what they are for.
ghost use Rattle.std.specs.Prelude.{◌≡◌, ◌+◌, ◌<◌, ◌≤◌, IfOk, map, vec_capacity};
ghost use Rattle.cf_law.specs.Events.{tabulated, no_book};
ghost use Rattle.cf_table.specs.Moves.{note_of, HoldsAllBooks};
ghost use Rattle.cf_shape.specs.Lanes.{IsShape};
ghost use Rattle.cf_table.specs.Rule.{root_pass};

use crate::pass::{Note, PassWith, Root};
use crate::rule::{Law, Token, View};
use atomic_table::Table;
use cf_row::Memory;
use cf_shape::{Shape, word_total};
use std::alloc::Global;
use std::marker::Model;

/// A log that threads share by `&`. Contracts see its shape, by which its words are laid out and questions go, and which table
/// it has.
#[derive(Drop)]
pub struct MultiLog {
    pub(crate) table: Table<(), View, Shape, Law, Global>,
    pub(crate) shape: Shape,
}

impl Model for MultiLog {
    ghost use Rattle.std.specs.Prelude.{◌≡◌};
    ghost use Rattle.cf_shape.specs.Lanes.{IsShape};
    ghost use Rattle.cf_shape.specs.Places.{sizes_of, word_total};
    ghost use Rattle.cf_table.specs.Values.{LogValue};

    ghost Value = { LogValue };

    ghost view = { λ m. record { shape = m.shape; table = m.table.shared.table_id } };

    ghost invariant = { λ m. (m.table.shared.key ≡ m.shape) × IsShape m.shape × (m.table.shared.table_id.words ≡ word_total (sizes_of m.shape)) };
}

impl MultiLog {
    /// An empty log of the shape, with all words 0, and the pass that holds all its books. The only error is that memory runs out.
    pub fn open(alloc: Global, shape: Shape) -> Result<(MultiLog, Root), Memory>
        ensures shape { IfOk result (λ r. r.0.shape ≡ shape) }
        ensures root { IfOk result (λ r. r.1 ≡ record { table = r.0.table; id = 0; nodes = r.0.shape.nodes; view = root_pass r.0.shape }) }
        ensures home { IfOk result (λ r. HoldsAllBooks r.0.shape r.1.view) }
    {
        let _lawful = shape.lanes();
        let nodes = shape.nodes();
        let notes = first_notes(alloc, shape.writers())?;
        let words = vec![in alloc; 0u64; word_total(&shape) as usize]?;
        let (table, seat) = Table::of_words(alloc, words.as_slice(), &shape)?;
        let token = Token {
            seat,
            covered: 0,
            nodes,
        };
        let log = MultiLog { table, shape };
        Ok((log, PassWith { token, notes }))
    }

    /// The shape that the log was opened with.
    pub fn shape(&self) -> &Shape
        ensures shape { result.now ≡ self.now.shape }
        ensures lawful { IsShape self.now.shape }
    {
        let _lawful = self.shape.lanes();
        &self.shape
    }
}

// The notes of empty books.
fn first_notes(alloc: Global, writers: u8) -> Result<Vec<Note>, Memory>
    requires { writers ≤ 15 }
    ensures notes { IfOk result (λ notes. notes.items ≡ map note_of (tabulated no_book writers)) }
    ensures room { IfOk result (λ notes. 16 ≤ vec_capacity notes) }
{
    let mut notes = Vec::with_capacity(alloc, 16)?;
    for writer in 0..writers {
        notes.push_reserved(Note {
            writer,
            over: false,
            used: 0,
        });
    }
    Ok(notes)
}

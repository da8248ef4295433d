// The list of one thread.
ghost use Rattle.std.specs.Prelude.{◌≡◌, ℕ, ◌<◌, ◌≤◌, ◌^◌, ◌∷◌, [], ◌++◌, length, map, true, IfOk, OnErr};
ghost use Rattle.cf_row.specs.Row.{Fits};
ghost use Rattle.cf_shape.specs.Uses.{is_measured};
ghost use Rattle.cf_plain.specs.Asks.{Suits, eval, rows_in};
ghost use Rattle.cf_plain.specs.Groups.{as_group, groups as groups_by};

use crate::scan::{grouped_by, groups_of, marks_of, places_of, tops_of, total_of};
use crate::{Answer, Ask, Body, Group, read_keys, total_of_expr};
use cf_row::{Entry, Memory, Row};
use cf_shape::Shape;
use std::alloc::Global;
use std::marker::Model;

/// A log of one thread: a shape, and the entries that were appended, in order. A question is answered by going over
/// them. There are at most 2^20.
#[derive(Debug, Drop)]
pub struct Plain {
    shape: Shape,
    entries: Vec<Entry>,
}

impl Model for Plain {
    ghost use Rattle.cf_plain.specs.Asks.{PlainValue, IsPlainList};

    ghost Value = { PlainValue };

    ghost view = { λ p. record { shape = p.shape; entries = p.entries.items } };

    ghost invariant = { λ p. IsPlainList (record { shape = p.shape; entries = p.entries.items }) };
}

impl Plain {
    ghost use Rattle.cf_plain.specs.Asks.{IsPlainList};

    /// The empty log of that shape. It takes no memory; `alloc` is kept for the entries.
    pub fn new(alloc: Global, shape: Shape) -> Plain
        ensures shape { result.shape ≡ shape }
        ensures empty { result.entries ≡ [] }
    {
        Plain {
            shape,
            entries: Vec::new(alloc),
        }
    }

    /// The log's shape.
    pub fn shape(&self) -> &Shape
        ensures { result.now ≡ self.now.shape }
    {
        &self.shape
    }

    /// The entries, in the order in which they were appended.
    pub fn entries(&self) -> &[Entry]
        ensures entries { result.now ≡ self.now.entries }
        ensures held { IsPlainList self.now }
    {
        self.entries.as_slice()
    }

    /// Appends the row as that writer's and returns its place, the number of entries before it. If memory runs out, the log
    /// is unchanged and the row is lost.
    pub fn append(&mut self, writer: u8, row: Row) -> Result<u32, Memory>
        requires few { length self.old.entries < 2 ^ 20 }
        requires fits { Fits self.old.shape.schema row }
        ensures shape { self.new.shape ≡ self.old.shape }
        ensures ok { IfOk result (λ offset. (offset ≡ length self.old.entries) × (self.new.entries ≡ self.old.entries ++ record { writer = writer; row = row } ∷ [])) }
        ensures err { OnErr result (self.new.entries ≡ self.old.entries) }
    {
        let offset = self.entries.len() as u32;
        self.entries.push(Entry { writer, row })?;
        Ok(offset)
    }

    /// The answer to the question on all entries, and their number. It fails only if memory runs out.
    pub fn ask(&self, alloc: Global, ask: &Ask) -> Result<Answer, Memory>
        requires suits { Suits self.now.shape ask.now }
        ensures { IfOk result (λ answer. (answer.tail ≡ length self.now.entries) × (answer.body ≡ eval self.now.shape ask.now self.now.entries)) }
    {
        let tail = self.entries.len() as u32;
        let body = self.body(alloc, ask)?;
        Ok(Answer { tail, body })
    }

    /// The groups of the lane's rows, ascending by key: for each key that a selected row has, the quad of what the lane
    /// measures of the rows with that key. It fails only if memory runs out.
    pub fn groups(&self, alloc: Global, lane: u8) -> Result<Vec<Group>, Memory>
        requires lane { lane < length self.now.shape.lanes }
        requires measured { is_measured self.now.shape lane ≡ true }
        ensures { IfOk result (λ found. found.items ≡ map as_group (groups_by self.now.shape lane (rows_in self.now.entries))) }
    {
        let found = grouped_by(alloc, &self.shape, lane, self.entries.as_slice())?;
        read_keys(&found);
        Ok(found)
    }

    fn body(&self, alloc: Global, ask: &Ask) -> Result<Body, Memory>
        requires suits { Suits self.now.shape ask.now }
        ensures { IfOk result (λ body. body ≡ eval self.now.shape ask.now self.now.entries) }
    {
        let shape = &self.shape;
        let entries = self.entries.as_slice();
        match ask {
            Ask::List(_) => Ok(Body::Places(places_of(alloc, shape, ask, entries)?)),
            Ask::Find(_, _, _) => Ok(Body::Places(places_of(alloc, shape, ask, entries)?)),
            Ask::Between(_, _, _) => Ok(Body::Places(places_of(alloc, shape, ask, entries)?)),
            Ask::Measure(lane, _, _) => Ok(Body::Total(total_of(shape, ask, *lane, entries))),
            Ask::Fired(trigger) => Ok(Body::Marks(marks_of(alloc, shape, trigger, entries)?)),
            Ask::Top(lane, part, count) => {
                let tops = tops_of(alloc, shape, *lane, *part, *count, entries)?;
                Ok(Body::Tops(tops))
            }
            Ask::Groups(lane) => Ok(Body::Groups(groups_of(alloc, shape, *lane, entries)?)),
            Ask::Total(attr, expr) => {
                let total = total_of_expr(shape.schema(), *attr, expr, entries);
                Ok(Body::Total(total))
            }
        }
    }
}

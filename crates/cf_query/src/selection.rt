// The entries of a log that an expression selects, by the words that it compares.
ghost use Rattle.std.specs.Prelude.{◌≡◌, ◌<◌, length, true, slice_get, IfOk};
ghost use Rattle.std.specs.List.{list_all};
ghost use Rattle.cf_row.specs.Expr.{IsOfSchema, atom_holds, holds_of};
ghost use Rattle.cf_row.specs.Row.{value_at};
ghost use Rattle.cf_row.specs.Words.{words_of_kind as words_of_kind_of};
ghost use Rattle.cf_row.specs.declared.row.Value.TheVariants.{Num};
ghost use Rattle.cf_row.specs.declared.schema.TheConstants.{MOST_ATTRS};
ghost use Rattle.cf_shape.specs.Lanes.{IsShape, is_number, option_passes};
ghost use Rattle.cf_table.specs.Moves.{AreFit};
ghost use Rattle.cf_plain.specs.Asks.{row_at, rows_in};
ghost use Rattle.cf_query.specs.Selecting.{ArePlaces, compare_numbers, compares_number, is_plain as is_plain_of};
ghost use Rattle.cf_query.specs.Looking.{HasLooked, IsCovered};

use cf_row::{Atom, Conjunction, Expr, Kind, MOST_ATTRS, Memory, Schema, Value, holds};
use cf_table::{MultiLog, Pass, Steps};
use std::alloc::Global;
use std::marker::Model;
use std::sync::ledger::Ledger;

// How many words the values of a kind take.
fn words_of_kind(kind: Kind) -> u8
    ensures { result ≡ words_of_kind_of kind }
{
    match kind {
        Kind::Bytes(size) if size > 8 => 2,
        _ => 1,
    }
}

// For each attribute the place of its first word among the words of an entry.
fn places_of(schema: &Schema) -> [u8; MOST_ATTRS]
    ensures places { ArePlaces schema.now result }
    ensures long { length result ≡ MOST_ATTRS }
{
    let attrs = schema.attrs();
    let mut places = [0; MOST_ATTRS];
    let mut word = 0;
    for place in 0..attrs.len() {
        places[place] = word;
        word += words_of_kind(attrs[place].kind);
    }
    places
}

fn is_plain(value: Value) -> bool
    ensures { result ≡ is_plain_of value }
{
    match value {
        Value::Num(_) => true,
        Value::Raw { .. } => false,
    }
}

fn are_plain(atoms: &[Atom]) -> bool
    ensures { result ≡ list_all (λ atom. is_plain_of atom.low) atoms.now }
{
    atoms.iter().all(|atom| is_plain(atom.low))
}

// Whether each atom of the conjunctions compares a number.
fn each_is_plain(conjunctions: &[Conjunction]) -> bool
    ensures { result ≡ list_all (list_all (λ atom. is_plain_of atom.low)) conjunctions.now }
{
    conjunctions
        .iter()
        .all(|conjunction| are_plain(conjunction.atoms()))
}

// A log, an expression that selects entries of it, and where the words of each attribute lie.
#[derive(Drop)]
pub(crate) struct Selection<'a> {
    log: &'a MultiLog,
    alloc: Global,
    expr: &'a Expr,
    places: [u8; MOST_ATTRS],
    // Whether the expression compares numbers alone.
    numbers: bool,
}

impl<'a> Model for Selection<'a> {
    ghost use Rattle.std.specs.Prelude.{◌≡◌, length, true};
    ghost use Rattle.cf_row.specs.Expr.{IsOfSchema};
    ghost use Rattle.cf_row.specs.declared.schema.TheConstants.{MOST_ATTRS};
    ghost use Rattle.cf_query.specs.Selecting.{ArePlaces, SelectionValue, compare_numbers};

    ghost Value = { SelectionValue };

    ghost view = { λ s. record { log = s.log.now; expr = s.expr.now } };

    ghost invariant = { λ s. IsOfSchema s.log.now.shape.schema s.expr.now × ArePlaces s.log.now.shape.schema s.places × (length s.places ≡ MOST_ATTRS)
        × (s.numbers ≡ true → compare_numbers s.log.now.shape.schema s.expr.now ≡ true) };
}

impl<'a> Selection<'a> {
    pub(crate) fn new(log: &'a MultiLog, alloc: Global, expr: &'a Expr) -> Selection<'a>
        requires suits { IsOfSchema log.now.shape.schema expr.now }
        ensures log { result.log ≡ log.now }
        ensures expr { result.expr ≡ expr.now }
        ensures lawful { IsShape log.now.shape }
    {
        Selection {
            log,
            alloc,
            expr,
            places: places_of(log.shape().schema()),
            numbers: each_is_plain(expr.conjunctions()),
        }
    }

    // The number of the attribute in the entry at that offset. Its word is loaded, and no other.
    pub(crate) fn number<P: Pass, L: Ledger>(
        &self,
        pass: &mut P,
        offset: u32,
        attr: u8,
        steps: &mut Steps<L>,
    ) -> u64
        requires covered { IsCovered self.now.log (P.held pass.old) offset }
        requires number { option_passes is_number (slice_get self.now.log.shape.schema attr) ≡ true }
        ensures number { value_at (row_at (rows_in (P.held pass.old).view.seen) offset) attr ≡ Num result }
        ensures looked { HasLooked (P.held pass.old) (P.held pass.new) steps.old steps.new }
    {
        // No more is covered than there are places, as the load tells.
        let place = offset.min(self.log.shape().capacity() - 1);
        let word = self.places[attr as usize];
        self.log.load_word(pass, place, word, steps)
    }

    // Whether the atom, which compares a number, is true of the entry at that offset.
    fn compares<P: Pass, L: Ledger>(
        &self,
        pass: &mut P,
        offset: u32,
        atom: &Atom,
        steps: &mut Steps<L>,
    ) -> bool
        requires covered { IsCovered self.now.log (P.held pass.old) offset }
        requires number { compares_number self.now.log.shape.schema atom.now ≡ true }
        ensures holds { result ≡ atom_holds (row_at (rows_in (P.held pass.old).view.seen) offset) atom.now }
        ensures looked { HasLooked (P.held pass.old) (P.held pass.new) steps.old steps.new }
    {
        let number = self.number(pass, offset, atom.attr, steps);
        atom.op
            .compares(number, atom.low.number(), atom.high.number())
    }

    // Whether all these atoms, which compare numbers, are true of the entry at that offset.
    fn all_compare<P: Pass, L: Ledger>(
        &self,
        pass: &mut P,
        offset: u32,
        atoms: &[Atom],
        steps: &mut Steps<L>,
    ) -> bool
        requires covered { IsCovered self.now.log (P.held pass.old) offset }
        requires numbers { list_all (compares_number self.now.log.shape.schema) atoms.now ≡ true }
        ensures hold { result ≡ list_all (atom_holds (row_at (rows_in (P.held pass.old).view.seen) offset)) atoms.now }
        ensures looked { HasLooked (P.held pass.old) (P.held pass.new) steps.old steps.new }
    {
        for atom in atoms {
            if !self.compares(pass, offset, atom, steps) {
                return false;
            }
        }
        true
    }

    // Whether the expression, which compares numbers alone, holds of the entry at that offset.
    fn any_compares<P: Pass, L: Ledger>(
        &self,
        pass: &mut P,
        offset: u32,
        steps: &mut Steps<L>,
    ) -> bool
        requires covered { IsCovered self.now.log (P.held pass.old) offset }
        requires numbers { compare_numbers self.now.log.shape.schema self.now.expr ≡ true }
        ensures holds { result ≡ holds_of self.now.expr (row_at (rows_in (P.held pass.old).view.seen) offset) }
        ensures looked { HasLooked (P.held pass.old) (P.held pass.new) steps.old steps.new }
    {
        for conjunction in self.expr.conjunctions() {
            if self.all_compare(pass, offset, conjunction.atoms(), steps) {
                return true;
            }
        }
        false
    }

    // Whether the expression holds of the entry at that offset, by all its words. Kept out of `selects`, which seldom calls it.
    #[inline(never)]
    fn selects_whole<P: Pass, L: Ledger>(
        &self,
        pass: &mut P,
        offset: u32,
        steps: &mut Steps<L>,
    ) -> Result<bool, Memory>
        requires covered { IsCovered self.now.log (P.held pass.old) offset }
        requires fit { AreFit self.now.log.shape (P.held pass.old).view }
        ensures holds { IfOk result (λ holds. holds ≡ holds_of self.now.expr (row_at (rows_in (P.held pass.old).view.seen) offset)) }
        ensures looked { HasLooked (P.held pass.old) (P.held pass.new) steps.old steps.new }
    {
        let entry = self.log.load_entry(self.alloc, pass, offset, steps)?;
        Ok(holds(self.log.shape().schema(), self.expr, &entry.row))
    }

    // Whether the expression selects the entry at that offset. The words that it compares are loaded, up to those that
    // decide; of an expression that compares bytes all words.
    pub(crate) fn selects<P: Pass, L: Ledger>(
        &self,
        pass: &mut P,
        offset: u32,
        steps: &mut Steps<L>,
    ) -> Result<bool, Memory>
        requires covered { IsCovered self.now.log (P.held pass.old) offset }
        requires fit { AreFit self.now.log.shape (P.held pass.old).view }
        ensures holds { IfOk result (λ holds. holds ≡ holds_of self.now.expr (row_at (rows_in (P.held pass.old).view.seen) offset)) }
        ensures looked { HasLooked (P.held pass.old) (P.held pass.new) steps.old steps.new }
    {
        if self.numbers {
            return Ok(self.any_compares(pass, offset, steps));
        }
        self.selects_whole(pass, offset, steps)
    }
}

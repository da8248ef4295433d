// The kinds of pass.
ghost use Rattle.std.specs.Prelude.{◌≡◌, ◌+◌, ◌*◌, ◌<◌, ◌≤◌, length, MatchOption};
ghost use Rattle.cf_law.specs.Steps.Act.{advance};
ghost use Rattle.cf_table.specs.Values.{IsOf, book_of};
ghost use Rattle.cf_table.specs.Effects.{IsLawfulStep, HasStepped, HasSteppedUnseen, tail_effect, advance_effect};
ghost use Rattle.cf_table.specs.Rule.{AsksOnWord, KeepsBooks};

use crate::count::Steps;
use crate::log::MultiLog;
use crate::rule::{Gives, Token};
use std::marker::Model;
use std::sync::ledger::Ledger;

/// What takes part: it has seen entries, and makes each step that isn't a writer's.
pub trait Pass {
    ghost use Rattle.cf_table.specs.Values.{PassValue};

    ghost held: { Self → PassValue };

    /// How many entries it knows as covered.
    fn covered(&self) -> u32
        ensures { result ≡ length (held self.now).view.seen };

    /// Loads a word other than the read tail.
    fn load_by<N: Gives, L: Ledger>(
        &mut self,
        log: &MultiLog,
        word: u64,
        steps: &mut Steps<L>,
    ) -> u64
        requires of { IsOf (held self.old) log.now }
        requires lawful { AsksOnWord log.now.shape N.given (held self.old).view word (λ n. n) }
        requires books { KeepsBooks (N.given).effect (held self.old).view }
        ensures made { HasStepped log.now.shape (N.given).effect (held self.old) result (held self.new) }
        ensures steps { steps.new ≡ steps.old + 1 };

    /// Loads the read tail.
    fn load_tail_by<L: Ledger>(&mut self, log: &MultiLog, asked: bool, steps: &mut Steps<L>) -> u32
        requires of { IsOf (held self.old) log.now }
        ensures made { HasStepped log.now.shape (tail_effect (held self.old).view asked) (held self.old) result (held self.new) }
        ensures steps { steps.new ≡ steps.old + 1 };

    /// Moves the read tail from `tail`.
    fn advance_by<L: Ledger>(&mut self, log: &MultiLog, tail: u32, steps: &mut Steps<L>)
        requires of { IsOf (held self.old) log.now }
        requires lawful { IsLawfulStep log.now.shape (held self.old).view (advance tail) (advance_effect (held self.old).view tail) }
        ensures made { HasSteppedUnseen log.now.shape (advance_effect (held self.old).view tail) (held self.old) (held self.new) }
        ensures steps { steps.new ≡ steps.old + 1 };
}

/// What a pass notes of the books that it holds.
pub trait BookNotes {
    ghost use Rattle.std.specs.Prelude.{ℕ, List};
    ghost use Rattle.cf_law.specs.Passes.{Book};

    // the notes are of these books, of which each has at most so many nodes
    ghost are_of: { Self → List Book → ℕ → Type 0 };
}

/// A pass with what it notes of its books. Contracts see its table, its number, how many nodes each writer has, and its view.
#[derive(Drop)]
pub struct PassWith<B: BookNotes + Drop> {
    pub(crate) token: Token,
    pub(crate) notes: B,
}

impl<B: BookNotes + Drop> Model for PassWith<B> {
    ghost use Rattle.cf_table.specs.Values.{PassValue};

    ghost Value = { PassValue };

    ghost view = { λ p. p.token };

    ghost invariant = { λ p. B.are_of p.notes p.token.view.books p.token.nodes };
}

/// What is noted of a book: its writer, whether it is marked, and how many of its nodes are used.
#[derive(Clone, Copy, Drop)]
pub struct Note {
    pub(crate) writer: u8,
    pub(crate) over: bool,
    pub(crate) used: u32,
}

impl BookNotes for Note {
    ghost use Rattle.std.specs.Prelude.{◌<◌, ◌≤◌};
    ghost use Rattle.cf_table.specs.Values.{Writes};

    ghost are_of = { λ n books nodes. Writes n.writer n.over n.used books × (n.writer < 16) × (n.used ≤ nodes) × (nodes ≤ 65536) };
}

impl BookNotes for () {
    ghost use Rattle.std.specs.Prelude.{◌≡◌, []};

    ghost are_of = { λ _ books _. books ≡ [] };
}

impl BookNotes for Vec<Note> {
    ghost use Rattle.std.specs.Prelude.{◌≤◌, vec_capacity};
    ghost use Rattle.cf_table.specs.Moves.{AreNoted};

    ghost are_of = { λ notes books nodes. AreNoted notes.items books nodes × (16 ≤ vec_capacity notes) };
}

/// A pass that holds one book, and appends.
pub type WriterPass = PassWith<Note>;

/// A pass that holds no book, and reads.
pub type ReaderPass = PassWith<()>;

/// The first pass, which holds the books that are at home.
pub type Root = PassWith<Vec<Note>>;

impl Token {
    pub(crate) fn known(&self) -> u32
        ensures { result ≡ length self.now.view.seen }
    {
        self.covered
    }
}

impl WriterPass {
    /// Its book's writer.
    pub fn writer(&self) -> u8
        ensures writer { result ≡ (book_of self.now.view).writer }
        ensures few { result < 16 }
    {
        self.notes.writer
    }

    /// Whether its book is marked: it takes no further ticket.
    pub fn over(&self) -> bool
        ensures { result ≡ (book_of self.now.view).over }
    {
        self.notes.over
    }

    /// The least own node that isn't used, none exactly where all are.
    pub fn free_node(&self) -> Option<u32>
        ensures { MatchOption result (length (book_of self.now.view).used ≡ self.now.nodes)
            (λ node. (length (book_of self.now.view).used < self.now.nodes) × (node ≡ (book_of self.now.view).writer * self.now.nodes + length (book_of self.now.view).used)) }
    {
        if self.notes.used == self.token.nodes {
            return None;
        }
        Some(u32::from(self.notes.writer) * self.token.nodes + self.notes.used)
    }
}

impl<B: BookNotes + Drop> Pass for PassWith<B> {
    ghost held = { λ w. w };

    fn covered(&self) -> u32 {
        self.token.known()
    }

    fn load_by<N: Gives, L: Ledger>(
        &mut self,
        log: &MultiLog,
        word: u64,
        steps: &mut Steps<L>,
    ) -> u64 {
        steps.tick();
        log.load_token::<N>(&mut self.token, word)
    }

    fn load_tail_by<L: Ledger>(
        &mut self,
        log: &MultiLog,
        asked: bool,
        steps: &mut Steps<L>,
    ) -> u32 {
        steps.tick();
        log.load_tail_token(&mut self.token, asked)
    }

    fn advance_by<L: Ledger>(&mut self, log: &MultiLog, tail: u32, steps: &mut Steps<L>) {
        steps.tick();
        log.advance_token(&mut self.token, tail);
    }
}

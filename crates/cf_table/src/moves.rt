// Passes are split and joined.
ghost use Rattle.std.specs.Prelude.{◌≡◌, ◌<◌, ◌≤◌, ◌∷◌, [], length, false, slice_get, Some};
ghost use Rattle.cf_law.specs.Steps.{Splits, IsAtRest, Holds, new_pass, joined_pass, without};
ghost use Rattle.cf_table.specs.Values.{IsOf, book_of};
ghost use Rattle.cf_table.specs.Moves.{HasFolded, HoldsAllBooks};

use crate::log::MultiLog;
use crate::pass::{PassWith, ReaderPass, Root};
use crate::rule::{Comes, Hands, Parts, Token};
use std::marker::Brand;

fn split_as<N: Parts>(log: &MultiLog, token: &mut Token) -> Token
    requires of { IsOf token.old log.now }
    requires lawful { (w : _) × Splits token.old.view w N.stays N.goes }
    requires seen { ((N.stays).seen ≡ token.old.view.seen) × ((N.goes).seen ≡ token.old.view.seen) }
    requires live { ((N.stays).spent ≡ token.old.view.spent) × ((N.goes).spent ≡ false) }
    ensures stays { token.new ≡ record token.old { view = N.stays } }
    ensures goes { (result.table ≡ token.old.table) × (result.nodes ≡ token.old.nodes) × (result.view ≡ N.goes) }
{
    let covered = token.covered;
    let nodes = token.nodes;
    Token {
        seat: log.table.shared.split_seat::<Hands<N>>(&mut token.seat),
        covered,
        nodes,
    }
}

impl MultiLog {
    // A pass with no book that has seen as much.
    pub(crate) fn note_token(&self, token: &mut Token) -> Token
        requires of { IsOf token.old self.now }
        ensures stays { token.new ≡ token.old }
        ensures goes { (result.table ≡ token.old.table) × (result.nodes ≡ token.old.nodes) × (result.view ≡ new_pass [] token.old.view.seen) }
    {
        split_as::<Brand>(self, token)
    }

    // The first book goes to a new pass.
    pub(crate) fn hand_token(&self, token: &mut Token) -> Token
        requires of { IsOf token.old self.now }
        requires held { Holds token.old.view 0 (book_of token.old.view) }
        ensures stays { token.new ≡ record token.old { view = record token.old.view { books = without 0 token.old.view.books } } }
        ensures goes { (result.table ≡ token.old.table) × (result.nodes ≡ token.old.nodes) × (result.view ≡ new_pass (book_of token.old.view ∷ []) token.old.view.seen) }
    {
        split_as::<Brand>(self, token)
    }

    pub(crate) fn join_token(&self, token: &mut Token, other: Token)
        requires of { IsOf token.old self.now × IsOf other self.now }
        requires rest { IsAtRest other.view }
        ensures { token.new ≡ record token.old { view = joined_pass token.old.view other.view } }
    {
        let Token {
            seat,
            covered,
            nodes: _,
        } = other;
        self.table.shared.join_seat::<Comes>(&mut token.seat, seat);
        token.covered = token.covered.max(covered);
    }

    // Joined, and the read tail is loaded.
    pub(crate) fn fold_token(&self, token: &mut Token, other: Token)
        requires of { IsOf token.old self.now × IsOf other self.now }
        requires rest { IsAtRest other.view }
        ensures { HasFolded self.now.shape token.old other.view token.new }
    {
        self.join_token(token, other);
        self.load_tail_token(token, false);
    }

    /// A pass that has seen as much as the root.
    pub fn fork(&self, root: &mut Root) -> ReaderPass
        requires of { IsOf root.old self.now }
        ensures root { root.new ≡ root.old }
        ensures of { IsOf result self.now }
        ensures view { result.view ≡ new_pass [] root.old.view.seen }
    {
        PassWith {
            token: self.note_token(&mut root.token),
            notes: (),
        }
    }

    /// The pass comes home, and the root has then seen what it has, which is no more while all books are home.
    pub fn fold_back(&self, root: &mut Root, pass: ReaderPass)
        requires of { IsOf root.old self.now × IsOf pass self.now }
        ensures folded { HasFolded self.now.shape root.old pass.view root.new }
        ensures books { root.new.view.books ≡ root.old.view.books }
        ensures stays { HoldsAllBooks self.now.shape root.old.view → root.new.view.seen ≡ root.old.view.seen }
    {
        let PassWith { token, notes: () } = pass;
        self.fold_token(&mut root.token, token);
    }

    /// The second pass has then seen what the first has.
    pub fn meet(&self, from: &mut ReaderPass, to: &mut ReaderPass)
        requires of { IsOf from.old self.now × IsOf to.old self.now }
        ensures from { from.new ≡ from.old }
        ensures to { HasFolded self.now.shape to.old (new_pass [] from.old.view.seen) to.new }
    {
        let note = self.note_token(&mut from.token);
        self.fold_token(&mut to.token, note);
    }
}

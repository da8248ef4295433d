// The books are dealt, and come home.
ghost use Rattle.std.specs.Prelude.{◌≡◌, ◌+◌, ◌<◌, ◌≤◌, ◌∷◌, [], length, map, slice_get, Some, IfOk, MatchResult, vec_len, vec_capacity};
ghost use Rattle.cf_law.specs.Steps.{Holds, IsAtRest, new_pass, without};
ghost use Rattle.cf_table.specs.Values.{IsOf, book_of};
ghost use Rattle.cf_table.specs.Moves.{AreNoted, AreDealt, AreAll, HasFolded, Gathers, HasGathered, HoldsAllBooks, note_of};

use crate::log::MultiLog;
use crate::pass::{Note, PassWith, Root, WriterPass};
use crate::rule::Token;
use crate::settles::settle_counted;
use cf_row::Memory;
use std::alloc::Global;
use std::marker::Brand;
use std::sync::ledger::Blank;

impl MultiLog {
    // The first book goes to a writer's pass, by what was noted of it.
    fn deal_first(&self, token: &mut Token, note: &Note) -> WriterPass
        requires of { IsOf token.old self.now }
        requires held { Holds token.old.view 0 (book_of token.old.view) }
        requires noted { note.now ≡ note_of (book_of token.old.view) }
        requires bounds { (token.old.nodes ≤ 65536) × ((book_of token.old.view).writer < 16) × (length (book_of token.old.view).used ≤ token.old.nodes) }
        ensures stays { token.new ≡ record token.old { view = record token.old.view { books = without 0 token.old.view.books } } }
        ensures of { IsOf result self.now }
        ensures view { result.view ≡ new_pass (book_of token.old.view ∷ []) token.old.view.seen }
    {
        PassWith {
            token: self.hand_token(token),
            notes: *note,
        }
    }

    // Each book goes to a pass of its own.
    fn deal_all(&self, token: &mut Token, notes: &[Note], passes: &mut Vec<WriterPass>)
        requires of { IsOf token.old self.now }
        requires noted { AreNoted notes.now token.old.view.books token.old.nodes }
        requires room { (passes.old.items ≡ []) × (length notes.now ≤ vec_capacity passes.old) × (vec_len passes.old ≡ 0) }
        ensures { AreDealt self.now token.old passes.new.items token.new }
    {
        for note in notes {
            passes.push_reserved(self.deal_first(token, note));
        }
    }

    /// The books that are home leave the root, each for a writer's pass of its own. If memory runs out, the root is as before.
    pub fn deal(&self, alloc: Global, root: &mut Root) -> Result<Vec<WriterPass>, Memory>
        requires of { IsOf root.old self.now }
        ensures dealt { MatchResult result (λ passes. AreDealt self.now root.old passes.items root.new) (λ _. root.new ≡ root.old) }
        ensures all { HoldsAllBooks self.now.shape root.old.view → IfOk result (λ passes. AreAll self.now passes.items) }
    {
        let mut passes = Vec::with_capacity(alloc, root.notes.len())?;
        self.deal_all(&mut root.token, &root.notes, &mut passes);
        root.notes.clear();
        Ok(passes)
    }

    // A writer's pass comes home.
    fn take_in(&self, root: &mut Root, pass: WriterPass)
        requires of { IsOf root.old self.now × IsOf pass self.now }
        requires rest { IsAtRest pass.view }
        requires room { length root.old.view.books < 16 }
        ensures folded { HasFolded self.now.shape root.old pass.view root.new }
        ensures one { length root.new.view.books ≡ length root.old.view.books + 1 }
    {
        let PassWith { token, notes } = pass;
        root.notes.push_reserved(notes);
        self.fold_token(&mut root.token, token);
    }

    // The passes come home in their order.
    fn take_all(&self, root: &mut Root, passes: Vec<WriterPass>)
        requires of { IsOf root.old self.now }
        requires all { AreAll self.now passes.items }
        requires away { root.old.view.books ≡ [] }
        requires few { self.now.shape.writers ≤ 15 }
        ensures gathers { Gathers self.now.shape root.old passes.items root.new }
        ensures of { IsOf root.new self.now }
        ensures count { length root.new.view.books ≡ length passes.items }
    {
        for pass in passes {
            self.take_in(root, pass);
        }
    }

    /// The passes of the writers come home, all of them and at rest, and the read tail is moved up to the last ticket.
    pub fn gather(&self, root: &mut Root, passes: Vec<WriterPass>)
        requires of { IsOf root.old self.now }
        requires all { AreAll self.now passes.items }
        requires away { root.old.view.books ≡ [] }
        ensures { HasGathered self.now.shape root.old passes.items root.new }
    {
        let _lawful = self.shape();
        self.take_all(root, passes);
        settle_counted::<Brand>(self, root, Blank::new(1));
    }
}

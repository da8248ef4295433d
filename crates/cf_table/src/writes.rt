// The step calls of a writer's pass.
ghost use Rattle.std.specs.Prelude.{ℕ, suc, ◌≡◌, ◌+◌, ◌*◌, ◌<◌, ◌≤◌};
ghost use Rattle.cf_law.specs.Steps.Act.{take_ticket as takes_ticket, store_cell as stores_cell, finish_record as finishes_record, label as labels, link as links, store_head as stores_head};
ghost use Rattle.cf_shape.specs.Places.{Slot};
ghost use Rattle.cf_shape.specs.Uses.{ticket_words};
ghost use Rattle.cf_law.specs.Words.{Spot};
ghost use Rattle.cf_table.specs.Values.{IsOf, book_of};
ghost use Rattle.cf_table.specs.Effects.{IsLawfulStep, HasStepped, HasSteppedUnseen, take_effect, store_effect, finish_effect, label_effect, link_effect, head_effect};
ghost use Rattle.cf_table.specs.Rule.{AsksOnWord, value_after_exchange, given_take};

use crate::count::Steps;
use crate::log::MultiLog;
use crate::pass::WriterPass;
use crate::rule::{Gives, Token};
use cf_row::Row;
use cf_shape::{place_done, place_head, place_label, place_ticket};
use std::marker::Brand;
use std::sync::ledger::Ledger;

impl MultiLog {
    /// Takes a ticket for the row, or marks the book where the write tail was at the capacity or above.
    pub fn take_ticket<L: Ledger>(
        &self,
        pass: &mut WriterPass,
        row: &Row,
        steps: &mut Steps<L>,
    ) -> u64
        requires of { IsOf pass.old self.now }
        requires lawful { IsLawfulStep self.now.shape pass.old.view (takes_ticket row.now) (take_effect self.now.shape pass.old.view row.now) }
        ensures made { HasStepped self.now.shape (take_effect self.now.shape pass.old.view row.now) pass.old result pass.new }
        ensures steps { steps.new ≡ steps.old + 1 }
    {
        steps.tick();
        let found = take_as::<Brand>(self, &mut pass.token, row);
        if found >= u64::from(self.shape.capacity()) {
            pass.notes.over = true;
        }
        found
    }

    /// Stores the next word of the ticket in flight.
    pub fn store_cell<L: Ledger>(
        &self,
        pass: &mut WriterPass,
        offset: u32,
        index: u8,
        value: u64,
        steps: &mut Steps<L>,
    )
        requires of { IsOf pass.old self.now }
        requires place { (offset < self.now.shape.capacity) × (index < ticket_words self.now.shape) }
        requires lawful { IsLawfulStep self.now.shape pass.old.view (stores_cell offset index value) (store_effect pass.old.view offset index value) }
        ensures made { HasSteppedUnseen self.now.shape (store_effect pass.old.view offset index value) pass.old pass.new }
        ensures steps { steps.new ≡ steps.old + 1 }
    {
        steps.tick();
        let word = place_ticket(&self.shape, offset, u64::from(index));
        store_as::<Brand>(self, &mut pass.token, (offset, index, 0), word, value);
    }

    /// Marks the ticket in flight as finished.
    pub fn finish_record<L: Ledger>(&self, pass: &mut WriterPass, offset: u32, steps: &mut Steps<L>)
        requires of { IsOf pass.old self.now }
        requires place { offset < self.now.shape.capacity }
        requires lawful { IsLawfulStep self.now.shape pass.old.view (finishes_record offset) (finish_effect self.now.shape pass.old.view offset) }
        ensures made { HasSteppedUnseen self.now.shape (finish_effect self.now.shape pass.old.view offset) pass.old pass.new }
        ensures steps { steps.new ≡ steps.old + 1 }
    {
        steps.tick();
        let word = place_done(&self.shape, offset);
        store_as::<Brand>(self, &mut pass.token, (offset, 0, 0), word, 1);
    }

    /// Labels the least own node that isn't used.
    pub fn label<L: Ledger>(
        &self,
        pass: &mut WriterPass,
        node: u32,
        value: u64,
        steps: &mut Steps<L>,
    )
        requires of { IsOf pass.old self.now }
        requires place { node < self.now.shape.writers * self.now.shape.nodes }
        requires lawful { IsLawfulStep self.now.shape pass.old.view (labels node value) (label_effect pass.old.view node value) }
        ensures made { HasSteppedUnseen self.now.shape (label_effect pass.old.view node value) pass.old pass.new }
        ensures steps { steps.new ≡ steps.old + 1 }
    {
        steps.tick();
        let word = place_label(&self.shape, node);
        store_as::<Brand>(self, &mut pass.token, (node, 0, 0), word, value);
    }

    /// Links the least own node that isn't used at the child word of that place, which stands for the spot `to.0`, where
    /// that word is 0.
    pub fn link<L: Ledger>(
        &self,
        pass: &mut WriterPass,
        place: u64,
        node: u32,
        steps: &mut Steps<L>,
    ) -> u64
        ghost to: { Spot × Slot }
        requires of { IsOf pass.old self.now }
        requires lawful { IsLawfulStep self.now.shape pass.old.view (links place node) (link_effect pass.old.view to.0 to.1 node) }
        ensures made { HasStepped self.now.shape (link_effect pass.old.view to.0 to.1 node) pass.old result pass.new }
        ensures steps { steps.new ≡ steps.old + 1 }
    {
        steps.tick();
        let found = link_as::<Brand>(self, &mut pass.token, place, node);
        if found == 0 {
            pass.notes.used += 1;
        }
        found
    }

    /// Links the ticket in flight in a lane, at a node of the last level.
    pub fn store_head<L: Ledger>(
        &self,
        pass: &mut WriterPass,
        node: u32,
        nibble: u8,
        offset: u32,
        steps: &mut Steps<L>,
    )
        ghost lane: { ℕ }
        requires of { IsOf pass.old self.now }
        requires place { (node < self.now.shape.writers * self.now.shape.nodes) × (nibble < 16) × ((book_of pass.old.view).writer < self.now.shape.writers) }
        requires lawful { IsLawfulStep self.now.shape pass.old.view (stores_head lane node nibble offset) (head_effect self.now.shape pass.old.view lane node nibble offset) }
        ensures made { HasSteppedUnseen self.now.shape (head_effect self.now.shape pass.old.view lane node nibble offset) pass.old pass.new }
        ensures steps { steps.new ≡ steps.old + 1 }
    {
        steps.tick();
        let word = place_head(&self.shape, node, nibble, pass.writer());
        store_as::<Brand>(
            self,
            &mut pass.token,
            (node, nibble, offset),
            word,
            offset as u64 + 1,
        );
    }
}

// What a call gives its step is picked from the step's own arguments: `row`, and below `_at`, are for the proof.
fn take_as<N: Gives>(log: &MultiLog, token: &mut Token, _row: &Row) -> u64
    requires of { IsOf token.old log.now }
    requires given { N.given ≡ given_take log.now.shape token.old.view _row.now }
    requires lawful { IsLawfulStep log.now.shape token.old.view (takes_ticket _row.now) (take_effect log.now.shape token.old.view _row.now) }
    ensures made { HasStepped log.now.shape (take_effect log.now.shape token.old.view _row.now) token.old result token.new }
{
    log.add_token::<N>(token)
}

fn store_as<N: Gives>(log: &MultiLog, token: &mut Token, _at: (u32, u8, u32), word: u64, value: u64)
    requires of { IsOf token.old log.now }
    requires lawful { AsksOnWord log.now.shape N.given token.old.view word (λ _. value) }
    ensures made { HasSteppedUnseen log.now.shape (N.given).effect token.old token.new }
{
    log.store_token::<N>(token, word, value);
}

fn link_as<N: Gives>(log: &MultiLog, token: &mut Token, place: u64, node: u32) -> u64
    requires of { IsOf token.old log.now }
    requires lawful { AsksOnWord log.now.shape N.given token.old.view place (λ n. value_after_exchange (node + 1) n) }
    ensures made { HasStepped log.now.shape (N.given).effect token.old result token.new }
{
    log.exchange_token::<N>(token, place, node as u64 + 1)
}

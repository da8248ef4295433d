// The step calls that any pass makes.
ghost use Rattle.std.specs.Prelude.{ℕ, ◌≡◌, ◌+◌, ◌*◌, ◌<◌, ◌≤◌, ◌↔◌, IsTrue, length};
ghost use Rattle.cf_law.specs.Steps.Act.{advance as advances, load_child as loads_child, load_head as loads_head, load_cell as loads_cell};
ghost use Rattle.cf_shape.specs.Lanes.{lane_at};
ghost use Rattle.cf_shape.specs.Places.{Slot};
ghost use Rattle.cf_shape.specs.Uses.{ticket_words, cell_words};
ghost use Rattle.cf_law.specs.Words.{Spot};
ghost use Rattle.cf_table.specs.Values.{IsOf};
ghost use Rattle.cf_table.specs.Effects.{IsLawfulStep, HasStepped, HasSteppedUnseen, advance_effect, tail_effect, done_effect, word_effect, child_effect, walk_effect, cell_effect};
ghost use Rattle.cf_table.specs.Rule.{AsksOnWord, KeepsBooks};
ghost use Rattle.cf_table.specs.Moves.{HoldsAllBooks};

use crate::count::Steps;
use crate::log::MultiLog;
use crate::pass::Pass;
use crate::rule::Gives;
use cf_shape::{place_cell, place_done, place_head, place_ticket};
use std::marker::Brand;
use std::sync::ledger::Ledger;

impl MultiLog {
    /// Moves the read tail from `tail`, where it stands there. Nothing new is seen while all books are home.
    pub fn advance<P: Pass, L: Ledger>(&self, pass: &mut P, tail: u32, steps: &mut Steps<L>)
        requires of { IsOf (P.held pass.old) self.now }
        requires lawful { IsLawfulStep self.now.shape (P.held pass.old).view (advances tail) (advance_effect (P.held pass.old).view tail) }
        ensures made { HasSteppedUnseen self.now.shape (advance_effect (P.held pass.old).view tail) (P.held pass.old) (P.held pass.new) }
        ensures stays { HoldsAllBooks self.now.shape (P.held pass.old).view → (P.held pass.new).view.seen ≡ (P.held pass.old).view.seen }
        ensures steps { steps.new ≡ steps.old + 1 }
    {
        pass.advance_by(self, tail, steps);
    }

    /// Loads the read tail, for an ask where `asked`. What was seen grows to it, and stays where all books are home.
    pub fn load_tail<P: Pass, L: Ledger>(
        &self,
        pass: &mut P,
        asked: bool,
        steps: &mut Steps<L>,
    ) -> u32
        requires of { IsOf (P.held pass.old) self.now }
        ensures made { HasStepped self.now.shape (tail_effect (P.held pass.old).view asked) (P.held pass.old) result (P.held pass.new) }
        ensures stays { HoldsAllBooks self.now.shape (P.held pass.old).view → (P.held pass.new).view.seen ≡ (P.held pass.old).view.seen }
        ensures seen { length (P.held pass.new).view.seen ≡ result }
        ensures steps { steps.new ≡ steps.old + 1 }
    {
        pass.load_tail_by(self, asked, steps)
    }

    /// Looks at a done word, and says whether it was 1.
    pub fn look_done<P: Pass, L: Ledger>(
        &self,
        pass: &mut P,
        offset: u32,
        steps: &mut Steps<L>,
    ) -> bool
        requires of { IsOf (P.held pass.old) self.now }
        requires place { offset < self.now.shape.capacity }
        ensures made { HasStepped self.now.shape (done_effect self.now.shape (P.held pass.old).view offset) (P.held pass.old) (P.held pass.new).view.look.value (P.held pass.new) }
        ensures found { IsTrue result ↔ ((P.held pass.new).view.look.value ≡ 1) }
        ensures steps { steps.new ≡ steps.old + 1 }
    {
        let word = place_done(&self.shape, offset);
        load_as::<Brand, P, L>(self, pass, (offset, 0, 0), word, steps) == 1
    }

    /// Loads the word of that index of a ticket that was seen.
    pub fn load_word<P: Pass, L: Ledger>(
        &self,
        pass: &mut P,
        offset: u32,
        index: u8,
        steps: &mut Steps<L>,
    ) -> u64
        requires of { IsOf (P.held pass.old) self.now }
        requires place { (offset < self.now.shape.capacity) × (index < ticket_words self.now.shape) }
        requires lawful { offset < length (P.held pass.old).view.seen }
        ensures made { HasStepped self.now.shape (word_effect self.now.shape (P.held pass.old).view offset index) (P.held pass.old) result (P.held pass.new) }
        ensures steps { steps.new ≡ steps.old + 1 }
    {
        let word = place_ticket(&self.shape, offset, u64::from(index));
        load_as::<Brand, P, L>(self, pass, (offset, index, 0), word, steps)
    }

    /// Loads the child word at that place, which stands for the spot `to.0`.
    pub fn load_child<P: Pass, L: Ledger>(
        &self,
        pass: &mut P,
        place: u64,
        steps: &mut Steps<L>,
    ) -> u64
        ghost to: { Spot × Slot }
        requires of { IsOf (P.held pass.old) self.now }
        requires lawful { IsLawfulStep self.now.shape (P.held pass.old).view (loads_child place) (child_effect self.now.shape (P.held pass.old).view to.0 to.1) }
        ensures made { HasStepped self.now.shape (child_effect self.now.shape (P.held pass.old).view to.0 to.1) (P.held pass.old) result (P.held pass.new) }
        ensures steps { steps.new ≡ steps.old + 1 }
    {
        load_as::<Brand, P, L>(self, pass, (0, 0, 0), place, steps)
    }

    /// Loads the head of a writer and a nibble at a node of the last level, which stands for the spot `of_node`. A walk
    /// begins.
    pub fn load_head<P: Pass, L: Ledger>(
        &self,
        pass: &mut P,
        node: u32,
        nibble: u8,
        writer: u8,
        steps: &mut Steps<L>,
    ) -> u64
        ghost of_node: { Spot }
        requires of { IsOf (P.held pass.old) self.now }
        requires place { (node < self.now.shape.writers * self.now.shape.nodes) × (nibble < 16) × (writer < self.now.shape.writers) }
        requires lawful { IsLawfulStep self.now.shape (P.held pass.old).view (loads_head node nibble writer) (walk_effect self.now.shape (P.held pass.old).view of_node node nibble writer) }
        ensures made { HasStepped self.now.shape (walk_effect self.now.shape (P.held pass.old).view of_node node nibble writer) (P.held pass.old) result (P.held pass.new) }
        ensures steps { steps.new ≡ steps.old + 1 }
    {
        let word = place_head(&self.shape, node, nibble, writer);
        load_as::<Brand, P, L>(self, pass, (node, nibble, writer), word, steps)
    }

    /// Loads the word of that index of a lane's cell of a ticket. A walk goes on by word 0 of the cell that the cursor names.
    pub fn load_cell<P: Pass, L: Ledger>(
        &self,
        pass: &mut P,
        offset: u32,
        lane: u8,
        index: u8,
        steps: &mut Steps<L>,
    ) -> u64
        requires of { IsOf (P.held pass.old) self.now }
        requires place { (offset < self.now.shape.capacity) × (lane < length self.now.shape.lanes) × (index < cell_words (lane_at self.now.shape lane)) }
        requires lawful { IsLawfulStep self.now.shape (P.held pass.old).view (loads_cell offset lane index) (cell_effect self.now.shape (P.held pass.old).view offset lane index) }
        ensures made { HasStepped self.now.shape (cell_effect self.now.shape (P.held pass.old).view offset lane index) (P.held pass.old) result (P.held pass.new) }
        ensures steps { steps.new ≡ steps.old + 1 }
    {
        let word = place_cell(&self.shape, offset, lane, index);
        load_as::<Brand, P, L>(self, pass, (offset, lane, index), word, steps)
    }
}

// `_at` is for the proof: what a call gives its step is picked from the step's own arguments.
fn load_as<N: Gives, P: Pass, L: Ledger>(
    log: &MultiLog,
    pass: &mut P,
    _at: (u32, u8, u8),
    word: u64,
    steps: &mut Steps<L>,
) -> u64
    requires of { IsOf (P.held pass.old) log.now }
    requires lawful { AsksOnWord log.now.shape N.given (P.held pass.old).view word (λ n. n) }
    requires books { KeepsBooks (N.given).effect (P.held pass.old).view }
    ensures made { HasStepped log.now.shape (N.given).effect (P.held pass.old) result (P.held pass.new) }
    ensures steps { steps.new ≡ steps.old + 1 }
{
    pass.load_by::<N, L>(log, word, steps)
}

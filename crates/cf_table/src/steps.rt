// A pass steps on one word.
ghost use Rattle.std.specs.Prelude.{ℕ, suc, ◌≡◌, ◌+◌, ◌<◌, ◌≤◌, cond, ◌==◌};
ghost use Rattle.cf_law.specs.Steps.Act.{advance};
ghost use Rattle.cf_shape.specs.Places.Slot.{tail};
ghost use Rattle.cf_table.specs.Values.{IsOf};
ghost use Rattle.cf_table.specs.Effects.{IsLawfulStep, HasStepped, HasSteppedUnseen, tail_effect, advance_effect};
ghost use Rattle.cf_table.specs.Rule.{AsksOnWord, KeepsBooks, value_after_exchange, given_tail, given_advance};

use crate::log::MultiLog;
use crate::rule::{Acts, Gives, Stores, Token};
use std::marker::Brand;

impl MultiLog {
    pub(crate) fn load_token<N: Gives>(&self, token: &mut Token, word: u64) -> u64
        requires of { IsOf token.old self.now }
        requires lawful { AsksOnWord self.now.shape N.given token.old.view word (λ n. n) }
        ensures made { HasStepped self.now.shape (N.given).effect token.old result token.new }
        ensures books { KeepsBooks (N.given).effect token.old.view → token.new.view.books ≡ token.old.view.books }
    {
        self.table
            .shared
            .load::<Acts<N>>(&mut token.seat, word as usize)
    }

    pub(crate) fn store_token<N: Gives>(&self, token: &mut Token, word: u64, value: u64)
        requires of { IsOf token.old self.now }
        requires lawful { AsksOnWord self.now.shape N.given token.old.view word (λ _. value) }
        ensures made { HasSteppedUnseen self.now.shape (N.given).effect token.old token.new }
    {
        self.table
            .shared
            .store::<Stores<N>>(&mut token.seat, word as usize, value);
    }

    // Stores the value where the word is 0.
    pub(crate) fn exchange_token<N: Gives>(&self, token: &mut Token, word: u64, value: u64) -> u64
        requires of { IsOf token.old self.now }
        requires lawful { AsksOnWord self.now.shape N.given token.old.view word (λ n. value_after_exchange value n) }
        ensures made { HasStepped self.now.shape (N.given).effect token.old result token.new }
    {
        self.table
            .shared
            .compare_exchange::<Acts<N>>(&mut token.seat, word as usize, 0, value)
    }

    // Adds 1 to the write tail.
    pub(crate) fn add_token<N: Gives>(&self, token: &mut Token) -> u64
        requires of { IsOf token.old self.now }
        requires lawful { AsksOnWord self.now.shape N.given token.old.view 0 (λ n. suc n) × ((N.given).effect.slot ≡ tail 0) }
        ensures made { HasStepped self.now.shape (N.given).effect token.old result token.new }
    {
        self.table
            .shared
            .fetch_add::<Acts<N>>(&mut token.seat, 0, 1)
    }

    pub(crate) fn load_tail_token(&self, token: &mut Token, asked: bool) -> u32
        requires of { IsOf token.old self.now }
        ensures made { HasStepped self.now.shape (tail_effect token.old.view asked) token.old result token.new }
        ensures books { token.new.view.books ≡ token.old.view.books }
    {
        tail_as::<Brand>(self, token, asked)
    }

    pub(crate) fn advance_token(&self, token: &mut Token, tail: u32)
        requires of { IsOf token.old self.now }
        requires lawful { IsLawfulStep self.now.shape token.old.view (advance tail) (advance_effect token.old.view tail) }
        ensures made { HasSteppedUnseen self.now.shape (advance_effect token.old.view tail) token.old token.new }
        ensures books { token.new.view.books ≡ token.old.view.books }
    {
        advance_as::<Brand>(self, token, tail);
    }
}

// `asked` is for the proof: what a call gives its step is picked from the step's own arguments.
fn tail_as<N: Gives>(log: &MultiLog, token: &mut Token, asked: bool) -> u32
    requires of { IsOf token.old log.now }
    requires given { N.given ≡ given_tail log.now.shape token.old.view asked }
    ensures made { HasStepped log.now.shape (tail_effect token.old.view asked) token.old result token.new }
    ensures books { token.new.view.books ≡ token.old.view.books }
{
    let found = log.table.shared.load::<Acts<N>>(&mut token.seat, 1);
    token.covered = found as u32;
    found as u32
}

fn advance_as<N: Gives>(log: &MultiLog, token: &mut Token, tail: u32)
    requires of { IsOf token.old log.now }
    requires given { N.given ≡ given_advance log.now.shape token.old.view tail }
    requires lawful { IsLawfulStep log.now.shape token.old.view (advance tail) (advance_effect token.old.view tail) }
    ensures made { HasSteppedUnseen log.now.shape (advance_effect token.old.view tail) token.old token.new }
    ensures books { token.new.view.books ≡ token.old.view.books }
{
    log.table
        .shared
        .compare_exchange::<Stores<N>>(&mut token.seat, 1, tail as u64, tail as u64 + 1);
    token.covered = token.covered.max(tail + 1);
}

// The count, the sum, the least and the greatest of some numbers.
ghost use Rattle.std.specs.Prelude.{◌≡◌, ℕ, ◌<◌, ◌≤◌, ◌+◌, ◌^◌, List, [], ◌∷◌, ◌++◌};

use std::marker::Model;

/// What is known of some numbers below 2^32: how many they are, their sum, the least and the greatest.
/// Of no number all four are 0. The sum is at most the count times 2^32 - 1.
#[derive(Clone, Copy, Debug, PartialEq, Eq)]
pub struct Quad {
    count: u64,
    sum: u64,
    least: u64,
    greatest: u64,
}

impl Model for Quad {
    ghost use Rattle.cf_fold.specs.Quads.{QuadValue, IsQuad};

    ghost Value = { QuadValue };

    ghost view = { λ q. record { count = q.count; sum = q.sum; least = q.least; greatest = q.greatest } };

    ghost inverse = { λ c. record { count = c.count; sum = c.sum; least = c.least; greatest = c.greatest } };

    ghost invariant = { λ q. IsQuad (record { count = q.count; sum = q.sum; least = q.least; greatest = q.greatest }) };
}

impl Quad {
    ghost use Rattle.cf_fold.specs.Quads.{quad_of, plus, both, IsQuad};

    /// The quad of no number.
    pub const EMPTY: Quad = Quad {
        count: 0,
        sum: 0,
        least: 0,
        greatest: 0,
    };

    /// The quad with these four numbers.
    pub fn new(count: u64, sum: u64, least: u64, greatest: u64) -> Quad
        requires { IsQuad (record { count = count; sum = sum; least = least; greatest = greatest }) }
        ensures { result ≡ record { count = count; sum = sum; least = least; greatest = greatest } }
    {
        Quad {
            count,
            sum,
            least,
            greatest,
        }
    }

    /// How many numbers there are.
    pub fn count(self) -> u64
        ensures { result ≡ self.count }
    {
        self.count
    }

    /// Their sum.
    pub fn sum(self) -> u64
        ensures { result ≡ self.sum }
    {
        self.sum
    }

    /// The least of them, 0 where there is none.
    pub fn least(self) -> u64
        ensures { result ≡ self.least }
    {
        self.least
    }

    /// The greatest of them, 0 where there is none.
    pub fn greatest(self) -> u64
        ensures { result ≡ self.greatest }
    {
        self.greatest
    }

    /// The quad of no number, which [`Quad::EMPTY`] is.
    pub fn empty() -> Quad
        ensures { result ≡ quad_of [] }
    {
        Quad::EMPTY
    }

    /// The quad of the numbers and one more.
    pub fn add(self, value: u32) -> Quad
        requires few { self.count < 2 ^ 20 }
        ensures plus { result ≡ plus self value }
        ensures added { (xs : List ℕ) → self ≡ quad_of xs → result ≡ quad_of (xs ++ value ∷ []) }
        ensures count { result.count ≡ self.count + 1 }
    {
        let value = u64::from(value);
        if self.count == 0 {
            return Quad {
                count: 1,
                sum: value,
                least: value,
                greatest: value,
            };
        }
        Quad {
            count: self.count + 1,
            sum: self.sum + value,
            least: self.least.min(value),
            greatest: self.greatest.max(value),
        }
    }

    /// The quad of both lists of numbers together.
    pub fn merge(self, other: Quad) -> Quad
        requires few { self.count + other.count < 2 ^ 32 }
        ensures both { result ≡ both self other }
        ensures merged { (xs ys : List ℕ) → self ≡ quad_of xs → other ≡ quad_of ys → result ≡ quad_of (xs ++ ys) }
        ensures count { result.count ≡ self.count + other.count }
    {
        if self.count == 0 {
            return other;
        }
        if other.count == 0 {
            return self;
        }
        Quad {
            count: self.count + other.count,
            sum: self.sum + other.sum,
            least: self.least.min(other.least),
            greatest: self.greatest.max(other.greatest),
        }
    }
}

// The words of a cell in which a quad is kept.
ghost use Rattle.std.specs.Prelude.{◌≡◌, ℕ, ◌<◌, ◌%◌, ◌^◌};

use crate::Quad;

// What 1 in a word's high half is worth.
const HIGH: u64 = 1 << 32;

/// The three words of a record's cell in a lane that measures, in their order there. The link is 1 plus the offset of the
/// writer's record before this one in the leaf, or 0 for none. The count is of records; the sum, the least and the greatest
/// are in the unit of what the lane measures.
///
/// | word | bits 0 to 31 | bits 32 to 63 |
/// |---|---|---|
/// | `first` | link | count |
/// | `sum` | sum, low bits | sum, high bits |
/// | `ends` | least | greatest |
#[derive(Clone, Copy, Debug, PartialEq, Eq)]
pub struct CellWords {
    pub first: u64,
    pub sum: u64,
    pub ends: u64,
}

impl CellWords {
    ghost use Rattle.cf_fold.specs.Quads.{QuadValue};
    ghost use Rattle.cf_fold.specs.Cells.{AreWordsOf};

    /// The words of a cell with that link and that quad.
    #[inline]
    pub fn of(link: u64, quad: Quad) -> CellWords
        requires link { link < 2 ^ 32 }
        requires few { quad.count < 2 ^ 32 }
        ensures { AreWordsOf result link quad }
    {
        CellWords {
            first: link + quad.count() * HIGH,
            sum: quad.sum(),
            ends: quad.least() + quad.greatest() * HIGH,
        }
    }

    /// The quad of which these are the words.
    #[inline]
    pub fn quad(self) -> Quad
        requires { (link : ℕ) × (quad : QuadValue) × AreWordsOf self link quad }
        ensures { (link : ℕ) (quad : QuadValue) → AreWordsOf self link quad → result ≡ quad }
    {
        Quad::new(
            self.first / HIGH,
            self.sum,
            self.ends % HIGH,
            self.ends / HIGH,
        )
    }
}

/// The link in the first word of a cell. A lane that does not measure keeps no count in it.
#[inline]
pub fn link_in(first: u64) -> u64
    ensures { result ≡ first % 2 ^ 32 }
{
    first % HIGH
}

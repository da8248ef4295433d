// Answers.
use cf_fold::Quad;
use std::marker::Model;

/// A group in which a trigger fired, or a heavy one, and the part of its quad that was asked for.
#[derive(Clone, Copy, Debug, PartialEq, Eq)]
pub struct Fired {
    /// The bucket's number, a time divided by the width of the buckets; in an answer to `Top`, the key.
    pub bucket: u64,
    /// The value of the attribute by which the lane keeps the rows of a bucket apart, if it does.
    pub key: Option<u64>,
    /// The part of the quad: a count, a sum, a least or a greatest number.
    pub value: u64,
}

/// The rows of a lane that have one key, as the quad of what the lane measures of them. Where the lane keeps the rows of a bucket
/// apart by an attribute, they are those of one bucket and one value.
#[derive(Clone, Copy, Debug, PartialEq, Eq)]
pub struct Group {
    /// The key: a value of the lane's attribute, or the number of a bucket.
    pub key: u64,
    /// The value by which the rows of the bucket are kept apart, if they are.
    pub by: Option<u64>,
    /// The count, the sum, the least and the greatest of what the lane measures.
    pub quad: Quad,
}

/// Places in a log. Those of an answer ascend.
#[derive(Debug, Drop)]
pub struct Places {
    items: Vec<u32>,
}

impl Model for Places {
    ghost use Rattle.std.specs.Prelude.{List, ℕ};

    ghost Value = { List ℕ };

    ghost view = { λ p. p.items.items };
}

impl Places {
    ghost use Rattle.std.specs.Prelude.{◌≡◌};

    /// These places.
    pub fn new(items: Vec<u32>) -> Places
        ensures { result ≡ items.items }
    {
        Places { items }
    }

    /// The places, in order.
    pub fn as_slice(&self) -> &[u32]
        ensures { result.now ≡ self.now }
    {
        self.items.as_slice()
    }

    /// The places, in order. It takes no memory.
    pub fn into_vec(self) -> Vec<u32>
        ensures { result.items ≡ self }
    {
        self.items
    }
}

/// Marks of a trigger, or of heavy groups. Those of an answer to `Fired` ascend by bucket, and in a bucket by the value that keeps
/// its rows apart; those of an answer to `Top` stand with the heaviest first.
#[derive(Debug, Drop)]
pub struct Marks {
    items: Vec<Fired>,
}

impl Model for Marks {
    ghost use Rattle.std.specs.Prelude.{List};
    ghost use Rattle.cf_plain.specs.declared.answer.Fired.{Fired};

    ghost Value = { List Fired };

    ghost view = { λ m. m.items.items };
}

impl Marks {
    ghost use Rattle.std.specs.Prelude.{◌≡◌};

    /// These marks.
    pub fn new(items: Vec<Fired>) -> Marks
        ensures { result ≡ items.items }
    {
        Marks { items }
    }

    /// The marks, in order.
    pub fn as_slice(&self) -> &[Fired]
        ensures { result.now ≡ self.now }
    {
        self.items.as_slice()
    }

    /// The marks, in order. It takes no memory.
    pub fn into_vec(self) -> Vec<Fired>
        ensures { result.items ≡ self }
    {
        self.items
    }
}

/// The groups of a lane's rows. Those that a question finds ascend by key, and in a bucket by the value that keeps its rows apart.
#[derive(Debug, Drop)]
pub struct Groups {
    items: Vec<Group>,
}

impl Model for Groups {
    ghost use Rattle.std.specs.Prelude.{List, ℕ, map};
    ghost use Rattle.cf_fold.specs.Quads.{QuadValue};
    ghost use Rattle.cf_plain.specs.Groups.{pair_of};

    ghost Value = { List (ℕ × QuadValue) };

    ghost view = { λ g. map pair_of g.items.items };
}

impl Groups {
    ghost use Rattle.std.specs.Prelude.{◌≡◌, map};
    ghost use Rattle.cf_plain.specs.Groups.{pair_of};

    /// These groups.
    pub fn new(items: Vec<Group>) -> Groups
        ensures { result ≡ map pair_of items.items }
    {
        Groups { items }
    }

    /// The groups, in order.
    pub fn as_slice(&self) -> &[Group]
        ensures { map pair_of result.now ≡ self.now }
    {
        self.items.as_slice()
    }

    /// The groups, in order. It takes no memory.
    pub fn into_vec(self) -> Vec<Group>
        ensures { map pair_of result.items ≡ self }
    {
        self.items
    }
}

/// What a question found.
#[derive(Debug, Drop)]
pub enum Body {
    /// The places of rows, ascending.
    Places(Places),
    /// The quad of what is measured or added up.
    Total(Quad),
    /// The buckets in which a trigger fires, ascending.
    Marks(Marks),
    /// The keys of the heaviest groups, the heaviest first.
    Tops(Marks),
    /// All groups of a lane, ascending by key.
    Groups(Groups),
}

/// What a question found in the log's first `tail` entries.
#[derive(Debug, Drop)]
pub struct Answer {
    /// The number of entries, from the first one on, that the answer is about.
    pub tail: u32,
    /// What was found in them.
    pub body: Body,
}

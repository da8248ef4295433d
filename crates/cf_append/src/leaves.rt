// A writer keeps its last leaf in each lane.
ghost use Rattle.std.specs.Prelude.{ℕ, ◌≡◌, ◌<◌, length, slice_set, IfSome, IfNone};
ghost use Rattle.cf_shape.specs.Lanes.{ShapeValue};
ghost use Rattle.cf_law.specs.Passes.{Pass};
ghost use Rattle.cf_append.specs.Paths.{Keeps, Remembers};

// A leaf, and the front of its keys: all nibbles but the last, as a number.
#[derive(Clone, Copy, Drop)]
struct Leaf {
    front: u64,
    node: u32,
}

/// The last leaf of a writer in each lane, if any. Where the next record's key has the same front, its leaf is that one, and no
/// step is made to find it.
#[derive(Drop)]
pub struct Leaves {
    kept: [Option<Leaf>; 16],
}

impl Leaves {
    /// No leaf is kept, in any lane.
    pub fn new() -> Leaves
        ensures { (shape : ShapeValue) (view : Pass) → Remembers shape view result }
    {
        Leaves { kept: [None; 16] }
    }

    // The node of the leaf that is kept in a lane, where it is the one of keys with that front.
    pub(crate) fn find(&self, lane: u8, front: u64) -> Option<u32>
        requires { lane < length self.now.kept }
        ensures found { IfSome result (λ node. Keeps self.now lane front node) }
        ensures none { IfNone result ((node : ℕ) → Keeps self.now lane front node → ⊥) }
    {
        let kept = self.kept[usize::from(lane)];
        match kept {
            Some(leaf) if leaf.front == front => Some(leaf.node),
            _ => None,
        }
    }

    // Keeps a leaf in a lane, in place of the one before.
    pub(crate) fn keep(&mut self, lane: u8, front: u64, node: u32)
        requires { lane < length self.old.kept }
        ensures { self.new ≡ record self.old { kept = slice_set self.old.kept lane (Some record { front = front; node = node }) } }
    {
        self.kept[usize::from(lane)] = Some(Leaf { front, node });
    }
}

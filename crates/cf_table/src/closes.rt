// A log is closed.
ghost use Rattle.std.specs.Prelude.{◌≡◌, MatchResult};
ghost use Rattle.cf_law.specs.Shapes.{layout};
ghost use Rattle.cf_law.specs.Readers.{AtHome};
ghost use Rattle.cf_table.specs.Values.{IsOf};
ghost use Rattle.cf_table.specs.Moves.{OnlyLooked};

use crate::log::MultiLog;
use crate::pass::Root;
use cf_row::Entry;
use std::alloc::Global;
use std::marker::Model;
use std::snapshot::Snapshot;

/// What a closed log was. It has no bytes, and only `MultiLog::seal` makes one.
#[derive(Drop)]
pub struct Seal {
    root: Snapshot<Root>,
}

impl Model for Seal {
    ghost use Rattle.cf_table.specs.Moves.{SealValue};

    ghost Value = { SealValue };

    ghost view = { λ s. record { entries = s.root.value.view.seen; told = s.root.value.view.told } };
}

/// The entries of a closed log in the order of their offsets, and its seal.
#[derive(Drop)]
pub struct Closed {
    pub entries: Vec<Entry>,
    pub seal: Seal,
}

impl MultiLog {
    /// The seal of the log, whose books are at home: its entries are those that the root has seen. It takes no memory.
    pub fn seal(self, root: Root) -> Seal
        requires of { IsOf root self }
        requires home { AtHome (layout self.shape) root.view }
        ensures { result ≡ record { entries = root.view.seen; told = root.view.told } }
    {
        Seal {
            root: Snapshot::of(&root),
        }
    }

    /// The log's entries, which are those that the root has seen, and a seal of them. After want of memory the log and the
    /// root come back, and only the root's last look is another.
    pub fn close(self, alloc: Global, mut root: Root) -> Result<Closed, (MultiLog, Root)>
        requires of { IsOf root self }
        requires home { AtHome (layout self.shape) root.view }
        ensures { MatchResult result (λ closed. (closed.entries.items ≡ root.view.seen) × (closed.seal ≡ record { entries = root.view.seen; told = root.view.told }))
            (λ back. (back.0 ≡ self) × OnlyLooked root back.1) }
    {
        match self.entries(alloc, &mut root) {
            Ok(entries) => Ok(Closed {
                entries,
                seal: self.seal(root),
            }),
            Err(_) => Err((self, root)),
        }
    }
}

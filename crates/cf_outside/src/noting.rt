// A shelf in memory that notes its reads.
ghost use Rattle.std.specs.Prelude.{◌≡◌, ◌≤◌, []};
ghost use Rattle.cf_outside.specs.Causes.{count_up};

use crate::{Failed, MemShelf, OpenFault, Shelf};
use std::alloc::Global;

/// A shelf in memory that also tells how many bytes each read moved. A note takes memory: a read fails without it.
#[derive(Drop)]
pub struct NotingShelf {
    shelf: MemShelf,
    moved: Vec<usize>,
    faults: u64,
}

impl NotingShelf {
    /// The files of that shelf, of which nothing was read yet.
    pub fn new(alloc: Global, shelf: MemShelf) -> Self
        ensures shelf { result.shelf ≡ shelf }
        ensures moved { result.moved.items ≡ [] }
    {
        NotingShelf {
            shelf,
            moved: Vec::new(alloc),
            faults: 0,
        }
    }

    /// How many bytes each read moved.
    pub fn moved(&self) -> &[usize]
        ensures { result.now ≡ self.now.moved.items }
    {
        &self.moved
    }

    // One more call has failed.
    fn fail(&mut self) -> Failed
        ensures shelf { self.new.shelf ≡ self.old.shelf }
        ensures moved { self.new.moved ≡ self.old.moved }
        ensures faults { self.new.faults ≡ count_up self.old.faults }
        ensures later { self.old.faults ≤ self.new.faults }
    {
        self.faults = self.faults.saturating_add(1);
        Failed
    }
}

impl Shelf for NotingShelf {
    ghost use Rattle.std.specs.declared.option.Option.TheVariants.{Some};

    ghost files = { λ s. Some s.shelf.files };

    ghost rest = { λ s. Some s.shelf.rest };

    ghost moved = { λ s. Some s.moved.items };

    ghost faults = { λ s. s.faults };

    fn open(&mut self, name: &str) -> Result<(), OpenFault> {
        match self.shelf.open(name) {
            Ok(()) => Ok(()),
            Err(OpenFault::Failed) => {
                let _ = self.fail();
                Err(OpenFault::Failed)
            }
            Err(fault) => Err(fault),
        }
    }

    fn read(&mut self, buf: &mut [u8]) -> Result<usize, Failed> {
        if self.moved.reserve(1).is_err() {
            return Err(self.fail());
        }
        match self.shelf.read(buf) {
            Ok(count) => {
                self.moved.push_reserved(count);
                Ok(count)
            }
            Err(Failed) => Err(self.fail()),
        }
    }
}

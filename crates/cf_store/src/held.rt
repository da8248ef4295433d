// A log, its writers and its readers, as a program holds them.
ghost use Rattle.std.specs.Prelude.{◌≡◌, ◌++◌, ◌∷◌, [], All, Ok, true};
ghost use Rattle.std.specs.List.{list_all};
ghost use Rattle.std.specs.Arc.{arc_value};
ghost use Rattle.cf_law.specs.Steps.{new_pass};
ghost use Rattle.cf_table.specs.Values.{IsOf};
ghost use Rattle.cf_plain.specs.Asks.{suits_of, suits_trigger};
ghost use Rattle.cf_setup.specs.Setups.{shaped as shaped_by};
ghost use Rattle.cf_setup.specs.Reading.{setup_at};
ghost use Rattle.cf_store.specs.Homes.{MayCome};
ghost use Rattle.cf_table.specs.Moves.{IsReading};
ghost use Rattle.cf_append.specs.Appends.{IsReady};
ghost use Rattle.cf_store.specs.Parts.{AreNumbered, IsPlaceOf};

use crate::place::Place;
use crate::way::{Sent, Way};
use cf_setup::Setup;
use cf_table::{MultiLog, ReaderPass, Root, WriterPass};
use std::sync::Arc;

/// A log, its setup and the text of that, which the log, its writers and its readers share.
#[derive(Drop)]
pub struct Shared {
    pub(crate) log: MultiLog,
    pub(crate) setup: Setup,
    pub(crate) text: Vec<u8>,
    ghost suited: { list_all (suits_of log.shape) setup.asks ≡ true },
    ghost armed: { list_all (suits_trigger log.shape) setup.triggers ≡ true },
    ghost stated: { setup_at text.items ≡ Ok setup },
    ghost shaped: { log.shape ≡ shaped_by setup log.shape.capacity log.shape.writers log.shape.nodes },
}

/// A log, with the places of its writers. The pass of a writer that is freed, in whatever thread, comes back to its place.
#[derive(Drop)]
pub struct Log {
    pub(crate) of: Arc<Shared>,
    pub(crate) root: Root,
    pub(crate) places: Vec<Place>,
    ghost root_of: { IsOf root (arc_value of).log },
    ghost root_new: { root.view ≡ new_pass [] [] },
    ghost placed: { All (IsPlaceOf (arc_value of).log) places.items },
    ghost numbered: { AreNumbered (arc_value of).log places.items },
}

/// A writer of a log. When it is let go, its pass goes back to its place in the log, where it is taken again.
pub struct Writer {
    pub(crate) of: Arc<Shared>,
    pub(crate) pass: WriterPass,
    pub(crate) way: Way,
    ghost ready: { IsReady (arc_value of).log pass },
    ghost homeward: { MayCome way pass },
}

impl Writer {
    // Its pass, which is not sent home.
    pub(crate) fn into_pass(self) -> WriterPass
        ensures { result ≡ self.pass }
    {
        let Writer {
            of: _of,
            pass,
            way: _way,
        } = self;
        pass
    }

    /// Gives the writer back: its pass, with all that it has appended, goes home to its place in the log.
    pub fn give_back(self) -> Sent
        ensures { result ≡ self.way ++ self.pass ∷ [] }
    {
        let Writer { of: _of, pass, way } = self;
        way.send(pass)
    }
}

impl Drop for Writer {
    fn drop(self) {
        drop(self.give_back());
    }
}

/// A reader of a log, with the words of its last answer.
#[derive(Drop)]
pub struct Reader {
    pub(crate) of: Arc<Shared>,
    pub(crate) pass: ReaderPass,
    pub(crate) words: Vec<u64>,
    ghost aware: { IsReading (arc_value of).log pass },
}

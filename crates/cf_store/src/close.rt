// A log is closed.
ghost use Rattle.std.specs.Prelude.{◌≡◌, ◌≤◌, [], All, false, length, true, vec_capacity};
ghost use Rattle.std.specs.Arc.{arc_value};
ghost use Rattle.std.specs.Box.{box_value};
ghost use Rattle.std.specs.Result.{result_map_both};
ghost use Rattle.cf_store.specs.Homes.{HaveLooked, IsHome};
ghost use Rattle.cf_store.specs.Closes.{Closes, IsEnd, IsTaken};
ghost use Rattle.cf_store.specs.Opens.{IsLogWith};
ghost use Rattle.cf_table.specs.Moves.{IsReading};

use crate::held::{Log, Reader};
use crate::places::{find_away, take_home};
use crate::refusals::CloseRefusal;
use cf_table::{ReaderPass, WriterPass};
use std::alloc::Global;

impl Log {
    // Whether no writer is taken. Passes may come home.
    fn is_free(&mut self) -> bool
        ensures same { IsLogWith self.new.places.items self.old self.new }
        ensures looked { HaveLooked self.old.places.items self.new.places.items }
        ensures free { result ≡ true → All IsHome self.new.places.items }
        ensures taken { result ≡ false → IsTaken self.new.places.items }
    {
        find_away(&mut self.places).is_none()
    }

    // Gathers the passes of all writers, and forks a reader's pass. There is room for them.
    fn into_last(self, mut passes: Vec<WriterPass>) -> ReaderPass
        requires home { All IsHome self.places.items }
        requires room { (passes.items ≡ []) × (length self.places.items ≤ vec_capacity passes) }
        ensures aware { IsReading (arc_value self.of).log result }
        ensures end { IsEnd self result }
    {
        let Log {
            of,
            mut root,
            places,
        } = self;
        take_home(places, &mut passes);
        of.log.gather(&mut root, passes);
        of.log.fork(&mut root)
    }

    /// Closes a log whose writers are all free: their passes come home, and what comes back is a reader that has seen all that they have
    /// appended. A log that is not closed comes back.
    pub fn close(mut log: Box<Log>, alloc: Global) -> Result<Box<Reader>, (Box<Log>, CloseRefusal)>
        ensures { Closes log.value (result_map_both box_value (λ back. (box_value back.0, back.1)) result) }
    {
        if !log.is_free() {
            return Err((log, CloseRefusal::Busy));
        }
        let Ok(passes) = Vec::with_capacity(alloc, log.places.len()) else {
            return Err((log, CloseRefusal::Memory));
        };
        let Ok(mut reader) = log.next_reader(alloc) else {
            return Err((log, CloseRefusal::Memory));
        };
        reader.pass = Box::into_inner(log).into_last(passes);
        Ok(reader)
    }
}

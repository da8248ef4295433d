// How a pass comes home.
ghost use Rattle.std.specs.Prelude.{◌≡◌, ◌++◌, ◌∷◌, [], IfOk, IfErr};
ghost use Rattle.rtrb.specs.Ring.{known_free, known_items, received, sent};
ghost use Rattle.cf_store.specs.Homes.{MayCome};

use cf_table::WriterPass;
use rtrb::{Consumer, Producer, Protocol, RingBuffer};
use std::alloc::Global;
use std::marker::Model;

/// What a place is promised of the pass that comes home: it is that of the same writer of the same log, at rest, with the rows and the nodes
/// that it left with and perhaps more.
#[derive(Clone, Copy)]
pub(crate) struct Homeward;

impl Protocol<WriterPass> for Homeward {
    ghost allows = { MayCome };
}

/// The way home of a pass. Contracts see the passes that were sent on it, the first of which is the one that was taken.
#[derive(Drop)]
pub(crate) struct Way {
    end: Producer<WriterPass, Global, Homeward>,
}

impl Model for Way {
    ghost use Rattle.std.specs.Prelude.{List, ◌<◌};
    ghost use Rattle.cf_table.specs.Values.{PassValue};
    ghost use Rattle.rtrb.specs.Ring.{known_free, sent};

    ghost Value = { List PassValue };

    ghost view = { λ w. sent w.end };

    ghost invariant = { λ w. 0 < known_free w.end };
}

/// The way home of a pass that was sent. Contracts see the passes that were sent on it, of which it is the last.
#[derive(Drop)]
pub struct Sent {
    end: Producer<WriterPass, Global, Homeward>,
}

impl Model for Sent {
    ghost use Rattle.std.specs.Prelude.{List};
    ghost use Rattle.cf_table.specs.Values.{PassValue};
    ghost use Rattle.rtrb.specs.Ring.{sent};

    ghost Value = { List PassValue };

    ghost view = { λ s. sent s.end };
}

impl Way {
    /// Sends the pass home.
    pub(crate) fn send(self, pass: WriterPass) -> Sent
        requires { MayCome self pass }
        ensures { result ≡ self ++ pass ∷ [] }
    {
        let Way { mut end } = self;
        end.push_reserved(pass);
        Sent { end }
    }
}

// A new way for a pass: the way, the end at which it comes home, and the pass. Without memory the pass comes back.
pub(crate) fn way_for(
    alloc: Global,
    pass: WriterPass,
) -> Result<(WriterPass, Way, Consumer<WriterPass, Global, Homeward>), WriterPass>
    ensures ok { IfOk result (λ made. (made.0 ≡ pass) × (made.1 ≡ pass ∷ []) × (received made.2 ≡ pass ∷ []) × (known_items made.2 ≡ [])) }
    ensures memory { IfErr result (λ back. back ≡ pass) }
{
    let Ok((mut end, mut home)) = RingBuffer::with_protocol::<Global, Homeward>(alloc, 2) else {
        return Err(pass);
    };
    end.push_reserved(pass);
    home.slots_beside(&mut end);
    let pass = home.pop_known();
    Ok((pass, Way { end }, home))
}

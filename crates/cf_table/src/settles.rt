// The read tail is moved over all that is finished.
ghost use Rattle.std.specs.Prelude.{◌≡◌, ◌+◌, ◌-◌, ◌*◌, ◌<◌, ◌≤◌, length};
ghost use Rattle.cf_table.specs.Loads.{CountsLoads};
ghost use Rattle.cf_table.specs.Values.{IsOf};
ghost use Rattle.cf_table.specs.Moves.{HasSettled, SeenFirst, Stops};

use crate::count::Steps;
use crate::log::MultiLog;
use crate::pass::{Pass, Root};
use std::sync::ledger::{Blank, Ledger};

impl MultiLog {
    /// Moves the read tail over each finished ticket, up to the first that isn't. Where all places are covered a last look
    /// shows it.
    pub fn settle_tail<P: Pass, L: Ledger>(&self, pass: &mut P, steps: &mut Steps<L>)
        requires of { IsOf (P.held pass.old) self.now }
        ensures settled { HasSettled self.now.shape (P.held pass.old) (P.held pass.new) }
        ensures known { (P.held pass.new).view.known ≡ (P.held pass.old).view.known }
        ensures stops { Stops self.now.shape (P.held pass.old).view (P.held pass.new).view }
        ensures begins { SeenFirst (P.held pass.new).view }
        ensures steps { steps.new ≤ steps.old + 2 * (length (P.held pass.new).view.seen - length (P.held pass.old).view.seen) + 1 }
        ensures loads { CountsLoads (P.held pass.old) (P.held pass.new) steps.old steps.new }
    {
        let capacity = self.shape().capacity();
        while pass.covered() < capacity {
            let t = pass.covered();
            if !self.look_done(pass, t, steps) {
                return;
            }
            self.advance(pass, t, steps);
        }
        self.look_done(pass, 0, steps);
    }
}

// Moves the read tail of the root, whose steps no one counts.
pub(crate) fn settle_counted<L: Ledger>(log: &MultiLog, root: &mut Root, blank: Blank)
    requires of { IsOf root.old log.now }
    requires blank { (blank.name ≡ L.name) × (blank.parts ≡ L.parts) × (0 < L.parts) }
    ensures { HasSettled log.now.shape root.old root.new }
{
    let mut steps = Steps::<L>::new(blank);
    log.settle_tail(root, &mut steps);
}

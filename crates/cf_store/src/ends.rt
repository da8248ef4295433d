// How far readers of logs look that stand one behind the other.
ghost use Rattle.std.specs.Prelude.{◌≡◌, ◌≤◌, ◌∷◌, length};
ghost use Rattle.std.specs.Arc.{arc_value};
ghost use Rattle.cf_store.specs.Ends.{AreBehind, AsksOthers, seen_of};
ghost use Rattle.cf_store.specs.Spans.{IsLast, passes_of, seen_each};

use crate::held::{Reader, Shared};
use cf_table::{Pass, ReaderPass};

/// The number of the last log that is looked at, from 0, of which the first is that of the pass.
pub(crate) fn last_seen(capacity: u32, first: &ReaderPass, rest: &[Reader]) -> usize
    ensures { IsLast capacity (seen_each (first.now ∷ passes_of rest.now)) result }
{
    let mut tail = first.covered();
    for k in 0..rest.len() {
        if tail != capacity {
            return k;
        }
        tail = rest[k].pass.covered();
    }
    rest.len()
}

/// Asks the tail of each log behind the first, as long as all is seen that the log before it takes. Answers how many were asked, which is
/// the number of the last log that is looked at.
pub(crate) fn look_on(capacity: u32, first: &ReaderPass, rest: &mut [Reader]) -> usize
    ensures { AsksOthers capacity first.now rest.old rest.new result }
{
    let mut tail = first.covered();
    for k in 0..rest.len() {
        if tail != capacity {
            return k;
        }
        tail = rest[k].tail();
    }
    rest.len()
}

/// How many records are seen of the first log and of those behind it.
pub(crate) fn covered_in(shared: &Shared, first: &ReaderPass, rest: &[Reader]) -> u32
    requires { AreBehind shared.now first.now rest.now }
    ensures { result ≡ length (seen_of shared.now first.now rest.now) }
{
    let capacity = shared.log.shape().capacity();
    let last = last_seen(capacity, first, rest);
    if last == 0 {
        return first.covered();
    }
    let more = rest[last - 1].pass.covered();
    last as u32 * capacity + more
}

impl Reader {
    /// How many records this reader and those behind it see.
    pub(crate) fn covered_with(&self, rest: &[Reader]) -> u32
        requires { AreBehind (arc_value self.now.of) self.now.pass rest.now }
        ensures { result ≡ length (seen_of (arc_value self.now.of) self.now.pass rest.now) }
    {
        covered_in(&self.of, &self.pass, rest)
    }
}

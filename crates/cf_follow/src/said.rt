// What rounds say is written.
ghost use Rattle.std.specs.Prelude.{◌≡◌, ◌≤◌, All, Err, false, OnOk};
ghost use Rattle.cf_outside.specs.Causes.{Rose};
ghost use Rattle.cf_row.specs.Row.{Fits};
ghost use Rattle.cf_rounds.specs.Held.{IsSetAs};
ghost use Rattle.cf_follow.specs.Heard.{Hears, Refuses, TellsRound};
ghost use Rattle.cf_follow.specs.declared.ending.Ending.TheVariants as endings;

use crate::Ending;
use crate::gone::take_rows;
use cf_intake::{Refusal, write_all};
use cf_outside::Sink;
use cf_rounds::Rounds;
use cf_row::Row;
use std::alloc::Global;
use std::thread::Threads;

/// A round is made, which may be the last of all, and what it says is written, and then the line.
pub(crate) fn tell<K: Sink>(
    alloc: Global,
    rounds: &mut Rounds,
    is_last: bool,
    line: &str,
    sink: &mut K,
) -> Result<(), Ending>
    ensures set { IsSetAs rounds.old rounds.new }
    ensures told { TellsRound is_last rounds.old line.now rounds.new (K.held sink.old) (K.held sink.new) result }
    ensures later { K.faults sink.old ≤ K.faults sink.new }
    ensures cause { result ≡ Err endings.Unwritten → Rose (K.faults sink.old) (K.faults sink.new) }
{
    let mut text = String::new(alloc);
    rounds.round(alloc, is_last, &mut text)?;
    text.push_str(line)?;
    write_all(sink, text.as_bytes())?;
    Ok(())
}

/// The last round is made, which ends with a refusal.
pub(crate) fn refuse<K: Sink>(
    alloc: Global,
    rounds: &mut Rounds,
    why: Refusal,
    sink: &mut K,
) -> Ending
    ensures set { IsSetAs rounds.old rounds.new }
    ensures refused { Refuses rounds.old why (K.held sink.old) (K.held sink.new) result }
    ensures later { K.faults sink.old ≤ K.faults sink.new }
    ensures cause { result ≡ endings.Unwritten → Rose (K.faults sink.old) (K.faults sink.new) }
{
    let line = match why.line(alloc) {
        Ok(line) => line,
        Err(error) => return Ending::from(error),
    };
    match tell(alloc, rounds, true, line.as_str(), sink) {
        Ok(()) => Ending::Refused(why),
        Err(ending) => ending,
    }
}

/// The rows of a read go in, and what is said of them is written. If one is turned away, its line is too.
pub(crate) fn hear<R: Threads, K: Sink>(
    rt: &R,
    alloc: Global,
    rounds: &mut Rounds,
    rows: &[Row],
    sink: &mut K,
) -> Result<(), Ending>
    requires fits { All (Fits rounds.old.terms.shape.schema) rows.now }
    requires open { rounds.old.is_spent ≡ false }
    requires within { rounds.old.now.count ≤ rounds.old.limit }
    ensures set { IsSetAs rounds.old rounds.new }
    ensures heard { Hears rounds.old rows.now (K.held sink.old) rounds.new (K.held sink.new) result }
    ensures open { OnOk result (rounds.new.is_spent ≡ false) }
    ensures within { OnOk result (rounds.new.now.count ≤ rounds.new.limit) }
    ensures later { K.faults sink.old ≤ K.faults sink.new }
    ensures cause { result ≡ Err endings.Unwritten → Rose (K.faults sink.old) (K.faults sink.new) }
{
    match take_rows(rt, alloc, rounds, rows, sink) {
        Ok(None) => tell(alloc, rounds, false, "", sink),
        Ok(Some(why)) => Err(refuse(alloc, rounds, why, sink)),
        Err(ending) => Err(ending),
    }
}

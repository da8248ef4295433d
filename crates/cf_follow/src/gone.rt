// The rows of a read go into the window.
ghost use Rattle.std.specs.Prelude.{◌≡◌, ◌≤◌, All, Err, IfOk, IsNone, false, [], ◌∷◌};
ghost use Rattle.cf_outside.specs.Causes.{Rose};
ghost use Rattle.cf_row.specs.Row.{Fits};
ghost use Rattle.cf_rounds.specs.Held.{IsSetAs};
ghost use Rattle.cf_follow.specs.Heard.{HaveGone};
ghost use Rattle.cf_follow.specs.declared.ending.Ending.TheVariants as endings;

use crate::Ending;
use crate::said::tell;
use cf_intake::Refusal;
use cf_outside::Sink;
use cf_rounds::{Rounds, Taken};
use cf_row::Row;
use std::alloc::Global;
use std::thread::Threads;

// A row goes in, or is turned away. If a round has to be made before it, what that says is written first.
fn take_row<R: Threads, K: Sink>(
    rt: &R,
    alloc: Global,
    rounds: &mut Rounds,
    row: &Row,
    sink: &mut K,
) -> Result<Option<Refusal>, Ending>
    requires fits { Fits rounds.old.terms.shape.schema row.now }
    requires open { rounds.old.is_spent ≡ false }
    requires within { rounds.old.now.count ≤ rounds.old.limit }
    ensures set { IsSetAs rounds.old rounds.new }
    ensures gone { HaveGone rounds.old (row.now ∷ []) (K.held sink.old) rounds.new (K.held sink.new) result }
    ensures open { IfOk result (λ found. IsNone found → rounds.new.is_spent ≡ false) }
    ensures within { IfOk result (λ found. rounds.new.now.count ≤ rounds.new.limit) }
    ensures later { K.faults sink.old ≤ K.faults sink.new }
    ensures cause { result ≡ Err endings.Unwritten → Rose (K.faults sink.old) (K.faults sink.new) }
{
    match rounds.take(rt, alloc, row)? {
        Taken::Gone => Ok(None),
        Taken::Waits => {
            tell(alloc, rounds, false, "", sink)?;
            rounds.take_waited(rt, alloc, row)?;
            Ok(None)
        }
        Taken::Full => {
            let most = rounds.count();
            Ok(Some(Refusal::Full { most }))
        }
        Taken::NoNodes => {
            let nodes = rounds.shape().nodes();
            Ok(Some(Refusal::Nodes { nodes }))
        }
    }
}

/// The rows go in, one after another, until one is turned away. What a round says that a row forces is written before it goes in.
pub(crate) fn take_rows<R: Threads, K: Sink>(
    rt: &R,
    alloc: Global,
    rounds: &mut Rounds,
    rows: &[Row],
    sink: &mut K,
) -> Result<Option<Refusal>, Ending>
    requires fits { All (Fits rounds.old.terms.shape.schema) rows.now }
    requires open { rounds.old.is_spent ≡ false }
    requires within { rounds.old.now.count ≤ rounds.old.limit }
    ensures set { IsSetAs rounds.old rounds.new }
    ensures gone { HaveGone rounds.old rows.now (K.held sink.old) rounds.new (K.held sink.new) result }
    ensures open { IfOk result (λ found. IsNone found → rounds.new.is_spent ≡ false) }
    ensures within { IfOk result (λ found. rounds.new.now.count ≤ rounds.new.limit) }
    ensures later { K.faults sink.old ≤ K.faults sink.new }
    ensures cause { result ≡ Err endings.Unwritten → Rose (K.faults sink.old) (K.faults sink.new) }
{
    for row in rows {
        match take_row(rt, alloc, rounds, row, sink) {
            Ok(None) => {}
            Ok(Some(why)) => return Ok(Some(why)),
            Err(ending) => return Err(ending),
        }
    }
    Ok(None)
}

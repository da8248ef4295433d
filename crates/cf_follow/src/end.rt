// The end of a capture.
ghost use Rattle.std.specs.Prelude.{◌≡◌, ◌≤◌, ℕ, Bool, List, Option, IfOk, string_bytes};
ghost use Rattle.cf_outside.specs.Causes.{Rose};
ghost use Rattle.cf_outside.specs.Files.{ShelfView};
ghost use Rattle.cf_row.specs.declared.packet6.PacketSchema.{PacketSchema};
ghost use Rattle.cf_rounds.specs.Held.{RoundsValue};
ghost use Rattle.cf_follow.specs.Followed.{IsAtLast, IsFollowed};
ghost use Rattle.cf_follow.specs.Heard.{Concludes, ended_text};
ghost use Rattle.cf_intake.specs.declared.refusal.Stop.TheVariants as stops;
ghost use Rattle.cf_follow.specs.declared.ending.Ending.TheVariants as endings;

use crate::Ending;
use crate::said::refuse;
use crate::truncated::push_truncated;
use cf_intake::{Halt, Reads, write_all};
use cf_outside::Sink;
use cf_rounds::Rounds;
use cf_row::Memory;
use std::alloc::Global;

// The text of the end.
fn end_text(alloc: Global, rounds: &mut Rounds, cut: Option<u64>) -> Result<String, Memory>
    ensures { IfOk result (λ text. string_bytes text ≡ ended_text rounds.old cut) }
{
    let mut text = String::new(alloc);
    rounds.finish(alloc, &mut text)?;
    push_truncated(&mut text, cut)?;
    Ok(text)
}

// The end of a capture is written.
fn conclude<K: Sink>(alloc: Global, rounds: &mut Rounds, cut: Option<u64>, sink: &mut K) -> Ending
    ensures concluded { Concludes rounds.old cut (K.held sink.old) (K.held sink.new) result }
    ensures later { K.faults sink.old ≤ K.faults sink.new }
    ensures cause { result ≡ endings.Unwritten → Rose (K.faults sink.old) (K.faults sink.new) }
{
    let text = match end_text(alloc, rounds, cut) {
        Ok(text) => text,
        Err(error) => return Ending::from(error),
    };
    match write_all(sink, text.as_bytes()) {
        Ok(()) => Ending::Done,
        Err(error) => Ending::from(error),
    }
}

/// What the end of the capture says is written: the end of its rounds, or the line of its fault.
pub(crate) fn end<K: Sink>(
    alloc: Global,
    mut rounds: Rounds,
    reads: Reads,
    truncated: bool,
    sink: &mut K,
) -> Ending
    ensures ended { (schema : PacketSchema) (begun : RoundsValue) (marks : List Bool) (before now : ShelfView) (held : Option (List ℕ))
        → IsAtLast schema begun marks rounds reads before now held (K.held sink.old)
        → IsFollowed schema begun truncated before now held (K.held sink.new) result × (result ≡ endings.Stopped stops.ReadFault → ⊥) }
    ensures later { K.faults sink.old ≤ K.faults sink.new }
    ensures cause { result ≡ endings.Unwritten → Rose (K.faults sink.old) (K.faults sink.new) }
{
    match reads.finish(alloc, truncated) {
        Ok(cut) => conclude(alloc, &mut rounds, cut, sink),
        Err(Halt::Refused(why)) => refuse(alloc, &mut rounds, why, sink),
        Err(Halt::Stopped(stop)) => Ending::Stopped(stop),
    }
}

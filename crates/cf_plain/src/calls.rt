// Calls of one thread, one after the other.
ghost use Rattle.std.specs.Prelude.{◌≡◌, ◌≤◌, ◌+◌, ◌^◌, [], length, IfOk};
ghost use Rattle.std.specs.List.{AllByRecursion};
ghost use Rattle.cf_plain.specs.Calls.{IsLawful, appends_in, appends_by, held_after, reply_by, replies_to};

use crate::{Answer, Ask, Plain};
use cf_row::{Entry, Memory};
use cf_shape::Shape;
use std::alloc::Global;

/// A call of the one thread.
#[derive(Debug, Drop)]
pub enum Call {
    /// Appends the entry's row as its writer's.
    Append(Entry),
    /// Asks the question on the entries so far.
    Ask(Ask),
}

/// A call's answer: the place of an appended entry, or what a question found.
#[derive(Debug, Drop)]
pub enum Reply {
    /// The place of the appended entry, from 0.
    Place(u32),
    /// The answer to the question.
    Told(Answer),
}

fn reply_to(alloc: Global, plain: &mut Plain, call: Call) -> Result<Reply, Memory>
    requires lawful { IsLawful plain.old.shape call }
    requires few { length plain.old.entries + appends_by call ≤ 2 ^ 20 }
    ensures shape { plain.new.shape ≡ plain.old.shape }
    ensures reply { IfOk result (λ reply. reply ≡ reply_by plain.old.shape plain.old.entries call) }
    ensures entries { IfOk result (λ _. plain.new.entries ≡ held_after plain.old.entries call) }
{
    match call {
        Call::Append(entry) => {
            let place = plain.append(entry.writer, entry.row)?;
            Ok(Reply::Place(place))
        }
        Call::Ask(ask) => {
            let answer = plain.ask(alloc, &ask)?;
            Ok(Reply::Told(answer))
        }
    }
}

/// Each call's answer, on the list that the calls before it made. It fails only if memory runs out.
pub fn run_calls(alloc: Global, shape: Shape, calls: Vec<Call>) -> Result<Vec<Reply>, Memory>
    requires lawful { AllByRecursion (IsLawful shape) calls.items }
    requires few { appends_in calls.items ≤ 2 ^ 20 }
    ensures { IfOk result (λ replies. replies.items ≡ replies_to shape [] calls.items) }
{
    let mut plain = Plain::new(alloc, shape);
    let mut replies = Vec::new(alloc);
    for call in calls {
        replies.push(reply_to(alloc, &mut plain, call)?)?;
    }
    Ok(replies)
}

// The lines of live answers.
ghost use Rattle.std.specs.Prelude.{◌≡◌, ◌<◌, ◌++◌, [], All, codes, length, OnOk, string_bytes};
ghost use Rattle.cf_plain.specs.Asks.{rows_in};
ghost use Rattle.cf_report.specs.Answered.{IsWithin, ask_at};
ghost use Rattle.cf_report.specs.Bodies.{word_of};
ghost use Rattle.cf_report.specs.Report.{live_head, live_line, live_lines, new_line, marks_of, marks_before as marks_before_of};

use crate::Tags;
use crate::body::{push_live, push_marks, word};
use crate::lines::name_at;
use cf_plain::{Body, Fired, Live};
use cf_row::Memory;
use cf_setup::Setup;
use cf_watch::newly;
use std::alloc::Global;
use std::fmt::Write;

fn word_at(setup: &Setup, place: usize) -> &str
    requires { place < length setup.now.asks }
    ensures { result.now ≡ word_of (ask_at setup.now place) }
{
    word(&setup.asks()[place])
}

// `FIRST NAME @T KIND`
fn push_head(text: &mut String, setup: &Setup, first: &str, live: &Live) -> Result<(), Memory>
    requires { live.now.ask < length setup.now.asks }
    ensures { OnOk result (string_bytes text.new ≡ string_bytes text.old ++ live_head setup.now first.now live.now) }
{
    let place = live.ask as usize;
    let name = name_at(setup.ask_names(), place);
    let word = word_at(setup, place);
    let tail = live.answer.tail;
    write!(text, "{first} {name} @{tail} {word}")
}

fn push_live_line(
    alloc: Global,
    text: &mut String,
    setup: &Setup,
    entries: &Tags,
    live: &Live,
) -> Result<(), Memory>
    requires exists { live.now.ask < length setup.now.asks }
    requires places { IsWithin (length entries.now) live.now.answer.body }
    ensures { OnOk result (string_bytes text.new ≡ string_bytes text.old ++ live_line setup.now (rows_in entries.now) live.now) }
{
    push_head(text, setup, "live", live)?;
    push_live(alloc, text, entries, &live.answer.body)?;
    text.push_str("\n")
}

fn marks_in(live: &Live) -> &[Fired]
    ensures { result.now ≡ marks_of live.now.answer.body }
{
    match &live.answer.body {
        Body::Marks(marks) => marks.as_slice(),
        _ => &[],
    }
}

// What the question found when it was last asked before.
fn marks_before(earlier: &[Live], ask: u8) -> &[Fired]
    ensures { result.now ≡ marks_before_of earlier.now ask }
{
    let mut place = earlier.len();
    while place > 0 {
        place -= 1;
        if earlier[place].ask == ask {
            return marks_in(&earlier[place]);
        }
    }
    &[]
}

fn push_new_line(
    alloc: Global,
    text: &mut String,
    setup: &Setup,
    earlier: &[Live],
    live: &Live,
) -> Result<(), Memory>
    requires { live.now.ask < length setup.now.asks }
    ensures { OnOk result (string_bytes text.new ≡ string_bytes text.old ++ new_line setup.now earlier.now live.now live.now.answer.body) }
{
    match &live.answer.body {
        Body::Places(_) => Ok(()),
        Body::Total(_) => Ok(()),
        Body::Tops(_) => Ok(()),
        Body::Groups(_) => Ok(()),
        Body::Marks(marks) => {
            let new = newly(alloc, marks_before(earlier, live.ask), marks.as_slice())?;
            push_head(text, setup, "new", live)?;
            push_marks(text, &new)?;
            text.push_str("\n")
        }
    }
}

fn push_lines(
    alloc: Global,
    text: &mut String,
    setup: &Setup,
    entries: &Tags,
    earlier: &[Live],
    live: &Live,
) -> Result<(), Memory>
    requires exists { live.now.ask < length setup.now.asks }
    requires places { IsWithin (length entries.now) live.now.answer.body }
    ensures { OnOk result (string_bytes text.new ≡ string_bytes text.old ++ (live_line setup.now (rows_in entries.now) live.now ++ new_line setup.now earlier.now live.now live.now.answer.body)) }
{
    push_live_line(alloc, text, setup, entries, live)?;
    push_new_line(alloc, text, setup, earlier, live)
}

/// The line of each live answer, and after one of marks the line of those that are new.
pub(crate) fn push_lives(
    alloc: Global,
    text: &mut String,
    setup: &Setup,
    entries: &Tags,
    lives: &[Live],
) -> Result<(), Memory>
    requires exist { All (λ live. live.ask < length setup.now.asks) lives.now }
    requires places { All (λ live. IsWithin (length entries.now) live.answer.body) lives.now }
    ensures { OnOk result (string_bytes text.new ≡ string_bytes text.old ++ live_lines setup.now (rows_in entries.now) [] lives.now) }
{
    for place in 0..lives.len() {
        push_lines(alloc, text, setup, entries, &lives[..place], &lives[place])?;
    }
    Ok(())
}

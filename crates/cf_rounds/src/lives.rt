// The lines of the live questions.
ghost use Rattle.std.specs.Prelude.{◌≡◌, ◌<◌, ◌++◌, ℕ, length, OnOk, string_bytes};
ghost use Rattle.std.specs.List.{flat_map};
ghost use Rattle.cf_rounds.specs.Held.{IsRounds, view_in};
ghost use Rattle.cf_rounds.specs.Lines.{live_head, live_line};

use crate::asked::{answer_at, question_name, question_word};
use crate::body::push_told;
use cf_row::Memory;
use cf_setup::Setup;
use cf_watch::Watched;
use cf_window::Window;
use std::alloc::Global;
use std::fmt::Write;

fn push_head(text: &mut String, name: &str, from: u64, to: u64, word: &str) -> Result<(), Memory>
    ensures { OnOk result (string_bytes text.new ≡ string_bytes text.old ++ live_head name.now from to word.now) }
{
    write!(text, "live {name} @{from}..{to} {word}")
}

fn push_live(
    alloc: Global,
    text: &mut String,
    setup: &Setup,
    window: &mut Window,
    kept: &[Watched],
    place: usize,
) -> Result<(), Memory>
    requires exists { place < length setup.now.asks }
    requires rounds { (limit : ℕ) × IsRounds setup.now window.old kept.now limit }
    ensures stays { window.new ≡ window.old }
    ensures line { (last : ℕ) → OnOk result (string_bytes text.new ≡ string_bytes text.old ++ live_line window.old.shape setup.now (view_in window.old kept.now last) place) }
{
    let from = window.from();
    let to = window.count();
    let body = answer_at(alloc, setup, window, kept, false, place)?;
    let name = question_name(setup, place);
    push_head(text, name, from, to, question_word(setup, place))?;
    push_told(text, from, &body)?;
    text.push_str("\n")?;
    Ok(())
}

/// The line of each live question.
pub(crate) fn push_lives(
    alloc: Global,
    text: &mut String,
    setup: &Setup,
    window: &mut Window,
    kept: &[Watched],
) -> Result<(), Memory>
    requires rounds { (limit : ℕ) × IsRounds setup.now window.old kept.now limit }
    ensures stays { window.new ≡ window.old }
    ensures lines { (last : ℕ) → OnOk result (string_bytes text.new ≡ string_bytes text.old ++ flat_map (live_line window.old.shape setup.now (view_in window.old kept.now last)) setup.now.lives) }
{
    let lives = setup.lives();
    for live in lives {
        push_live(alloc, text, setup, window, kept, usize::from(*live))?;
    }
    Ok(())
}

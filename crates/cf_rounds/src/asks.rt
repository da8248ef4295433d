// What is written at the end of a stream.
ghost use Rattle.std.specs.Prelude.{◌≡◌, ◌<◌, ◌++◌, ℕ, length, codes, decimal, OnOk, string_bytes};
ghost use Rattle.std.specs.List.{flat_map, range_with_len};
ghost use Rattle.cf_report.specs.Bodies.{line};
ghost use Rattle.cf_rounds.specs.Held.{IsRounds, view_in};
ghost use Rattle.cf_rounds.specs.Lines.{end_text, final_line};

use crate::asked::{answer_at, question_name, question_word};
use crate::body::push_told;
use crate::marks::marks_of_all;
use cf_report::push_alerts;
use cf_row::Memory;
use cf_setup::Setup;
use cf_watch::Watched;
use cf_window::Window;
use std::alloc::Global;
use std::fmt::Write;

fn push_head(text: &mut String, name: &str, word: &str) -> Result<(), Memory>
    ensures { OnOk result (string_bytes text.new ≡ string_bytes text.old ++ (codes "ask " ++ name.now ++ codes " " ++ word.now)) }
{
    write!(text, "ask {name} {word}")
}

fn push_ask(
    alloc: Global,
    text: &mut String,
    setup: &Setup,
    window: &mut Window,
    kept: &[Watched],
    place: usize,
) -> Result<(), Memory>
    requires exists { place < length setup.now.asks }
    requires rounds { (limit : ℕ) × IsRounds setup.now window.old kept.now limit }
    ensures stays { window.new ≡ window.old }
    ensures line { (last : ℕ) → OnOk result (string_bytes text.new ≡ string_bytes text.old ++ final_line window.old.shape setup.now (view_in window.old kept.now last) place) }
{
    let from = window.from();
    let body = answer_at(alloc, setup, window, kept, true, place)?;
    let name = question_name(setup, place);
    push_head(text, name, question_word(setup, place))?;
    push_told(text, from, &body)?;
    text.push_str("\n")?;
    Ok(())
}

fn push_asks(
    alloc: Global,
    text: &mut String,
    setup: &Setup,
    window: &mut Window,
    kept: &[Watched],
) -> Result<(), Memory>
    requires rounds { (limit : ℕ) × IsRounds setup.now window.old kept.now limit }
    ensures stays { window.new ≡ window.old }
    ensures lines { (last : ℕ) → OnOk result (string_bytes text.new ≡ string_bytes text.old
        ++ flat_map (final_line window.old.shape setup.now (view_in window.old kept.now last)) (range_with_len 0 (length setup.now.asks))) }
{
    let asks = setup.asks();
    for place in 0..asks.len() {
        push_ask(alloc, text, setup, window, kept, place)?;
    }
    Ok(())
}

fn push_counts(text: &mut String, from: u64, to: u64) -> Result<(), Memory>
    ensures { OnOk result (string_bytes text.new ≡ string_bytes text.old ++ (line (codes "records " ++ decimal to) ++ line (codes "window " ++ decimal from))) }
{
    write!(text, "records {to}\nwindow {from}\n")
}

/// How many records came, the number of the window's first, each question's answer, and each trigger's marks.
pub(crate) fn push_end(
    alloc: Global,
    text: &mut String,
    setup: &Setup,
    window: &mut Window,
    kept: &[Watched],
) -> Result<(), Memory>
    requires rounds { (limit : ℕ) × IsRounds setup.now window.old kept.now limit }
    ensures stays { window.new ≡ window.old }
    ensures ended { (last : ℕ) → OnOk result (string_bytes text.new ≡ string_bytes text.old ++ end_text window.old.shape setup.now (view_in window.old kept.now last)) }
{
    push_counts(text, window.from(), window.count())?;
    push_asks(alloc, text, setup, window, kept)?;
    let alerts = marks_of_all(alloc, setup, kept)?;
    push_alerts(text, setup, &alerts)?;
    Ok(())
}

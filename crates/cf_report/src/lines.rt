// The lines of questions and of alerts on the whole log.
ghost use Rattle.std.specs.Prelude.{◌≡◌, ◌<◌, ◌++◌, [], All, length, OnOk, string_bytes, slice_index_or};
ghost use Rattle.std.specs.List.{flat_map, range_with_len};
ghost use Rattle.cf_plain.specs.Asks.{rows_in};
ghost use Rattle.cf_report.specs.Answered.{IsWithin, told_by, tolds_of};
ghost use Rattle.cf_report.specs.Report.{ask_line, ask_line_at, alert_line, alert_lines_at};

use crate::Tags;
use crate::body::{push_final, push_keys, word};
use cf_plain::{Answer, Ask, Fired, Marks};
use cf_row::{Memory, Name};
use cf_setup::Setup;
use std::alloc::Global;
use std::fmt::Write;

/// The name at a place.
pub fn name_at(names: &[Name], place: usize) -> &str
    requires { place < length names.now }
    ensures { result.now ≡ slice_index_or names.now place [] }
{
    names[place].as_str()
}

fn push_ask(
    alloc: Global,
    text: &mut String,
    name: &str,
    ask: &Ask,
    entries: &Tags,
    answer: &Answer,
) -> Result<(), Memory>
    requires { IsWithin (length entries.now) answer.now.body }
    ensures { OnOk result (string_bytes text.new ≡ string_bytes text.old ++ ask_line name.now (rows_in entries.now) (told_by ask.now answer.now)) }
{
    let word = word(ask);
    write!(text, "ask {name} {word}")?;
    push_final(alloc, text, entries, &answer.body)?;
    text.push_str("\n")
}

/// A line for each question.
pub(crate) fn push_asks(
    alloc: Global,
    text: &mut String,
    setup: &Setup,
    entries: &Tags,
    finals: &[Answer],
) -> Result<(), Memory>
    requires answered { length finals.now ≡ length setup.now.asks }
    requires places { All (λ answer. IsWithin (length entries.now) answer.body) finals.now }
    ensures { OnOk result
        (string_bytes text.new ≡ string_bytes text.old ++ flat_map (ask_line_at setup.now (rows_in entries.now) (tolds_of setup.now.asks finals.now)) (range_with_len 0 (length setup.now.asks))) }
{
    let names = setup.ask_names();
    let asks = setup.asks();
    for place in 0..asks.len() {
        push_ask(
            alloc,
            text,
            name_at(names, place),
            &asks[place],
            entries,
            &finals[place],
        )?;
    }
    Ok(())
}

fn push_alert(text: &mut String, name: &str, mark: Fired) -> Result<(), Memory>
    ensures { OnOk result (string_bytes text.new ≡ string_bytes text.old ++ alert_line name.now mark) }
{
    write!(text, "alert {name} ")?;
    push_keys(text, mark.bucket, mark.key)?;
    let value = mark.value;
    write!(text, " {value}\n")
}

fn push_each_alert(text: &mut String, name: &str, marks: &[Fired]) -> Result<(), Memory>
    ensures { OnOk result (string_bytes text.new ≡ string_bytes text.old ++ flat_map (alert_line name.now) marks.now) }
{
    for mark in marks {
        push_alert(text, name, *mark)?;
    }
    Ok(())
}

/// The marks of the trigger at a place; none if there is no such trigger.
pub fn marks_at(alerts: &[Marks], place: usize) -> &[Fired]
    ensures { result.now ≡ slice_index_or alerts.now place [] }
{
    match alerts.get(place) {
        Some(marks) => marks.as_slice(),
        None => &[],
    }
}

/// Appends a line for each mark of each trigger of the setup, in its order. If memory runs out, the text may end with a part of it.
pub fn push_alerts(text: &mut String, setup: &Setup, alerts: &[Marks]) -> Result<(), Memory>
    requires answered { length alerts.now ≡ length setup.now.triggers }
    ensures { OnOk result (string_bytes text.new ≡ string_bytes text.old ++ flat_map (alert_lines_at setup.now alerts.now) (range_with_len 0 (length setup.now.triggers))) }
{
    let names = setup.trigger_names();
    for place in 0..alerts.len() {
        push_each_alert(text, name_at(names, place), marks_at(alerts, place))?;
    }
    Ok(())
}

// The text of answers about all rows of a log.
ghost use Rattle.std.specs.Prelude.{◌≡◌, ◌<◌, ◌++◌, List, length, codes, decimal, IfOk, OnOk, slice_index_or, string_bytes};
ghost use Rattle.std.specs.List.{flat_map, range_with_len};
ghost use Rattle.cf_row.specs.Row.{RowValue};
ghost use Rattle.cf_shape.specs.Lanes.{ShapeValue};
ghost use Rattle.cf_report.specs.Bodies.{line};
ghost use Rattle.cf_report.specs.Meaning.{final_text as final_text_of};
ghost use Rattle.cf_long.specs.Answered.{AreAnswers};
ghost use Rattle.cf_long.specs.ByRow.{AreNumbered};
ghost use Rattle.cf_long.specs.Texts.{placed_line, placed_line_at, no_body};

use crate::Answers;
use cf_plain::Body;
use cf_report::{name_at, places_of, push_alerts, push_body, word};
use cf_row::Memory;
use cf_setup::Setup;
use std::alloc::Global;
use std::fmt::Write;

fn push_count(text: &mut String, count: u32) -> Result<(), Memory>
    ensures { OnOk result (string_bytes text.new ≡ string_bytes text.old ++ line (codes "records " ++ decimal count)) }
{
    write!(text, "records {count}\n")
}

// The line of the question at a place. Rows are shown by their places.
fn push_ask(text: &mut String, setup: &Setup, place: usize, body: &Body) -> Result<(), Memory>
    requires { place < length setup.now.asks }
    ensures { OnOk result (string_bytes text.new ≡ string_bytes text.old ++ placed_line setup.now place body.now) }
{
    let asks = setup.asks();
    let name = name_at(setup.ask_names(), place);
    let word = word(&asks[place]);
    write!(text, "ask {name} {word}")?;
    push_body(text, body, places_of(body))?;
    text.push_str("\n")
}

fn push_asks(text: &mut String, setup: &Setup, finals: &[Body]) -> Result<(), Memory>
    requires { length finals.now ≡ length setup.now.asks }
    ensures { OnOk result (string_bytes text.new ≡ string_bytes text.old
        ++ flat_map (placed_line_at setup.now finals.now) (range_with_len 0 (length setup.now.asks))) }
{
    for place in 0..finals.len() {
        push_ask(text, setup, place, &finals[place])?;
    }
    Ok(())
}

/// The final part of the report of a setup over rows that are numbered from 0, about which these are the answers.
pub fn final_text(alloc: Global, setup: &Setup, answers: &Answers) -> Result<Vec<u8>, Memory>
    requires answers { (shape : ShapeValue) × (rows : List RowValue) × AreAnswers shape setup.now.asks setup.now.triggers rows answers.now }
    ensures { (shape : ShapeValue) (rows : List RowValue) → AreNumbered 0 rows → AreAnswers shape setup.now.asks setup.now.triggers rows answers.now
        → IfOk result (λ text. text.items ≡ final_text_of shape setup.now rows) }
{
    let mut text = String::new(alloc);
    push_count(&mut text, answers.count)?;
    push_asks(&mut text, setup, &answers.finals)?;
    push_alerts(&mut text, setup, &answers.alerts)?;
    Ok(text.into_bytes())
}

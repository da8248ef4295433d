// What a question found, where the window's records are shown by their numbers in the stream.
ghost use Rattle.std.specs.Prelude.{◌≡◌, ◌+◌, ◌-◌, ◌<◌, ◌^◌, ◌++◌, All, length, codes, decimal, map, OnOk, string_bytes};
ghost use Rattle.std.specs.List.{flat_map};
ghost use Rattle.cf_report.specs.Answered.{IsWithin};
ghost use Rattle.cf_report.specs.Bodies.{number_text, numbers_text};
ghost use Rattle.cf_rounds.specs.Lines.{told_from};

use cf_plain::Body;
use cf_report::{places_of, push_body};
use cf_row::Memory;
use std::fmt::Write;

fn push_each(text: &mut String, from: u64, places: &[u32]) -> Result<(), Memory>
    requires { All (λ place. place < 2 ^ 64 - from) places.now }
    ensures { OnOk result (string_bytes text.new ≡ string_bytes text.old ++ flat_map (λ place. number_text (from + place)) places.now) }
{
    for place in places {
        let num = from + u64::from(*place);
        write!(text, " {num}")?;
    }
    Ok(())
}

// How many records there are at some places, and their numbers.
fn push_numbers(text: &mut String, from: u64, places: &[u32]) -> Result<(), Memory>
    requires { All (λ place. place < 2 ^ 64 - from) places.now }
    ensures { OnOk result (string_bytes text.new ≡ string_bytes text.old ++ numbers_text (map (λ place. from + place) places.now)) }
{
    let count = places.len();
    write!(text, " {count}:")?;
    push_each(text, from, places)?;
    Ok(())
}

/// A body, where records are shown by their numbers in the order in which they came.
pub(crate) fn push_told(text: &mut String, from: u64, body: &Body) -> Result<(), Memory>
    requires { IsWithin (2 ^ 64 - from) body.now }
    ensures { OnOk result (string_bytes text.new ≡ string_bytes text.old ++ told_from from body.now) }
{
    match body {
        Body::Places(_) => push_numbers(text, from, places_of(body)),
        Body::Total(_) | Body::Marks(_) | Body::Tops(_) | Body::Groups(_) => {
            push_body(text, body, &[])
        }
    }
}

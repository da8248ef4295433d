// Which attributes a log's lanes and questions name.
ghost use Rattle.std.specs.Prelude.{◌≡◌, ◌==◌, IfOk};
ghost use Rattle.std.specs.List.{list_any};
ghost use Rattle.cf_project.specs.Named.{ask_names, expr_names, is_named as is_named_of, key_names, lane_names, measure_names, named_in};

use cf_plain::Ask;
use cf_row::{Atom, Expr, Memory};
use cf_shape::{Key, Lane, Shape};
use std::alloc::Global;

fn is_in_atoms(place: u8, atoms: &[Atom]) -> bool
    ensures { result ≡ list_any (λ atom. atom.attr == place) atoms.now }
{
    atoms.iter().any(|atom| atom.attr == place)
}

fn is_in_expr(place: u8, expr: &Expr) -> bool
    ensures { result ≡ expr_names place expr.now }
{
    expr.conjunctions()
        .iter()
        .any(|conjunction| is_in_atoms(place, conjunction.atoms()))
}

fn is_in_key(place: u8, key: Key) -> bool
    ensures { result ≡ key_names place key }
{
    match key {
        Key::Attr(attr) | Key::BucketBy(attr) => attr == place,
        Key::Bucket => false,
    }
}

fn is_measured(place: u8, measure: Option<u8>) -> bool
    ensures { result ≡ measure_names place measure }
{
    match measure {
        Some(attr) => attr == place,
        None => false,
    }
}

fn is_in_lane(place: u8, lane: &Lane) -> bool
    ensures { result ≡ lane_names place lane.now }
{
    is_in_expr(place, &lane.select)
        || is_in_key(place, lane.key)
        || is_measured(place, lane.measure)
}

fn is_in_ask(place: u8, ask: &Ask) -> bool
    ensures { result ≡ ask_names place ask.now }
{
    match ask {
        Ask::List(expr) => is_in_expr(place, expr),
        Ask::Total(attr, expr) => *attr == place || is_in_expr(place, expr),
        _ => false,
    }
}

fn is_in_lanes(place: u8, lanes: &[Lane]) -> bool
    ensures { result ≡ list_any (lane_names place) lanes.now }
{
    lanes.iter().any(|lane| is_in_lane(place, lane))
}

fn is_in_asks(place: u8, asks: &[Ask]) -> bool
    ensures { result ≡ list_any (ask_names place) asks.now }
{
    asks.iter().any(|ask| is_in_ask(place, ask))
}

// Whether the attribute at that place is `ts`, or one that a lane or a question names.
fn is_named(shape: &Shape, asks: &[Ask], place: u8) -> bool
    ensures { result ≡ is_named_of shape.now asks.now place }
{
    place == shape.schema().ts_place()
        || is_in_lanes(place, shape.lanes())
        || is_in_asks(place, asks)
}

/// For each attribute of the shape's schema, whether it is `ts`, or a lane or a question names it.
pub fn named_attributes(alloc: Global, shape: &Shape, asks: &[Ask]) -> Result<Vec<bool>, Memory>
    ensures { IfOk result (λ kept. kept.items ≡ named_in shape.now asks.now) }
{
    let count = shape.schema().attrs().len();
    let mut kept = Vec::with_capacity(alloc, count)?;
    for place in 0..count {
        kept.push(is_named(shape, asks, place as u8))?;
    }
    Ok(kept)
}

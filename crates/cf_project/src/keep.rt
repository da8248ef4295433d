// Attributes that aren't kept are left out.
ghost use Rattle.std.specs.Prelude.{◌≡◌, ◌<◌, ◌≤◌, length, map, All, IfOk, OnOk};
ghost use Rattle.cf_row.specs.Row.{Fits};
ghost use Rattle.cf_row.specs.declared.schema.TheConstants.{MOST_ATTRS};
ghost use Rattle.cf_project.specs.Keeping.{keep, new_place as new_place_of};
ghost use Rattle.cf_project.specs.Named.{KeepsShape};
ghost use Rattle.cf_project.specs.Projected.{ask_kept, atom_kept, expr_kept, key_kept, lane_kept, measure_kept, row_kept, shape_kept};

use cf_plain::Ask;
use cf_row::{Atom, Attr, Conjunction, Expr, Memory, Row, Schema};
use cf_shape::{Key, Lane, Shape};
use std::alloc::{AllocError, Global};

// The new place of the attribute at that place.
fn new_place(kept: &[bool], place: u8) -> u8
    requires { length kept.now ≤ MOST_ATTRS }
    ensures { result ≡ new_place_of kept.now place }
{
    let mut before = 0;
    for index in 0..usize::from(place).min(kept.len()) {
        if kept[index] {
            before += 1;
        }
    }
    before
}

fn kept_atom(kept: &[bool], atom: Atom) -> Atom
    requires { length kept.now ≤ MOST_ATTRS }
    ensures { result ≡ atom_kept kept.now atom }
{
    Atom {
        attr: new_place(kept, atom.attr),
        op: atom.op,
        low: atom.low,
        high: atom.high,
    }
}

fn kept_atoms(alloc: Global, kept: &[bool], atoms: &[Atom]) -> Result<Vec<Atom>, Memory>
    requires { length kept.now ≤ MOST_ATTRS }
    ensures { IfOk result (λ left. left.items ≡ map (atom_kept kept.now) atoms.now) }
{
    let mut left = Vec::with_capacity(alloc, atoms.len())?;
    for atom in atoms {
        left.push(kept_atom(kept, *atom))?;
    }
    Ok(left)
}

fn kept_expr(alloc: Global, kept: &[bool], expr: &Expr) -> Result<Expr, Memory>
    requires { length kept.now ≤ MOST_ATTRS }
    ensures { IfOk result (λ left. left ≡ expr_kept kept.now expr.now) }
{
    let conjunctions = expr.conjunctions();
    let mut left = Vec::with_capacity(alloc, conjunctions.len())?;
    for conjunction in conjunctions {
        left.push(Conjunction::new(kept_atoms(alloc, kept, conjunction.atoms())?))?;
    }
    Ok(Expr::new(left))
}

fn kept_key(kept: &[bool], key: Key) -> Key
    requires { length kept.now ≤ MOST_ATTRS }
    ensures { result ≡ key_kept kept.now key }
{
    match key {
        Key::Attr(attr) => Key::Attr(new_place(kept, attr)),
        Key::Bucket => Key::Bucket,
        Key::BucketBy(attr) => Key::BucketBy(new_place(kept, attr)),
    }
}

fn kept_measure(kept: &[bool], measure: Option<u8>) -> Option<u8>
    requires { length kept.now ≤ MOST_ATTRS }
    ensures { result ≡ measure_kept kept.now measure }
{
    match measure {
        Some(attr) => Some(new_place(kept, attr)),
        None => None,
    }
}

fn kept_lane(alloc: Global, kept: &[bool], lane: &Lane) -> Result<Lane, Memory>
    requires { length kept.now ≤ MOST_ATTRS }
    ensures { IfOk result (λ left. left ≡ lane_kept kept.now lane.now) }
{
    Ok(Lane {
        select: kept_expr(alloc, kept, &lane.select)?,
        key: kept_key(kept, lane.key),
        measure: kept_measure(kept, lane.measure),
    })
}

pub(crate) fn kept_lanes(alloc: Global, kept: &[bool], lanes: &[Lane]) -> Result<Vec<Lane>, Memory>
    requires { length kept.now ≤ MOST_ATTRS }
    ensures { IfOk result (λ left. left.items ≡ map (lane_kept kept.now) lanes.now) }
{
    let mut left = Vec::with_capacity(alloc, lanes.len())?;
    for lane in lanes {
        left.push(kept_lane(alloc, kept, lane)?)?;
    }
    Ok(left)
}

// The attributes that are kept.
pub(crate) fn kept_attrs(alloc: Global, kept: &[bool], attrs: &[Attr]) -> Result<Vec<Attr>, Memory>
    requires { length kept.now ≡ length attrs.now }
    ensures { IfOk result (λ left. left.items ≡ keep kept.now attrs.now) }
{
    let mut left = Vec::with_capacity(alloc, attrs.len())?;
    for place in 0..attrs.len() {
        if kept[place] {
            left.push(attrs[place].copy(alloc)?)?;
        }
    }
    Ok(left)
}

/// What is left of a shape. All that its lanes name is kept, and `ts`.
pub fn kept_shape(alloc: Global, kept: &[bool], shape: &Shape) -> Result<Shape, Memory>
    requires { KeepsShape kept.now shape.now }
    ensures { IfOk result (λ left. left ≡ shape_kept kept.now shape.now) }
{
    let schema = Schema::built_in(kept_attrs(alloc, kept, shape.schema().attrs())?);
    let lanes = kept_lanes(alloc, kept, shape.lanes())?;
    match Shape::new(
        schema,
        lanes,
        shape.capacity(),
        shape.writers(),
        shape.nodes(),
        shape.width(),
    ) {
        Ok(left) => Ok(left),
        Err(_) => unreachable!(),
    }
}

fn kept_ask(alloc: Global, kept: &[bool], ask: &Ask) -> Result<Ask, Memory>
    requires { length kept.now ≤ MOST_ATTRS }
    ensures { IfOk result (λ left. left ≡ ask_kept kept.now ask.now) }
{
    match ask {
        Ask::List(expr) => Ok(Ask::List(kept_expr(alloc, kept, expr)?)),
        Ask::Total(attr, expr) => {
            let left = kept_expr(alloc, kept, expr)?;
            Ok(Ask::Total(new_place(kept, *attr), left))
        }
        Ask::Find(..)
        | Ask::Between(..)
        | Ask::Measure(..)
        | Ask::Fired(_)
        | Ask::Top(..)
        | Ask::Groups(_) => ask.copy(alloc),
    }
}

/// What is left of questions. Lanes keep their numbers.
pub fn kept_asks(alloc: Global, kept: &[bool], asks: &[Ask]) -> Result<Vec<Ask>, Memory>
    requires { length kept.now ≤ MOST_ATTRS }
    ensures { IfOk result (λ left. left.items ≡ map (ask_kept kept.now) asks.now) }
{
    let mut left = Vec::with_capacity(alloc, asks.len())?;
    for ask in asks {
        left.push(kept_ask(alloc, kept, ask)?)?;
    }
    Ok(left)
}

// Leaves of each row the values that are kept. If it is refused for memory, some rows are as they were.
fn keep_rows(alloc: Global, kept: &[bool], rows: &mut [Row]) -> Result<(), Memory>
    requires { All (λ row. length kept.now ≡ length row.values) rows.old }
    ensures { OnOk result (rows.new ≡ map (row_kept kept.now) rows.old) }
{
    for place in 0..rows.len() {
        rows[place].keep(alloc, kept)?;
    }
    Ok(())
}

/// What is left of rows. If each value of a row has one word, as those of a packet have, it is made in place, without memory.
pub fn kept_rows(
    alloc: Global,
    kept: &[bool],
    _schema: &Schema,
    mut rows: Vec<Row>,
) -> Result<Vec<Row>, Memory>
    requires marks { length kept.now ≡ length _schema.now }
    requires fit { All (Fits _schema.now) rows.items }
    ensures { IfOk result (λ left. left.items ≡ map (row_kept kept.now) rows.items) }
{
    keep_rows(alloc, kept, rows.as_mut_slice())?;
    Ok(rows)
}

// Whole expressions.
ghost use Rattle.std.specs.Prelude.{◌≡◌, ℕ, List, ◌≤◌, ◌<◌, ◌^◌, length, IfOk, Result};
ghost use Rattle.cf_filter.specs.Exprs.{conjunctions_at, star_at, expr_at, fault_at};
ghost use Rattle.cf_filter.specs.Outcome.{Answers};
ghost use Rattle.cf_filter.specs.Grammar.{ExprRead, Only};
ghost use Rattle.cf_row.specs.Expr.{IsOfSchema};
ghost use Rattle.cf_filter.specs.declared.fault.OffenceAt.{OffenceAt};
ghost use Rattle.cf_row.specs.declared.expr.Atom.{Atom};
ghost use Rattle.cf_row.specs.declared.schema.Attr.{Attr};
ghost use Rattle.cf_row.specs.declared.schema.TheConstants.{MOST_ATTRS};
ghost use Rattle.cf_filter.specs.Reading.{attr_named};

use crate::atom::{Joint, atom_of, attr_of, joint_of};
use crate::bytes::{strip, unspaced};
use crate::fault::{FilterFault, Offence, OffenceAt};
use cf_row::{Attr, Conjunction, Expr, Kind, Memory, Schema};
use std::alloc::Global;

// The conjunctions of the text, of at most 32 atoms in all.
fn conjunctions_of(
    alloc: Global,
    attrs: &[Attr],
    text: &[u8],
) -> Result<Result<Expr, OffenceAt>, Memory>
    requires { length attrs.now ≤ MOST_ATTRS }
    ensures { IfOk result (λ read. read ≡ conjunctions_at attrs.now 32 text.now) }
{
    let mut closed = Vec::new(alloc);
    let mut current = Vec::new(alloc);
    let mut rest = text;
    for _i in 0..32u32 {
        let (atom, after) = match atom_of(attrs, rest) {
            Ok(found) => found,
            Err(stop) => return Ok(Err(stop)),
        };
        current.push(atom)?;
        let (joint, after) = match joint_of(after) {
            Ok(found) => found,
            Err(stop) => return Ok(Err(stop)),
        };
        match joint {
            Joint::End => {
                closed.push(Conjunction::new(current))?;
                return Ok(Ok(Expr::new(closed)));
            }
            Joint::And => {}
            Joint::Or => {
                closed.push(Conjunction::new(current))?;
                current = Vec::new(alloc);
            }
        }
        rest = after;
    }
    Ok(Err(OffenceAt {
        offence: Offence::TooLong,
        left: unspaced(rest).len(),
    }))
}

// One empty conjunction, if nothing follows the star.
fn star_of(alloc: Global, rest: &[u8]) -> Result<Result<Expr, OffenceAt>, Memory>
    ensures { IfOk result (λ read. read ≡ star_at rest.now) }
{
    let rest = unspaced(rest);
    if !rest.is_empty() {
        return Ok(Err(OffenceAt {
            offence: Offence::Syntax,
            left: rest.len(),
        }));
    }
    let mut conjunctions = Vec::with_capacity(alloc, 1)?;
    conjunctions.push(Conjunction::new(Vec::new(alloc)))?;
    Ok(Ok(Expr::new(conjunctions)))
}

// A star alone, or conjunctions.
fn expr_of(alloc: Global, attrs: &[Attr], text: &[u8]) -> Result<Result<Expr, OffenceAt>, Memory>
    requires { length attrs.now ≤ MOST_ATTRS }
    ensures { IfOk result (λ read. read ≡ expr_at attrs.now text.now) }
{
    match strip(unspaced(text), b"*") {
        Some(rest) => star_of(alloc, rest),
        None => conjunctions_of(alloc, attrs, text),
    }
}

impl OffenceAt {
    // The fault in a text of that many bytes.
    fn fault(self, len: usize) -> FilterFault
        requires { len < 2 ^ 32 }
        ensures { result ≡ fault_at len self }
    {
        let place = len.saturating_sub(self.left) as u32;
        match self.offence {
            Offence::Syntax => FilterFault::Syntax(place),
            Offence::UnknownName => FilterFault::UnknownName(place),
            Offence::BadOperator => FilterFault::BadOperator(place),
            Offence::ValueRange => FilterFault::ValueRange(place),
            Offence::TooLong => FilterFault::TooLong,
        }
    }
}

fn read_expr(alloc: Global, schema: &Schema, bytes: &[u8]) -> Result<Expr, FilterFault>
    requires { length bytes.now < 2 ^ 32 }
    ensures { Answers (length bytes.now) result (expr_at schema.now bytes.now) }
{
    match expr_of(alloc, schema.attrs(), bytes) {
        Ok(Ok(expr)) => Ok(expr),
        Ok(Err(stop)) => Err(stop.fault(bytes.len())),
        Err(_) => Err(FilterFault::Memory),
    }
}

/// The expression of the schema that the bytes are the text of, as `parse_expr`.
pub fn parse_bytes(alloc: Global, schema: &Schema, bytes: &[u8]) -> Result<Expr, FilterFault>
    requires { length bytes.now < 2 ^ 32 }
    ensures found { (read : Result (List (List Atom)) OffenceAt) × ExprRead schema.now bytes.now read × Answers (length bytes.now) result read }
    ensures only { (read : Result (List (List Atom)) OffenceAt) → ExprRead schema.now bytes.now read → Answers (length bytes.now) result read }
    ensures of_schema { IfOk result (IsOfSchema schema.now) }
{
    read_expr(alloc, schema, bytes)
}

/// The place and the kind of the first attribute of that name.
pub fn find_attr(schema: &Schema, name: &[u8]) -> Option<(u8, Kind)>
    ensures { result ≡ attr_named schema.now name.now }
{
    attr_of(schema.attrs(), name)
}

/// The expression of the schema that the text is one of, or its first fault from the left.
///
/// An expression is `*`, or conjunctions joined by `||`, each of atoms joined by `&&`, of at most 32 atoms in all. An atom
/// is a name, an operator and a value, or a name, `in` or `not in`, and a range. Places of faults are in bytes.
pub fn parse_expr(alloc: Global, schema: &Schema, text: &str) -> Result<Expr, FilterFault>
    requires { length text.now < 2 ^ 32 }
    // The answer is what the text is by the grammar.
    ensures found { (read : Result (List (List Atom)) OffenceAt) × ExprRead schema.now text.now read × Answers (length text.now) result read }
    // What the text is by the grammar is the answer, unless memory runs out.
    ensures only { (read : Result (List (List Atom)) OffenceAt) → ExprRead schema.now text.now read → Answers (length text.now) result read }
    ensures of_schema { IfOk result (IsOfSchema schema.now) }
{
    parse_bytes(alloc, schema, text.as_bytes())
}

/// Each text has just one outcome, an expression or its first offending token, and `expr_at` is it.
pub fn one_outcome()
    ensures { (attrs : List Attr) (text : List ℕ) → Only (ExprRead attrs text) (expr_at attrs text) }
{}

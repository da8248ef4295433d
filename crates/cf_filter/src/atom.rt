// The atoms of an expression, read from the left.
ghost use Rattle.std.specs.Prelude.{◌≡◌, ℕ, List, ◌≤◌, ◌<◌, length};
ghost use Rattle.std.specs.Option.{option_map};
ghost use Rattle.cf_row.specs.Expr.{suits_kind as suits_kind_of};
ghost use Rattle.cf_row.specs.declared.schema.TheConstants.{MOST_ATTRS};
ghost use Rattle.cf_filter.specs.Reading.{seen_by, begins_with, attr_named, name_at, op_named, token_at, outside_at, op_at, bounds_from, atom_at, joint_at};

use crate::bytes::{Class, strip, unspaced};
use crate::fault::{Offence, OffenceAt};
use crate::range::bounds_of;
use cf_row::{Atom, Attr, Kind, Op, Value};

impl Class {
    /// Whether the text begins with a byte of the class.
    pub fn begins(self, text: &[u8]) -> bool
        ensures { result ≡ begins_with self text.now }
    {
        match text {
            [] => false,
            [b, ..] => self.passes(*b),
        }
    }
}

// The place and the kind of the attribute of that name.
pub(crate) fn attr_of(attrs: &[Attr], name: &[u8]) -> Option<(u8, Kind)>
    requires { length attrs.now ≤ MOST_ATTRS }
    ensures { result ≡ attr_named attrs.now name.now }
{
    for i in 0..attrs.len() {
        let attr = &attrs[i];
        if attr.name.as_str().as_bytes() == name {
            return Some((i as u8, attr.kind));
        }
    }
    None
}

// The attribute named at the front, and what follows it.
fn name_of<'a>(attrs: &[Attr], text: &'a [u8]) -> Result<((u8, Kind), &'a [u8]), OffenceAt>
    requires { length attrs.now ≤ MOST_ATTRS }
    ensures { seen_by (λ x. (x.0, x.1.now)) result ≡ name_at attrs.now text.now }
{
    let text = unspaced(text);
    if !Class::Letter.begins(text) {
        return Err(OffenceAt {
            offence: Offence::Syntax,
            left: text.len(),
        });
    }
    let (name, rest) = Class::Name.split(text);
    match attr_of(attrs, name) {
        Some(attr) => Ok((attr, rest)),
        None => Err(OffenceAt {
            offence: Offence::UnknownName,
            left: text.len(),
        }),
    }
}

/// The operator that is this one word; `in` is `Within`.
pub fn named_op(word: &[u8]) -> Option<Op>
    ensures { result ≡ op_named word.now }
{
    if word == b"==".as_slice() {
        return Some(Op::Eq);
    }
    if word == b"!=".as_slice() {
        return Some(Op::Ne);
    }
    if word == b"<".as_slice() {
        return Some(Op::Lt);
    }
    if word == b"<=".as_slice() {
        return Some(Op::Le);
    }
    if word == b">".as_slice() {
        return Some(Op::Gt);
    }
    if word == b">=".as_slice() {
        return Some(Op::Ge);
    }
    if word == b"in".as_slice() {
        return Some(Op::Within);
    }
    None
}

fn suits_kind(kind: Kind, op: Op) -> bool
    ensures { result ≡ suits_kind_of kind op }
{
    match (kind, op) {
        (Kind::Bytes(_), Op::Eq | Op::Ne) => true,
        (Kind::Bytes(_), _) => false,
        _ => true,
    }
}

// The word at the front where an operator is wanted, and what follows it.
fn token_of(text: &[u8]) -> (&[u8], &[u8])
    ensures { (result.0.now, result.1.now) ≡ token_at text.now }
{
    if Class::Letter.begins(text) {
        return Class::Name.split(text);
    }
    Class::Operator.split(text)
}

// `Outside`, if `in` is behind the `not` that was read, and what follows it.
fn outside_of(text: &[u8]) -> Result<(Op, &[u8]), OffenceAt>
    ensures { seen_by (λ x. (x.0, x.1.now)) result ≡ outside_at text.now }
{
    let text = unspaced(text);
    let (word, rest) = token_of(text);
    if word.is_empty() {
        return Err(OffenceAt {
            offence: Offence::Syntax,
            left: text.len(),
        });
    }
    if word == b"in".as_slice() {
        return Ok((Op::Outside, rest));
    }
    Err(OffenceAt {
        offence: Offence::BadOperator,
        left: text.len(),
    })
}

fn op_of(kind: Kind, text: &[u8]) -> Result<(Op, &[u8]), OffenceAt>
    ensures { seen_by (λ x. (x.0, x.1.now)) result ≡ op_at kind text.now }
{
    let text = unspaced(text);
    let (word, rest) = token_of(text);
    if word.is_empty() {
        return Err(OffenceAt {
            offence: Offence::Syntax,
            left: text.len(),
        });
    }
    if word == b"not".as_slice() && suits_kind(kind, Op::Outside) {
        return outside_of(rest);
    }
    if let Some(op) = named_op(word)
        && suits_kind(kind, op)
    {
        return Ok((op, rest));
    }
    Err(OffenceAt {
        offence: Offence::BadOperator,
        left: text.len(),
    })
}

fn ends_of(kind: Kind, op: Op, text: &[u8]) -> Result<((Value, Value), &[u8]), OffenceAt>
    ensures { seen_by (λ x. (x.0, x.1.now)) result ≡ bounds_from kind op text.now }
{
    let text = unspaced(text);
    let (word, rest) = Class::Value.split(text);
    match bounds_of(kind, op, word) {
        Ok(ends) => Ok((ends, rest)),
        Err(offence) => Err(OffenceAt {
            offence,
            left: text.len(),
        }),
    }
}

/// The atom at the front, and what follows it.
#[tactic(auto, unfolding(crate::specs::Reading::atom_at))]
pub(crate) fn atom_of<'a>(attrs: &[Attr], text: &'a [u8]) -> Result<(Atom, &'a [u8]), OffenceAt>
    requires { length attrs.now ≤ MOST_ATTRS }
    ensures { seen_by (λ x. (x.0, x.1.now)) result ≡ atom_at attrs.now text.now }
{
    let ((attr, kind), rest) = name_of(attrs, text)?;
    let (op, rest) = op_of(kind, rest)?;
    let ((low, high), rest) = ends_of(kind, op, rest)?;
    let atom = Atom {
        attr,
        op,
        low,
        high,
    };
    Ok((atom, rest))
}

/// What joins an atom to what comes after it.
#[derive(Clone, Copy, Debug, PartialEq, Eq)]
pub(crate) enum Joint {
    End,
    And,
    Or,
}

/// The connective or the end of the text at the front, and what follows it.
pub(crate) fn joint_of(text: &[u8]) -> Result<(Joint, &[u8]), OffenceAt>
    ensures { seen_by (λ x. (x.0, x.1.now)) result ≡ joint_at text.now }
{
    let text = unspaced(text);
    if text.is_empty() {
        return Ok((Joint::End, text));
    }
    if let Some(rest) = strip(text, b"&&") {
        return Ok((Joint::And, rest));
    }
    if let Some(rest) = strip(text, b"||") {
        return Ok((Joint::Or, rest));
    }
    Err(OffenceAt {
        offence: Offence::Syntax,
        left: text.len(),
    })
}

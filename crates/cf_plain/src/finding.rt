// What a question finds in rows that stand in several logs, end to end.
ghost use Rattle.std.specs.Prelude.{◌≡◌, ◌+◌, ◌<◌, ◌≤◌, ◌^◌, ◌++◌, [], All, map, IfOk};
ghost use Rattle.cf_shape.specs.Lanes.{ShapeValue};
ghost use Rattle.cf_plain.specs.Segments.{body_of, body_of_groups as body_of_groups_as, finding_in, joined, merged, numbers_in, CanJoin};

use crate::segments::{ascends, marks_of_groups, merge_ascending, merge_groups, push_places};
use crate::{Ask, Body, Groups, Marks, Places, top};
use cf_fold::Quad;
use cf_row::Memory;
use std::alloc::Global;

/// What a question finds in some rows. What it finds in rows behind them can be joined to it, which no answer allows: the
/// heaviest keys of all rows need not be among those of a part.
#[derive(Debug, Drop)]
pub enum Finding {
    /// The places of rows, ascending.
    Places(Places),
    /// The quad of what is measured or added up.
    Total(Quad),
    /// The groups of the question's lane, ascending by key.
    Groups(Groups),
}

impl Finding {
    /// What the question finds in no row.
    pub fn nothing(alloc: Global, ask: &Ask) -> Finding
        ensures { (shape : ShapeValue) → result ≡ finding_in shape ask.now [] }
    {
        match ask {
            Ask::List(_) | Ask::Find(..) | Ask::Between(..) => {
                Finding::Places(Places::new(Vec::new(alloc)))
            }
            Ask::Measure(..) | Ask::Total(..) => Finding::Total(Quad::EMPTY),
            Ask::Fired(_) | Ask::Top(..) | Ask::Groups(_) => {
                Finding::Groups(Groups::new(Vec::new(alloc)))
            }
        }
    }

    /// An equal finding.
    pub fn copy(&self, alloc: Global) -> Result<Finding, Memory>
        ensures { IfOk result (λ finding. finding ≡ self.now) }
    {
        match self {
            Finding::Places(places) => {
                let places = places.as_slice().to_vec(alloc)?;
                Ok(Finding::Places(Places::new(places)))
            }
            Finding::Total(quad) => Ok(Finding::Total(*quad)),
            Finding::Groups(groups) => {
                let groups = groups.as_slice().to_vec(alloc)?;
                Ok(Finding::Groups(Groups::new(groups)))
            }
        }
    }

    /// What the question finds in `base` rows, in which it found this, and in those behind them, in which it found `other`: places
    /// are counted on by `base`, quads are merged, and so are the groups of one key. Of findings of different kinds this one
    /// stays.
    pub fn join(self, alloc: Global, base: u32, other: Finding) -> Result<Finding, Memory>
        requires can { CanJoin base self other }
        ensures { IfOk result (λ finding. finding ≡ joined base self other) }
    {
        match self {
            Finding::Places(places) => match other {
                Finding::Places(more) => Ok(Finding::Places(places_then(places, base, more)?)),
                _ => Ok(Finding::Places(places)),
            },
            Finding::Total(quad) => match other {
                Finding::Total(more) => Ok(Finding::Total(quad.merge(more))),
                _ => Ok(Finding::Total(quad)),
            },
            Finding::Groups(groups) => match other {
                Finding::Groups(more) => Ok(Finding::Groups(merge_both(alloc, groups, more)?)),
                _ => Ok(Finding::Groups(groups)),
            },
        }
    }

    /// The answer to the question that found this: places and a quad as they are, and of groups the marks of the question's
    /// trigger, the heaviest or all.
    pub fn body(self, alloc: Global, ask: &Ask) -> Result<Body, Memory>
        ensures { IfOk result (λ body. body ≡ body_of ask.now self) }
    {
        match self {
            Finding::Places(places) => Ok(Body::Places(places)),
            Finding::Total(quad) => Ok(Body::Total(quad)),
            Finding::Groups(groups) => body_of_groups(alloc, ask, groups),
        }
    }
}

// The places, and then the others, each counted on from that base.
fn places_then(places: Places, base: u32, more: Places) -> Result<Places, Memory>
    requires low { All (λ place. base + place < 2 ^ 32) more }
    ensures { IfOk result (λ both. both ≡ places ++ map (λ place. base + place) more) }
{
    if base == 0 && places.as_slice().is_empty() {
        return Ok(more);
    }
    let mut all = places.into_vec();
    push_places(&mut all, base, more.as_slice())?;
    Ok(Places::new(all))
}

// The groups of both, with those of one key merged: in one pass if both ascend by key, as the groups that a question finds do.
fn merge_both(alloc: Global, groups: Groups, more: Groups) -> Result<Groups, Memory>
    requires few { numbers_in (groups ++ more) < 2 ^ 32 }
    ensures { IfOk result (λ both. both ≡ merged (groups ++ more)) }
{
    let (left, right) = (groups.as_slice(), more.as_slice());
    if !ascends(left) || !ascends(right) {
        let mut all = groups.into_vec();
        all.extend_from_slice(right)?;
        return Ok(Groups::new(merge_groups(alloc, &all)?));
    }
    if left.is_empty() {
        return Ok(more);
    }
    if right.is_empty() {
        return Ok(groups);
    }
    Ok(Groups::new(merge_ascending(alloc, left, right)?))
}

// The marks or the heaviest of the groups, or all, as the question wants.
fn body_of_groups(alloc: Global, ask: &Ask, groups: Groups) -> Result<Body, Memory>
    ensures { IfOk result (λ body. body ≡ body_of_groups_as ask.now groups) }
{
    match ask {
        Ask::Fired(trigger) => {
            let marks = marks_of_groups(alloc, trigger, groups.as_slice())?;
            Ok(Body::Marks(Marks::new(marks)))
        }
        Ask::Top(_, part, most) => {
            let marks = top(alloc, *part, *most, groups.as_slice())?;
            Ok(Body::Tops(Marks::new(marks)))
        }
        Ask::Groups(_) => Ok(Body::Groups(groups)),
        _ => Ok(Body::Marks(Marks::new(Vec::new(alloc)))),
    }
}

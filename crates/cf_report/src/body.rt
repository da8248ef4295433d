// The text of a question's answer.
ghost use Rattle.std.specs.Prelude.{◌≡◌, ℕ, List, ◌<◌, ◌++◌, All, length, map, OnOk, IfOk, string_bytes};
ghost use Rattle.std.specs.List.{flat_map};
ghost use Rattle.cf_fold.specs.Sort.{sort};
ghost use Rattle.cf_shape.specs.Lanes.{both_keys};
ghost use Rattle.cf_plain.specs.Asks.{rows_in, row_at};
ghost use Rattle.cf_plain.specs.Groups.{first_key, other_key, pair_of};
ghost use Rattle.cf_report.specs.Answered.{IsWithin};
ghost use Rattle.cf_report.specs.Bodies.{numbers_text, number_text, quad_text, bound_text, keys_text, mark_text, marks_text, parts_text, group_text, groups_text, word_of, shown, nums_at, places_in};

use crate::Tags;
use cf_fold::Quad;
use cf_plain::{Ask, Body, Fired, Group, Groups};
use cf_row::Memory;
use std::alloc::Global;
use std::fmt::Write;

// How many numbers there are, and each.
fn push_numbers(text: &mut String, nums: &[u32]) -> Result<(), Memory>
    ensures { OnOk result (string_bytes text.new ≡ string_bytes text.old ++ numbers_text nums.now) }
{
    let count = nums.len();
    write!(text, " {count}:")?;
    push_each(text, nums)
}

fn push_each(text: &mut String, nums: &[u32]) -> Result<(), Memory>
    ensures { OnOk result (string_bytes text.new ≡ string_bytes text.old ++ flat_map number_text nums.now) }
{
    for num in nums {
        write!(text, " {num}")?;
    }
    Ok(())
}

// The least or the greatest of so many numbers.
fn push_bound(text: &mut String, count: u64, bound: u64) -> Result<(), Memory>
    ensures { OnOk result (string_bytes text.new ≡ string_bytes text.old ++ bound_text count bound) }
{
    if count == 0 {
        text.push_str("-")
    } else {
        write!(text, "{bound}")
    }
}

// The count, sum, least and greatest number of a quad.
fn push_quad(text: &mut String, quad: Quad) -> Result<(), Memory>
    ensures { OnOk result (string_bytes text.new ≡ string_bytes text.old ++ quad_text quad) }
{
    let count = quad.count();
    let sum = quad.sum();
    write!(text, " count {count} sum {sum} least ")?;
    push_bound(text, count, quad.least())?;
    text.push_str(" greatest ")?;
    push_bound(text, count, quad.greatest())
}

/// How many marks there are, and each.
pub(crate) fn push_marks(text: &mut String, marks: &[Fired]) -> Result<(), Memory>
    ensures { OnOk result (string_bytes text.new ≡ string_bytes text.old ++ marks_text marks.now) }
{
    let count = marks.len();
    write!(text, " {count}:")?;
    push_each_mark(text, marks)
}

fn push_each_mark(text: &mut String, marks: &[Fired]) -> Result<(), Memory>
    ensures { OnOk result (string_bytes text.new ≡ string_bytes text.old ++ flat_map mark_text marks.now) }
{
    for mark in marks {
        push_mark(text, *mark)?;
    }
    Ok(())
}

fn push_mark(text: &mut String, mark: Fired) -> Result<(), Memory>
    ensures { OnOk result (string_bytes text.new ≡ string_bytes text.old ++ mark_text mark) }
{
    text.push_str(" ")?;
    push_keys(text, mark.bucket, mark.key)?;
    let value = mark.value;
    write!(text, "={value}")
}

/// Appends a bucket or a key, and behind a slash the value that keeps the rows of the bucket apart, if there is one. If memory runs
/// out, the text may end with a part of it.
pub fn push_keys(text: &mut String, key: u64, by: Option<u64>) -> Result<(), Memory>
    ensures { OnOk result (string_bytes text.new ≡ string_bytes text.old ++ keys_text key by) }
{
    match by {
        None => write!(text, "{key}"),
        Some(by) => write!(text, "{key}/{by}"),
    }
}

// How many groups there are, and each.
fn push_groups(text: &mut String, groups: &Groups) -> Result<(), Memory>
    ensures { OnOk result (string_bytes text.new ≡ string_bytes text.old ++ groups_text groups.now) }
{
    let groups = groups.as_slice();
    let count = groups.len();
    write!(text, " {count}:")?;
    push_each_group(text, groups)
}

fn push_each_group(text: &mut String, groups: &[Group]) -> Result<(), Memory>
    ensures { OnOk result (string_bytes text.new ≡ string_bytes text.old ++ flat_map group_text (map pair_of groups.now)) }
{
    for group in groups {
        push_group(text, group)?;
    }
    Ok(())
}

fn push_group(text: &mut String, group: &Group) -> Result<(), Memory>
    ensures { OnOk result (string_bytes text.new ≡ string_bytes text.old ++ group_text (pair_of group.now)) }
{
    let quad = group.quad;
    text.push_str(" ")?;
    push_both_keys(text, group.key, group.by)?;
    text.push_str("=")?;
    push_parts(text, quad)
}

// The keys, which are those of the number that they make.
fn push_both_keys(text: &mut String, key: u64, by: Option<u64>) -> Result<(), Memory>
    ensures { OnOk result (string_bytes text.new ≡ string_bytes text.old ++ keys_text (first_key (both_keys key by)) (other_key (both_keys key by))) }
{
    match by {
        None => push_keys(text, key, None),
        Some(by) => push_keys(text, key, Some(by)),
    }
}

// The count, sum, least and greatest number of a quad of some numbers.
fn push_parts(text: &mut String, quad: Quad) -> Result<(), Memory>
    ensures { OnOk result (string_bytes text.new ≡ string_bytes text.old ++ parts_text quad) }
{
    let count = quad.count();
    let sum = quad.sum();
    write!(text, "{count}/{sum}/")?;
    let least = quad.least();
    let greatest = quad.greatest();
    write!(text, "{least}/{greatest}")
}

/// The word of a question's kind.
pub fn word(ask: &Ask) -> &str
    ensures { result.now ≡ word_of ask.now }
{
    match ask {
        Ask::List(_) => "list",
        Ask::Find(_, _, _) => "find",
        Ask::Between(_, _, _) => "between",
        Ask::Measure(_, _, _) => "measure",
        Ask::Fired(_) => "fired",
        Ask::Top(_, _, _) => "top",
        Ask::Groups(_) => "groups",
        Ask::Total(_, _) => "total",
    }
}

// The number in the input of the row at a place.
fn num_of(entries: &Tags, place: u32) -> u32
    requires { place < length entries.now }
    ensures { result ≡ (row_at (rows_in entries.now) place).num }
{
    entries.num_at(place as usize)
}

// The numbers in the input of the rows at some places.
fn nums_of(alloc: Global, entries: &Tags, places: &[u32]) -> Result<Vec<u32>, Memory>
    requires { All (λ place. place < length entries.now) places.now }
    ensures { IfOk result (λ nums. nums.items ≡ nums_at (rows_in entries.now) places.now) }
{
    let mut nums = Vec::new(alloc);
    for place in places {
        nums.push(num_of(entries, *place))?;
    }
    Ok(nums)
}

// The same, ascending.
fn sorted_nums_of(alloc: Global, entries: &Tags, places: &[u32]) -> Result<Vec<u32>, Memory>
    requires { All (λ place. place < length entries.now) places.now }
    ensures { IfOk result (λ nums. nums.items ≡ sort (nums_at (rows_in entries.now) places.now)) }
{
    let mut nums = nums_of(alloc, entries, places)?;
    nums.sort_unstable();
    Ok(nums)
}

/// The places of rows that a body is; none if it is of another kind.
pub fn places_of(body: &Body) -> &[u32]
    ensures is { result.now ≡ places_in body.now }
    ensures within { (count : ℕ) → IsWithin count body.now → All (λ place. place < count) result.now }
{
    match body {
        Body::Places(places) => places.as_slice(),
        Body::Total(_) => &[],
        Body::Marks(_) => &[],
        Body::Tops(_) => &[],
        Body::Groups(_) => &[],
    }
}

/// Appends a body, whose places are shown as these numbers. If memory runs out, the text may end with a part of it.
pub fn push_body(text: &mut String, body: &Body, nums: &[u32]) -> Result<(), Memory>
    ensures { (show : List ℕ → List ℕ) → nums.now ≡ show (places_in body.now)
        → OnOk result (string_bytes text.new ≡ string_bytes text.old ++ shown show body.now) }
{
    match body {
        Body::Places(_) => push_numbers(text, nums),
        Body::Total(quad) => push_quad(text, *quad),
        Body::Marks(marks) => push_marks(text, marks.as_slice()),
        Body::Tops(tops) => push_marks(text, tops.as_slice()),
        Body::Groups(groups) => push_groups(text, groups),
    }
}

/// A body, where rows are shown by their numbers, ascending.
pub(crate) fn push_final(
    alloc: Global,
    text: &mut String,
    entries: &Tags,
    body: &Body,
) -> Result<(), Memory>
    requires { IsWithin (length entries.now) body.now }
    ensures { OnOk result (string_bytes text.new ≡ string_bytes text.old ++ shown (λ places. sort (nums_at (rows_in entries.now) places)) body.now) }
{
    let nums = sorted_nums_of(alloc, entries, places_of(body))?;
    push_body(text, body, &nums)
}

/// A body, where rows are shown by their numbers in the order of the log.
pub(crate) fn push_live(
    alloc: Global,
    text: &mut String,
    entries: &Tags,
    body: &Body,
) -> Result<(), Memory>
    requires { IsWithin (length entries.now) body.now }
    ensures { OnOk result (string_bytes text.new ≡ string_bytes text.old ++ shown (nums_at (rows_in entries.now)) body.now) }
{
    let nums = nums_of(alloc, entries, places_of(body))?;
    push_body(text, body, &nums)
}

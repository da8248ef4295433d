// What the words of a ticket's cells are, and the paths of rows in lanes.
ghost use Rattle.std.specs.Prelude.{◌≡◌, ◌+◌, ◌<◌, ◌≤◌, ◌==◌, cond, length, IfOk, IsTrue, ◌↔◌, MatchOption, Some, None, slice_index_or};
ghost use Rattle.cf_fold.specs.Quads.{quad_of, IsQuad};
ghost use Rattle.cf_row.specs.Row.{Fits};
ghost use Rattle.cf_row.specs.Words.{spelled, word_count as word_total_of};
ghost use Rattle.cf_shape.specs.Uses.{ticket_words, use_at};
ghost use Rattle.cf_law.specs.Words.{spot as spot_of, has, same_path, link_to_newest};
ghost use Rattle.cf_law.specs.Law.{IsWhole};
ghost use Rattle.cf_law.specs.Nibbles.{nibbles};
ghost use Rattle.cf_law.specs.Steps.{IsNext, mine_chain, own_word as own_word_of, own_lane_word};
ghost use Rattle.cf_law.specs.Shapes.{layout, path_in};
ghost use Rattle.cf_core.specs.Worlds.{HasCell, IsPlainUse, IsCellUse, IsPassed, ArePassed, draft, AllLinked, AreOwn, amounts_with_row, cell_word_of};

use cf_fold::{CellWords, Quad};
use cf_pass::{OwnTicket, WriterBook};
use cf_row::{Memory, Row, word_count, words_of};
use cf_shape::{Shape, cell_size, key, levels, measure, measures, selects};
use std::alloc::Global;

// Whether the lane has that word of a cell.
pub(crate) fn has_cell(shape: &Shape, lane: u8, index: u8) -> bool
    ensures { IsTrue result ↔ HasCell shape.now lane index }
{
    usize::from(lane) < shape.lanes().len() && index < cell_size(shape, lane)
}

// The lane and the word of its cell that word `index` of a ticket is, where it is one.
fn cell_of(shape: &Shape, index: u32) -> Option<(u8, u8)>
    requires { index + 1 < ticket_words shape.now }
    ensures { MatchOption result (IsPlainUse shape.now index) (λ r. IsCellUse shape.now index r.0 r.1) }
{
    let plain = word_count(shape.schema()) as u32 + 1;
    if index < plain {
        return None;
    }
    let mut left = index - plain;
    let lanes = shape.lanes();
    for lane in 0..lanes.len() {
        let count = u32::from(cell_size(shape, lane as u8));
        if left < count {
            return Some((lane as u8, left as u8));
        }
        left -= count;
    }
    None
}

// Whether word `index` of a ticket of the row is passed over: its lane doesn't select the row.
fn is_passed(shape: &Shape, row: &Row, index: u32) -> bool
    requires fits { Fits shape.now.schema row.now }
    requires word { index + 1 < ticket_words shape.now }
    ensures { IsTrue result ↔ IsPassed shape.now row.now index }
{
    match cell_of(shape, index) {
        Some((lane, _)) => !selects(shape, lane, row),
        None => false,
    }
}

// Whether the words from the one to the other are passed over.
fn are_passed(shape: &Shape, row: &Row, from: u32, to: u32) -> bool
    requires fits { Fits shape.now.schema row.now }
    requires words { to < ticket_words shape.now }
    ensures { IsTrue result ↔ ArePassed shape.now row.now from to }
{
    for i in from..to {
        if !is_passed(shape, row, i) {
            return false;
        }
    }
    true
}

// Whether word `index` is the next of a ticket of the row, which is filled so far.
pub(crate) fn is_next(shape: &Shape, row: &Row, filled: u32, index: u32) -> bool
    requires { Fits shape.now.schema row.now }
    ensures { IsTrue result ↔ IsNext (layout shape.now) (draft row.now filled) index }
{
    if u64::from(index) + 1 >= shape.ticket_words() || index < filled {
        return false;
    }
    !is_passed(shape, row, index) && are_passed(shape, row, filled, index)
}

// Whether a ticket of the row, which is filled so far, is filled but for its done word.
pub(crate) fn is_whole(shape: &Shape, row: &Row, filled: u32) -> bool
    requires { Fits shape.now.schema row.now }
    ensures { IsTrue result ↔ IsWhole (layout shape.now) (draft row.now filled) }
{
    are_passed(shape, row, filled, (shape.ticket_words() - 1) as u32)
}

// Whether the lane is one of these.
pub(crate) fn is_in(lanes: &[u8], lane: u8) -> bool
    ensures { result ≡ has lanes.now lane }
{
    for linked in lanes {
        if *linked == lane {
            return true;
        }
    }
    false
}

// Whether these are all lanes that select the row, and maybe more.
pub(crate) fn are_all(shape: &Shape, row: &Row, linked: &[u8]) -> bool
    requires { Fits shape.now.schema row.now }
    ensures { IsTrue result ↔ AllLinked shape.now row.now linked.now }
{
    let lanes = shape.lanes().len() as u8;
    for lane in 0..lanes {
        if selects(shape, lane, row) && !is_in(linked, lane) {
            return false;
        }
    }
    true
}

// The nibbles of a key, the last first.
fn nibbles_of(alloc: Global, count: u8, key: u64) -> Result<Vec<u8>, Memory>
    ensures { IfOk result (λ path. path.items ≡ nibbles count key) }
{
    let mut path = Vec::with_capacity(alloc, count as usize)?;
    let mut left = key;
    for level in 0..count {
        let _ = level;
        path.push((left % 16) as u8)?;
        left /= 16;
    }
    Ok(path)
}

// The row's path in the lane, where the lane selects it.
pub(crate) fn path_of(
    alloc: Global,
    shape: &Shape,
    row: &Row,
    lane: u8,
) -> Result<Option<Vec<u8>>, Memory>
    requires exists { lane < length shape.now.lanes }
    requires fits { Fits shape.now.schema row.now }
    ensures { IfOk result (λ found. MatchOption found (path_in shape.now row.now lane ≡ None) (λ path. path_in shape.now row.now lane ≡ Some path.items)) }
{
    if !selects(shape, lane, row) {
        return Ok(None);
    }
    let path = nibbles_of(alloc, levels(shape, lane), key(shape, lane, row))?;
    Ok(Some(path))
}

fn is_same(one: &[u8], other: &[u8]) -> bool
    ensures { IsTrue result ↔ (one.now ≡ other.now) }
{
    one == other
}

// Whether that is the row's path in the lane.
fn has_path(alloc: Global, shape: &Shape, row: &Row, lane: u8, path: &[u8]) -> Result<bool, Memory>
    requires exists { lane < length shape.now.lanes }
    requires fits { Fits shape.now.schema row.now }
    ensures { IfOk result (λ same. same ≡ same_path (path_in shape.now row.now lane) path.now) }
{
    match path_of(alloc, shape, row, lane)? {
        Some(own) => Ok(is_same(&own, path)),
        None => Ok(false),
    }
}

// The newest offset of a chain plus 1, once an older one stands behind.
fn newest(previous: u64, offset: u32) -> u64
    ensures { result ≡ cond (previous == 0) (offset + 1) previous }
{
    if previous == 0 {
        u64::from(offset) + 1
    } else {
        previous
    }
}

// The newest of a writer's tickets in a leaf plus 1, or 0 where there is none, and the quad of them and the row.
fn chained(
    alloc: Global,
    shape: &Shape,
    mine: &[OwnTicket],
    row: &Row,
    lane: u8,
    path: &[u8],
) -> Result<(u64, Quad), Memory>
    requires exists { lane < length shape.now.lanes }
    requires fits { Fits shape.now.schema row.now }
    requires own { AreOwn shape.now mine.now }
    ensures previous { IfOk result (λ r. r.0 ≡ link_to_newest (mine_chain (layout shape.now) (spot_of lane path.now) mine.now)) }
    ensures quad { IfOk result (λ r. r.1 ≡ quad_of (amounts_with_row shape.now lane row.now (mine_chain (layout shape.now) (spot_of lane path.now) mine.now))) }
{
    let mut previous = 0;
    let mut quad = Quad::EMPTY.add(measure(shape, lane, row));
    for at in (0..mine.len()).rev() {
        let ticket = &mine[at];
        if !has_path(alloc, shape, ticket.row(), lane, path)? {
            continue;
        }
        previous = newest(previous, ticket.offset());
        quad = quad.add(measure(shape, lane, ticket.row()));
    }
    Ok((previous, quad))
}

// Word j of a cell: the previous link and the count, the sum, and the least and greatest.
fn cell_word(measured: bool, previous: u64, quad: Quad, index: u8) -> u64
    requires previous { previous ≤ 65536 }
    requires few { quad.count ≤ 65537 }
    requires quad { IsQuad quad }
    ensures { result ≡ cell_word_of measured previous quad index }
{
    let words = CellWords::of(previous, quad);
    match index {
        0 if measured => words.first,
        0 => previous,
        1 => words.sum,
        _ => words.ends,
    }
}

// Word j of the cell of that lane, of a ticket of the row.
fn version(
    alloc: Global,
    shape: &Shape,
    book: &WriterBook,
    row: &Row,
    lane: u8,
    index: u8,
) -> Result<u64, Memory>
    requires exists { lane < length shape.now.lanes }
    requires fits { Fits shape.now.schema row.now }
    requires own { AreOwn shape.now book.now.mine }
    ensures { IfOk result (λ word. word ≡ own_lane_word (layout shape.now) book.now row.now lane index (path_in shape.now row.now lane)) }
{
    let _held = shape.lanes();
    let Some(path) = path_of(alloc, shape, row, lane)? else {
        return Ok(0);
    };
    let (previous, quad) = chained(alloc, shape, book.mine(), row, lane, &path)?;
    Ok(cell_word(measures(shape, lane), previous, quad, index))
}

// Word i of the entry of the row and the writer.
fn plain_word(
    alloc: Global,
    shape: &Shape,
    row: &Row,
    writer: u8,
    index: u32,
) -> Result<u64, Memory>
    requires fits { Fits shape.now.schema row.now }
    requires writer { writer < 16 }
    requires word { index < word_total_of shape.now.schema + 1 }
    ensures { IfOk result (λ word. word ≡ slice_index_or (spelled (record { writer = writer; row = row.now })) index 0) }
{
    let schema = shape.schema();
    let mut words = vec![in alloc; 0; word_count(schema) + 1]?;
    words_of(schema, row, writer, &mut words);
    Ok(words[index as usize])
}

// What word `index` of a ticket of the row has to be.
pub(crate) fn own_word(
    alloc: Global,
    shape: &Shape,
    book: &WriterBook,
    row: &Row,
    index: u32,
) -> Result<u64, Memory>
    requires fits { Fits shape.now.schema row.now }
    requires writer { book.now.writer < 16 }
    requires own { AreOwn shape.now book.now.mine }
    requires word { index + 1 < ticket_words shape.now }
    ensures { IfOk result (λ word. word ≡ own_word_of (layout shape.now) book.now row.now (use_at shape.now index)) }
{
    match cell_of(shape, index) {
        Some((lane, j)) => version(alloc, shape, book, row, lane, j),
        None => plain_word(alloc, shape, row, book.writer(), index),
    }
}

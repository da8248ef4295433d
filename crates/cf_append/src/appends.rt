// A row becomes a record of the log.
ghost use Rattle.std.specs.Prelude.{◌≡◌, ◌+◌, ◌-◌, ◌*◌, ◌<◌, ◌≤◌, length, IfOk};
ghost use Rattle.cf_row.specs.Row.{Fits};
ghost use Rattle.cf_row.specs.Words.{word_count as word_count_of, spelled};
ghost use Rattle.cf_row.specs.declared.words.TheConstants.{MOST_WORDS};
ghost use Rattle.cf_table.specs.Loads.{CountsLoads};
ghost use Rattle.cf_table.specs.Values.{IsOf, book_of};
ghost use Rattle.cf_append.specs.Appends.{HasAppended, MayAppend, append_steps, flying};
ghost use Rattle.cf_append.specs.Paths.{Remembers, KeepsLeaves};

use crate::leaves::Leaves;
use crate::links::{fill_cells, link_all};
use crate::paths::make_paths;
use crate::settles::{move_tail, wait_for};
use cf_row::{MOST_WORDS, Row, word_count, words_of};
use cf_table::{MultiLog, Steps, WriterPass};
use std::sync::Wait;
use std::sync::ledger::Ledger;
use thiserror::Error;

/// Why a row wasn't appended: the log is full, or the writer's nodes are.
#[derive(Clone, Copy, Debug, PartialEq, Eq, Error)]
pub enum AppendFault {
    /// All places are taken. The writer's book is marked.
    #[error("the log is full")]
    Full,
    /// A path of the row wants a node, and all of the writer's are used.
    #[error("the writer's nodes are used")]
    NodesFull,
}

// Stores these words of the ticket in flight.
fn store_words<L: Ledger>(
    log: &MultiLog,
    pass: &mut WriterPass,
    offset: u32,
    row: &Row,
    words: &[u64],
    steps: &mut Steps<L>,
)
    requires of { IsOf pass.old log.now }
    requires place { offset < log.now.shape.capacity }
    requires few { length words.now ≤ MOST_WORDS }
    requires words { (length words.now ≡ word_count_of log.now.shape.schema + 1) × (words.now ≡ spelled record { writer = (book_of pass.old.view).writer; row = row.now }) }
    requires flies { pass.old ≡ flying offset row.now 0 pass.old }
    ensures pass { pass.new ≡ flying offset row.now (length words.now) pass.old }
    ensures steps { steps.new ≡ steps.old + length words.now }
    ensures loads { CountsLoads pass.old pass.new steps.old steps.new }
{
    let _row = row;
    for i in 0..words.len() {
        log.store_cell(pass, offset, i as u8, words[i], steps);
    }
}

// Stores all words of the ticket in flight.
pub(crate) fn fill<L: Ledger>(
    log: &MultiLog,
    pass: &mut WriterPass,
    offset: u32,
    row: &Row,
    steps: &mut Steps<L>,
)
    requires of { IsOf pass.old log.now }
    requires place { offset < log.now.shape.capacity }
    requires fits { Fits log.now.shape.schema row.now }
    requires flies { pass.old ≡ flying offset row.now 0 pass.old }
    ensures pass { pass.new ≡ flying offset row.now (word_count_of log.now.shape.schema + 1) pass.old }
    ensures steps { steps.new ≡ steps.old + (word_count_of log.now.shape.schema + 1) }
    ensures loads { CountsLoads pass.old pass.new steps.old steps.new }
{
    let schema = log.shape().schema();
    let mut buffer = [0u64; MOST_WORDS];
    let words = &mut buffer[..word_count(schema) + 1];
    words_of(schema, row, pass.writer(), words);
    store_words(log, pass, offset, row, words, steps);
}

/// Appends the row: makes its paths, takes a ticket, fills it, links it in each lane that selects the row, finishes it, and
/// moves the read tail over each finished record, up to the first that the last look found unfinished, or to the last place.
/// Answers the record's offset. It is covered then, or stands behind that unfinished one.
///
/// It takes a step for each attribute and three more, at most three for each level of a lane's tree and five more for each
/// lane, and two for each place by which the read tail is moved and for one more. After `NodesFull` the nodes that were made
/// for other lanes of the row stay, and no ticket is taken.
pub fn append<L: Ledger>(
    log: &MultiLog,
    pass: &mut WriterPass,
    row: &Row,
    steps: &mut Steps<L>,
) -> Result<u32, AppendFault>
    requires may { MayAppend log.now row.now pass.old }
    ensures appended { HasAppended log.now.shape row.now pass.old pass.new result }
    ensures steps { steps.new ≤ steps.old + append_steps log.now.shape pass.old.view pass.new.view }
    ensures loads { CountsLoads pass.old pass.new steps.old steps.new }
{
    append_near(log, pass, row, &mut Leaves::new(), steps)
}

/// As `append`, by a writer that keeps its last leaf in each lane. If a kept leaf has the front of the row's key, no step is made
/// on the way to it; if all do, the row takes at most 8 steps for each lane beside those for its words and the read tail.
/// After `Ok` the leaf of each lane that selects the row is kept. The leaves stay good through all that the pass does but
/// being joined to another.
pub fn append_near<L: Ledger>(
    log: &MultiLog,
    pass: &mut WriterPass,
    row: &Row,
    leaves: &mut Leaves,
    steps: &mut Steps<L>,
) -> Result<u32, AppendFault>
    requires may { MayAppend log.now row.now pass.old }
    requires near { Remembers log.now.shape pass.old.view leaves.old }
    ensures appended { HasAppended log.now.shape row.now pass.old pass.new result }
    ensures near { Remembers log.now.shape pass.new.view leaves.new }
    ensures kept { IfOk result (λ _. KeepsLeaves log.now.shape row.now leaves.new (length log.now.shape.lanes)) }
    ensures near_steps { KeepsLeaves log.now.shape row.now leaves.old (length log.now.shape.lanes)
        → steps.new ≤ steps.old + word_count_of log.now.shape.schema + 3 + 8 * length log.now.shape.lanes + 2 * (length pass.new.view.seen - length pass.old.view.seen + 1) }
    ensures steps { steps.new ≤ steps.old + append_steps log.now.shape pass.old.view pass.new.view }
    ensures loads { CountsLoads pass.old pass.new steps.old steps.new }
{
    if pass.over() {
        return Err(AppendFault::Full);
    }
    let Some(filed) = make_paths(log, pass, row, leaves, steps) else {
        return Err(AppendFault::NodesFull);
    };
    let _number = row.num();
    let found = log.take_ticket(pass, row, steps);
    if found >= u64::from(log.shape().capacity()) {
        return Err(AppendFault::Full);
    }
    let offset = found as u32;
    fill(log, pass, offset, row, steps);
    fill_cells(log, pass, offset, row, &filed, steps);
    link_all(log, pass, offset, row, &filed, steps);
    log.finish_record(pass, offset, steps);
    move_tail(log, pass, steps);
    Ok(offset)
}

/// As `append`, and then waits until the record is covered, for writers whose earlier records aren't finished.
pub fn append_wait<R: Wait, L: Ledger>(
    log: &MultiLog,
    rt: &R,
    pass: &mut WriterPass,
    row: &Row,
    steps: &mut Steps<L>,
) -> Result<u32, AppendFault>
    requires may { MayAppend log.now row.now pass.old }
    ensures appended { HasAppended log.now.shape row.now pass.old pass.new result }
    ensures covered { IfOk result (λ o. o < length pass.new.view.seen) }
    ensures loads { CountsLoads pass.old pass.new steps.old steps.new }
{
    let offset = append(log, pass, row, steps)?;
    wait_for(log, rt, pass, offset, steps);
    Ok(offset)
}

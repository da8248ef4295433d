// The cells of a record are stored, and it is linked in each lane that selects its row.
ghost use Rattle.std.specs.Prelude.{ℕ, ◌≡◌, ◌+◌, ◌*◌, ◌%◌, ◌<◌, ◌≤◌, List, ◌∷◌, [], suc, true, length};
ghost use Rattle.cf_row.specs.Row.{Fits};
ghost use Rattle.cf_row.specs.Words.{word_count as word_count_of};
ghost use Rattle.cf_shape.specs.Lanes.{key_of, measure_of};
ghost use Rattle.cf_shape.specs.Nodes.{levels_of};
ghost use Rattle.cf_fold.specs.Quads.{quad_of};
ghost use Rattle.cf_shape.specs.Uses.{cell_count, is_measured};
ghost use Rattle.cf_law.specs.Words.{Spot, spot, link_to_newest};
ghost use Rattle.cf_law.specs.Steps.{mine_chain};
ghost use Rattle.cf_law.specs.Steps.Act.{store_head as stores_head};
ghost use Rattle.cf_law.specs.Readers.{own_top};
ghost use Rattle.cf_law.specs.Shapes.{layout as layout_of, path_in};
ghost use Rattle.cf_table.specs.Loads.{CountsLoads};
ghost use Rattle.cf_table.specs.Values.{IsOf, book_of};
ghost use Rattle.cf_table.specs.Effects.{IsLawfulStep, HasSteppedUnseen, head_effect};
ghost use Rattle.cf_append.specs.Calls.{HasKept, OnlyReads};
ghost use Rattle.cf_append.specs.Paths.{IsNodeOf, IsFiledIn, HasFilings};
ghost use Rattle.cf_append.specs.Linking.{HasFilled, HasLinked, IsBookOf, IsNewest, IsCell, amounts_in_chain, key_path, row_chain, cell_from};

use crate::paths::Filing;
use cf_fold::{CellWords, Quad};
use cf_row::{Row, word_count};
use cf_shape::{cell_size, measure, measures};
use cf_table::{MultiLog, Steps, WriterPass};
use std::sync::ledger::Ledger;

// A lane's cell in the ticket in flight: the ticket's offset, the lane, and the word of the ticket where the cell begins.
#[derive(Clone, Copy, Drop)]
struct Cell {
    offset: u32,
    lane: u8,
    from: u8,
}

// What files the row in a lane, if that selects it.
#[derive(Clone, Copy, Drop)]
struct Filed {
    lane: u8,
    filing: Option<Filing>,
}

// The own head of a key in a leaf, which stands for the spot `at`. `_lane` is for the proof.
fn own_head<L: Ledger>(
    log: &MultiLog,
    pass: &mut WriterPass,
    _lane: u8,
    key: u64,
    leaf: u32,
    steps: &mut Steps<L>,
) -> u64
    ghost at: { Spot }
    requires of { IsOf pass.old log.now }
    requires one { pass.old.view.books ≡ book_of pass.old.view ∷ [] }
    requires writer { (book_of pass.old.view).writer < log.now.shape.writers }
    requires leaf { IsNodeOf log.now.shape pass.old.view at leaf }
    requires level { suc (length at.path) ≡ levels_of log.now.shape at.lane }
    ensures reads { OnlyReads log.now pass.old pass.new steps.old steps.new }
    ensures head { result ≡ own_top (layout_of log.now.shape) (book_of pass.old.view) (spot at.lane (key % 16 ∷ at.path)) }
    ensures steps { steps.new ≡ steps.old + 1 }
{
    let writer = pass.writer();
    log.load_head(pass, leaf, (key % 16) as u8, writer, steps)
}

// The quad in the cell of an own record, which is the newest in a leaf. `_row` is for the proof.
fn cell_quad<L: Ledger>(
    log: &MultiLog,
    pass: &mut WriterPass,
    _row: &Row,
    lane: u8,
    offset: u32,
    steps: &mut Steps<L>,
) -> Quad
    ghost path: { List ℕ }
    requires of { IsOf pass.old log.now }
    requires one { pass.old.view.books ≡ book_of pass.old.view ∷ [] }
    requires book { IsBookOf log.now.shape (book_of pass.old.view) }
    requires lane { (lane < length log.now.shape.lanes) × (is_measured log.now.shape lane ≡ true) }
    requires newest { IsNewest (layout_of log.now.shape) (spot lane path) (book_of pass.old.view).mine offset }
    ensures reads { OnlyReads log.now pass.old pass.new steps.old steps.new }
    ensures quad { result ≡ quad_of (amounts_in_chain log.now.shape lane (mine_chain (layout_of log.now.shape) (spot lane path) (book_of pass.old.view).mine)) }
    ensures steps { steps.new ≡ steps.old + 3 }
{
    let _lawful = log.shape();
    let first = log.load_cell(pass, offset, lane, 0, steps);
    let sum = log.load_cell(pass, offset, lane, 1, steps);
    let ends = log.load_cell(pass, offset, lane, 2, steps);
    CellWords { first, sum, ends }.quad()
}

// The quad of what a lane measures of the writer's records in the row's leaf and of the row. `previous` names the newest
// of those records.
fn quad_with<L: Ledger>(
    log: &MultiLog,
    pass: &mut WriterPass,
    row: &Row,
    lane: u8,
    previous: u64,
    steps: &mut Steps<L>,
) -> Quad
    requires of { IsOf pass.old log.now }
    requires fits { Fits log.now.shape.schema row.now }
    requires one { pass.old.view.books ≡ book_of pass.old.view ∷ [] }
    requires book { IsBookOf log.now.shape (book_of pass.old.view) }
    requires lane { lane < length log.now.shape.lanes }
    requires measured { is_measured log.now.shape lane ≡ true }
    requires previous { previous ≡ link_to_newest (row_chain log.now.shape lane row.now (book_of pass.old.view)) }
    ensures reads { OnlyReads log.now pass.old pass.new steps.old steps.new }
    ensures quad { result ≡ quad_of (measure_of log.now.shape lane row.now ∷ amounts_in_chain log.now.shape lane (row_chain log.now.shape lane row.now (book_of pass.old.view))) }
    ensures steps { steps.new ≤ steps.old + 3 }
{
    let value = Quad::EMPTY.add(measure(log.shape(), lane, row));
    if previous == 0 {
        return value;
    }
    let before = cell_quad(log, pass, row, lane, (previous - 1) as u32, steps);
    value.merge(before)
}

// Stores the three words of a measured lane's cell of the ticket in flight. `_row` is for the proof.
fn store_three<L: Ledger>(
    log: &MultiLog,
    pass: &mut WriterPass,
    _row: &Row,
    cell: Cell,
    words: CellWords,
    steps: &mut Steps<L>,
)
    requires of { IsOf pass.old log.now }
    requires place { cell.offset < log.now.shape.capacity }
    requires lane { (cell.lane < length log.now.shape.lanes) × (is_measured log.now.shape cell.lane ≡ true) }
    requires at { cell.from ≡ cell_from log.now.shape cell.lane }
    requires leads { path_in log.now.shape _row.now cell.lane ≡ Some (key_path log.now.shape cell.lane (key_of log.now.shape cell.lane _row.now)) }
    requires filled { HasFilled log.now.shape cell.offset _row.now (cell_from log.now.shape cell.lane) pass.old pass.old }
    requires words { IsCell log.now.shape cell.lane (row_chain log.now.shape cell.lane _row.now (book_of pass.old.view)) _row.now words.first words.sum words.ends }
    ensures kept { HasKept log.now pass.old pass.new steps.old steps.new }
    ensures filled { HasFilled log.now.shape cell.offset _row.now (cell_from log.now.shape (cell.lane + 1)) pass.old pass.new }
    ensures steps { steps.new ≡ steps.old + 3 }
{
    let _lawful = log.shape();
    log.store_cell(pass, cell.offset, cell.from, words.first, steps);
    log.store_cell(pass, cell.offset, cell.from + 1, words.sum, steps);
    log.store_cell(pass, cell.offset, cell.from + 2, words.ends, steps);
}

// Stores the cell of a lane of the ticket in flight: it names the newest record of the writer in the row's leaf. It is passed
// over where the lane doesn't select the row. Answers where the next cell begins.
fn store_version<L: Ledger>(
    log: &MultiLog,
    pass: &mut WriterPass,
    row: &Row,
    cell: Cell,
    filing: Option<Filing>,
    steps: &mut Steps<L>,
) -> u8
    requires of { IsOf pass.old log.now }
    requires fits { Fits log.now.shape.schema row.now }
    requires place { cell.offset < log.now.shape.capacity }
    requires lane { cell.lane < length log.now.shape.lanes }
    requires at { cell.from ≡ cell_from log.now.shape cell.lane }
    requires book { IsBookOf log.now.shape (book_of pass.old.view) }
    requires filled { HasFilled log.now.shape cell.offset row.now (cell_from log.now.shape cell.lane) pass.old pass.old }
    requires filing { IsFiledIn log.now.shape row.now pass.old.view cell.lane filing }
    ensures kept { HasKept log.now pass.old pass.new steps.old steps.new }
    ensures filled { HasFilled log.now.shape cell.offset row.now (cell_from log.now.shape (cell.lane + 1)) pass.old pass.new }
    ensures next { result ≡ cell_from log.now.shape (cell.lane + 1) }
    ensures steps { steps.new ≤ steps.old + 7 }
{
    let shape = log.shape();
    let Some(at) = filing else {
        return cell.from + cell_size(shape, cell.lane);
    };
    let previous = own_head(log, pass, cell.lane, at.key, at.leaf, steps);
    if measures(shape, cell.lane) {
        let quad = quad_with(log, pass, row, cell.lane, previous, steps);
        let words = CellWords::of(previous, quad);
        store_three(log, pass, row, cell, words, steps);
        return cell.from + 3;
    }
    log.store_cell(pass, cell.offset, cell.from, previous, steps);
    cell.from + 1
}

/// Stores the cells of the ticket in flight, in the order of the lanes.
pub(crate) fn fill_cells<L: Ledger>(
    log: &MultiLog,
    pass: &mut WriterPass,
    offset: u32,
    row: &Row,
    filed: &[Option<Filing>; 16],
    steps: &mut Steps<L>,
)
    requires of { IsOf pass.old log.now }
    requires fits { Fits log.now.shape.schema row.now }
    requires place { offset < log.now.shape.capacity }
    requires book { IsBookOf log.now.shape (book_of pass.old.view) }
    requires filled { HasFilled log.now.shape offset row.now (word_count_of log.now.shape.schema + 1) pass.old pass.old }
    requires filed { HasFilings log.now.shape row.now pass.old.view filed.now (length log.now.shape.lanes) }
    ensures kept { HasKept log.now pass.old pass.new steps.old steps.new }
    ensures filled { HasFilled log.now.shape offset row.now (word_count_of log.now.shape.schema + 1 + cell_count log.now.shape.lanes) pass.old pass.new }
    ensures steps { steps.new ≤ steps.old + 7 * length log.now.shape.lanes }
{
    let shape = log.shape();
    let lanes = shape.lanes().len() as u8;
    let mut from = word_count(shape.schema()) as u8 + 1;
    for lane in 0..lanes {
        let cell = Cell { offset, lane, from };
        from = store_version(log, pass, row, cell, filed[usize::from(lane)], steps);
    }
}

// Links the ticket in flight in a lane, at the row's leaf. `_lane` is for the proof.
fn store_top<L: Ledger>(
    log: &MultiLog,
    pass: &mut WriterPass,
    offset: u32,
    _lane: u8,
    at: Filing,
    steps: &mut Steps<L>,
)
    ghost lane: { ℕ }
    requires of { IsOf pass.old log.now }
    requires place { (at.leaf < log.now.shape.writers * log.now.shape.nodes) × ((book_of pass.old.view).writer < log.now.shape.writers) }
    requires lawful { IsLawfulStep log.now.shape pass.old.view (stores_head lane at.leaf (at.key % 16) offset) (head_effect log.now.shape pass.old.view lane at.leaf (at.key % 16) offset) }
    ensures made { HasSteppedUnseen log.now.shape (head_effect log.now.shape pass.old.view lane at.leaf (at.key % 16) offset) pass.old pass.new }
    ensures steps { steps.new ≡ steps.old + 1 }
    ensures loads { CountsLoads pass.old pass.new steps.old steps.new }
{
    log.store_head(pass, at.leaf, (at.key % 16) as u8, offset, steps);
}

// Links the ticket in flight in a lane, where that selects the row. `_row` is for the proof.
fn link_in<L: Ledger>(
    log: &MultiLog,
    pass: &mut WriterPass,
    offset: u32,
    _row: &Row,
    filed: Filed,
    steps: &mut Steps<L>,
)
    requires of { IsOf pass.old log.now }
    requires lane { filed.lane < length log.now.shape.lanes }
    requires writer { (book_of pass.old.view).writer < log.now.shape.writers }
    requires linked { HasLinked log.now.shape offset _row.now filed.lane pass.old pass.old }
    requires filing { IsFiledIn log.now.shape _row.now pass.old.view filed.lane filed.filing }
    ensures kept { HasKept log.now pass.old pass.new steps.old steps.new }
    ensures linked { HasLinked log.now.shape offset _row.now (filed.lane + 1) pass.old pass.new }
    ensures steps { steps.new ≤ steps.old + 1 }
{
    let _lawful = log.shape();
    let Some(at) = filed.filing else {
        return;
    };
    store_top(log, pass, offset, filed.lane, at, steps);
}

/// Links the ticket in flight in each lane that selects its row.
pub(crate) fn link_all<L: Ledger>(
    log: &MultiLog,
    pass: &mut WriterPass,
    offset: u32,
    row: &Row,
    filed: &[Option<Filing>; 16],
    steps: &mut Steps<L>,
)
    requires of { IsOf pass.old log.now }
    requires writer { (book_of pass.old.view).writer < log.now.shape.writers }
    requires linked { HasLinked log.now.shape offset row.now 0 pass.old pass.old }
    requires filed { HasFilings log.now.shape row.now pass.old.view filed.now (length log.now.shape.lanes) }
    ensures kept { HasKept log.now pass.old pass.new steps.old steps.new }
    ensures linked { HasLinked log.now.shape offset row.now (length log.now.shape.lanes) pass.old pass.new }
    ensures steps { steps.new ≤ steps.old + length log.now.shape.lanes }
{
    let lanes = log.shape().lanes().len() as u8;
    for lane in 0..lanes {
        let filing = filed[usize::from(lane)];
        link_in(log, pass, offset, row, Filed { lane, filing }, steps);
    }
}

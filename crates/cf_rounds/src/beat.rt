// A beat: how far the stream has come, and the totals of its aggregates.
ghost use Rattle.std.specs.Prelude.{◌≡◌, ◌++◌, ◌<◌, ◌/◌, ◌^◌, ℕ, List, length, codes, decimal, OnOk, string_bytes};
ghost use Rattle.std.specs.List.{flat_map, range_with_len};
ghost use Rattle.cf_row.specs.Row.{RowValue};
ghost use Rattle.cf_setup.specs.Setups.{shaped};
ghost use Rattle.cf_rounds.specs.Lines.{RoundView, beat_text, total_line, total_line_at};
ghost use Rattle.cf_report.specs.Bodies.{line};

use crate::lanes::is_aggregate;
use cf_report::name_at;
use cf_row::Memory;
use cf_setup::Setup;
use cf_shape::Shape;
use cf_watch::Watched;
use std::fmt::Write;

/// So many nanoseconds are a second.
const SECOND: u64 = 1_000_000_000;

fn push_at(text: &mut String, to: u64, second: u64) -> Result<(), Memory>
    ensures { OnOk result (string_bytes text.new ≡ string_bytes text.old ++ line (codes "at " ++ decimal to ++ codes " " ++ decimal second)) }
{
    write!(text, "at {to} {second}\n")
}

fn push_total(text: &mut String, name: &str, kept: &Watched) -> Result<(), Memory>
    ensures { OnOk result (string_bytes text.new ≡ string_bytes text.old ++ total_line name.now kept.now) }
{
    let count = kept.count();
    let sum = kept.sum();
    write!(text, "total {name} count {count} sum {sum}\n")
}

// The line of the lane at a place, if it is an aggregate.
fn push_total_at(
    text: &mut String,
    setup: &Setup,
    shape: &Shape,
    kept: &[Watched],
    lane: usize,
) -> Result<(), Memory>
    requires exists { lane < length setup.now.lane_names }
    requires shape { (capacity : ℕ) × (nodes : ℕ) × (shape.now ≡ shaped setup.now capacity 1 nodes) }
    requires lanes { length kept.now ≡ length setup.now.lanes }
    ensures { (view : RoundView) → view.kept ≡ kept.now
        → OnOk result (string_bytes text.new ≡ string_bytes text.old ++ total_line_at shape.now setup.now view lane) }
{
    let _same = setup.lanes();
    if is_aggregate(shape, lane) {
        push_total(text, name_at(setup.lane_names(), lane), &kept[lane])
    } else {
        Ok(())
    }
}

/// A beat of a stream of which so many records had come, the last at that time.
pub(crate) fn push_beat(
    text: &mut String,
    setup: &Setup,
    shape: &Shape,
    kept: &[Watched],
    to: u64,
    last: u64,
) -> Result<(), Memory>
    requires shape { (capacity : ℕ) × (nodes : ℕ) × (shape.now ≡ shaped setup.now capacity 1 nodes) }
    requires lanes { length kept.now ≡ length setup.now.lanes }
    ensures { (from : ℕ) (rows : List RowValue) → OnOk result (string_bytes text.new ≡ string_bytes text.old
        ++ beat_text shape.now setup.now (record { from = from; to = to; rows = rows; kept = kept.now; last = last })) }
{
    push_at(text, to, last / SECOND)?;
    for lane in 0..setup.lane_names().len() {
        push_total_at(text, setup, shape, kept, lane)?;
    }
    Ok(())
}

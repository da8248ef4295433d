//! Whole buckets of an aggregate, the marks of triggers, and which are new.
#![tactic(auto)]

ghost use Rattle.std.specs.Prelude.{◌≡◌, IfOk, ℕ, Option};
ghost use Rattle.std.specs.List.{list_any};
ghost use Rattle.std.specs.BTreeSet.{contains};
ghost use Rattle.cf_watch.specs.New.{is_on, newly as newly_of, place_cmp};

mod apart;
mod bucket;
mod kept;
mod kept_apart;
mod laws;
mod marks;
mod notes;
mod pair_marks;
mod pairs;
mod watched;

use cf_plain::Fired;
use cf_row::Memory;
pub use kept::Kept;
pub use kept_apart::KeptApart;
pub use laws::{
    buckets_are_told_once, few_are_kept, few_pairs_are_kept, growing_marks_stay,
    pairs_are_told_once, quads_are_whole, rows_are_kept, rows_are_kept_by_key,
    whole_pairs_are_seen, whole_streams_are_seen,
};
use std::alloc::Global;
use std::collections::BTreeSet;
pub use watched::Watched;

/// How many buckets are kept of an aggregate.
pub const MOST_KEPT: usize = 4096;

/// How many buckets are kept of an aggregate by key.
pub const MOST_APART: usize = 8;

/// How many pairs of a bucket and a key are kept in them.
pub const MOST_PAIRS: usize = 65_536;

/// How many triggers there may be.
pub const MOST_TRIGGERS: usize = 16;

/// The marks of `now` on whose bucket and key no mark of `before` is, in the order of `now`.
pub fn newly(alloc: Global, before: &[Fired], now: &[Fired]) -> Result<Vec<Fired>, Memory>
    ensures { IfOk result (λ marks. marks.items ≡ newly_of before.now now.now) }
{
    let places = places_of(alloc, before)?;
    let mut marks = Vec::new(alloc);
    for mark in now {
        if !places.contains(&(mark.bucket, mark.key)) {
            marks.push(*mark)?;
        }
    }
    Ok(marks)
}

// The buckets and keys of the marks.
fn places_of(alloc: Global, marks: &[Fired]) -> Result<BTreeSet<(u64, Option<u64>)>, Memory>
    ensures { IfOk result (λ places. (q : ℕ × Option ℕ) → contains place_cmp places q ≡ list_any (is_on q) marks.now) }
{
    let mut places = BTreeSet::new(alloc);
    for mark in marks {
        places.insert((mark.bucket, mark.key))?;
    }
    Ok(places)
}

// All batches, and then the answers on all entries.
ghost use Rattle.std.specs.Prelude.{◌≡◌, ◌≤◌, ◌++◌, [], All, length, IfOk, IfErr};
ghost use Rattle.cf_row.specs.Row.{Fits};
ghost use Rattle.cf_load.specs.Loaders.{IsLoading};
ghost use Rattle.cf_load.specs.Planned.{IsPlan, tails_of};
ghost use Rattle.cf_load.specs.Loads.{HasSome, Loads};
ghost use Rattle.cf_segments.specs.Segments.{SegmentsGoOn, HoldsRows, room_of, told_of};
ghost use Rattle.cf_load.specs.declared.loads.LoadFault.TheVariants.{Memory as NoMemory};

use crate::{LivePlan, Loader, Segments};
use cf_outside::Gate;
use cf_plain::Loaded;
use cf_row::{Memory, Row};
use std::alloc::Global;
use std::thread::Threads;
use thiserror::Error;

/// The most rows of a batch.
pub const BATCH: usize = 4096;

/// Why rows weren't loaded.
#[derive(Clone, Copy, Debug, PartialEq, Eq, Error)]
pub enum LoadFault {
    /// There are more rows than the segments have room for. Nothing was appended.
    #[error("more rows than there is room for")]
    Full,
    /// The nodes of that writer are used up, and its next row wants another. Some of the rows may have been appended.
    #[error("writer {0} has no node left")]
    NodesFull(u8),
    /// Want of memory. Some of the rows may have been appended.
    #[error("out of memory")]
    Memory,
}

impl From<Memory> for LoadFault {
    ghost from_gives = { λ _ e. e ≡ NoMemory };

    fn from(_: Memory) -> Self {
        LoadFault::Memory
    }
}

// Loads the rows batch by batch, by a loader that has loaded none. After a fault the log has some of them.
fn load_batches<R: Threads + Sync, G: Gate>(
    rt: &R,
    alloc: Global,
    segments: &mut Segments,
    rows: &[Row],
    loader: &mut Loader,
    gate: &G,
) -> Result<(), LoadFault>
    requires loading { IsLoading segments.old [] loader.old }
    requires none { loader.old.lives ≡ [] }
    requires fits { All (Fits segments.old.shape.schema) rows.now }
    requires few { length rows.now ≤ room_of segments.old }
    ensures same { SegmentsGoOn segments.old segments.new }
    ensures loading { IfOk result (λ _. IsLoading segments.new rows.now loader.new) }
    ensures plan { IfOk result (λ _. loader.new.plan ≡ loader.old.plan) }
    ensures told { IfOk result (λ _. told_of segments.new ≡ told_of segments.old ++ tails_of loader.new.lives) }
    ensures stopped { IfErr result (HasSome rows.now segments.new) }
{
    let batches = rows.len().div_ceil(BATCH);
    for number in 0..batches {
        let from = BATCH * number;
        let to = rows.len().min(from + BATCH);
        loader.batch(rt, alloc, segments, &rows[from..to], gate)?;
    }
    Ok(())
}

/// Loads rows into segments that have none, batch by batch of 4,096 rows, by as many writers as the shape has, each in a thread
/// of its own where one can be made; row k is of writer k modulo their number. A segment that is full is closed before the next
/// batch. Beside each batch a reader makes the plan's rounds, each asking the live questions once, of all entries so far. The rounds
/// of a batch come after the appends of the batches before it and before those of the batches behind it, anywhere among its own. A
/// writer calls the gate before each append, and the reader after each round, also if no question is live. At the end every
/// question and every trigger is asked of all entries, each in a thread of its own where one can be made. It waits for its own
/// workers.
pub fn load<R: Threads + Sync, G: Gate>(
    rt: &R,
    alloc: Global,
    segments: &mut Segments,
    rows: &[Row],
    plan: &LivePlan,
    gate: &G,
) -> Result<Loaded, LoadFault>
    requires loaded { HoldsRows segments.old [] }
    requires plan { IsPlan segments.old.shape plan.now }
    requires fits { All (Fits segments.old.shape.schema) rows.now }
    ensures { Loads rows.now plan.now segments.old segments.new result }
{
    if rows.len() > segments.room() as usize {
        return Err(LoadFault::Full);
    }
    let mut loader = Loader::new(alloc, segments, plan)?;
    load_batches(rt, alloc, segments, rows, &mut loader, gate)?;
    Ok(loader.finish(rt, alloc, segments)?)
}

// An opened capture is followed to its end.
ghost use Rattle.std.specs.Prelude.{◌≡◌, ◌⊎◌, ◌≤◌, Bool, ℕ, List, [], Option, Ok, Err, IfOk, IfSome, OnOk, length, ◌^◌, ◌-◌};
ghost use Rattle.cf_command.specs.Call.{AreWindowSizes};
ghost use Rattle.cf_outside.specs.Causes.{Rose};
ghost use Rattle.cf_outside.specs.Files.{ShelfView};
ghost use Rattle.cf_row.specs.Schema6.{attrs_by};
ghost use Rattle.cf_project.specs.Setups.{named_by as named_by_of};
ghost use Rattle.cf_row.specs.declared.packet6.PacketSchema.{PacketSchema};
ghost use Rattle.cf_intake.specs.Reads.{view_by};
ghost use Rattle.cf_intake.specs.declared.refusal.Stop.TheVariants as stops;
ghost use Rattle.cf_rounds.specs.Held.{IsSetAs, RoundsValue};
ghost use Rattle.cf_follow.specs.Followed.{IsFollowed, IsGoingOn, IsLeftOf, IsReady, ReadComesTo, ReadsComeTo, begun_with};
ghost use Rattle.cf_follow.specs.Completed.{IsWatchable, Yields};
ghost use Rattle.cf_follow.specs.Heard.{StopsAfterRound};
ghost use Rattle.cf_follow.specs.declared.ending.Ending.TheVariants as endings;

use crate::Ending;
use crate::end::end;
use crate::left::{Left, LeftReads};
use crate::said::{hear, refuse, tell};
use cf_command::WindowSizes;
use cf_intake::{PIECE, Reads, Stop};
use cf_outside::{Shelf, Sink};
use cf_project::{kept_setup, named_by};
use cf_rounds::{Intervals, Rounds};
use cf_row::{Memory, PacketSchema};
use cf_setup::{Setup, shape_of};
use std::alloc::Global;
use std::thread::Threads;

/// Records are numbered below 2^53 - 1, so that each program can read the numbers exactly.
const LIMIT: u64 = 9_007_199_254_740_991;

/// A capture to follow, before its first round and its first read. If it may be truncated, an end within a record is no fault.
#[derive(Drop)]
pub struct Watch {
    pub(crate) rounds: Rounds,
    pub(crate) reads: Reads,
    pub(crate) left: Left,
    pub(crate) truncated: bool,
}

impl Watch {
    /// Has a window of these sizes for the records of a setup. Of each record the window is to have the attributes that the setup names, and
    /// `ts`.
    pub fn begin(
        alloc: Global,
        setup: Setup,
        sizes: WindowSizes,
        intervals: Intervals,
        truncated: bool,
        schema: PacketSchema,
    ) -> Result<Watch, Memory>
        requires sizes { AreWindowSizes sizes }
        ensures ready { IfOk result (λ watch. IsReady
            (begun_with setup sizes.capacity sizes.segments sizes.nodes intervals.lives intervals.beat (2 ^ 53 - 1)) watch.rounds watch.left watch.reads) }
        ensures kept { IfOk result (λ watch. watch.left.kept.items ≡ named_by_of setup) }
        ensures truncated { IfOk result (λ watch. watch.truncated ≡ truncated) }
        ensures schema { IfOk result (λ watch. watch.reads.schema ≡ schema) }
    {
        let left = Left {
            schema: setup.schema().copy(alloc)?,
            kept: named_by(alloc, &setup)?,
        };
        let named = kept_setup(alloc, &left.kept, setup)?;
        let shape = shape_of(alloc, &named, sizes.capacity, 1, sizes.nodes)?;
        Ok(Watch {
            rounds: Rounds::begin(alloc, named, shape, sizes.segments, intervals, LIMIT)?,
            reads: Reads::begin(alloc, schema, PIECE)?,
            left,
            truncated,
        })
    }
}

// The shelf failed: a round is made of what was read.
fn stop<K: Sink>(alloc: Global, rounds: &mut Rounds, sink: &mut K) -> Ending
    ensures set { IsSetAs rounds.old rounds.new }
    ensures stopped { StopsAfterRound rounds.old (K.held sink.old) (K.held sink.new) result }
    ensures later { K.faults sink.old ≤ K.faults sink.new }
    ensures cause { result ≡ endings.Unwritten → Rose (K.faults sink.old) (K.faults sink.new) }
{
    match tell(alloc, rounds, true, "", sink) {
        Ok(()) => Ending::Stopped(Stop::ReadFault),
        Err(ending) => ending,
    }
}

// A read, of which what its records say is written before the next. Answers whether there may be another. After a fault of the capture
// there is none.
fn step<R: Threads, F: Shelf, K: Sink>(
    rt: &R,
    alloc: Global,
    rounds: &mut Rounds,
    reads: &mut LeftReads,
    shelf: &mut F,
    sink: &mut K,
) -> Result<bool, Ending>
    requires fit { IsLeftOf reads.old.left rounds.old reads.old.reads.schema }
    requires going { (begun : RoundsValue) × (before : ShelfView) × (held : Option (List ℕ)) × (schema : PacketSchema)
        × IsGoingOn schema begun reads.old.left.kept.items rounds.old reads.old.reads before (view_by (F.rest shelf.old) (F.moved shelf.old)) held
        (K.held sink.old) }
    ensures fit { OnOk result (IsLeftOf reads.new.left rounds.new reads.new.reads.schema) }
    ensures left { reads.new.left ≡ reads.old.left }
    ensures files { F.files shelf.new ≡ F.files shelf.old }
    ensures goes { (schema : PacketSchema) (begun : RoundsValue) (before : ShelfView) (held : Option (List ℕ))
        → (on : IsGoingOn schema begun reads.old.left.kept.items rounds.old reads.old.reads before (view_by (F.rest shelf.old) (F.moved shelf.old)) held (K.held sink.old))
        → ReadComesTo schema begun reads.old.left.kept.items rounds.new reads.new.reads (length on.reads) before (view_by (F.rest shelf.new) (F.moved shelf.new)) held
        (K.held sink.new) result }
    ensures shelf_later { F.faults shelf.old ≤ F.faults shelf.new }
    ensures sink_later { K.faults sink.old ≤ K.faults sink.new }
    ensures read_cause { result ≡ Err (endings.Stopped stops.ReadFault) → Rose (F.faults shelf.old) (F.faults shelf.new) }
    ensures write_cause { result ≡ Err endings.Unwritten → Rose (K.faults sink.old) (K.faults sink.new) }
{
    if let Some(why) = reads.reads.fault() {
        return Err(refuse(alloc, rounds, why, sink));
    }
    match reads.next(alloc, shelf) {
        Ok(None) => Ok(false),
        Ok(Some(rows)) if rows.is_empty() => Ok(true),
        Ok(Some(rows)) => match hear(rt, alloc, rounds, &rows, sink) {
            Ok(()) => Ok(true),
            Err(ending) => Err(ending),
        },
        Err(Stop::Memory) => Err(Ending::Stopped(Stop::Memory)),
        Err(Stop::ReadFault) => Err(stop(alloc, rounds, sink)),
    }
}

// Reads until the end of the capture is found, and answers whether it was: if not, as many reads were made as are counted. The segment
// that the window needs next is opened beside the reads.
fn read_on<R: Threads, F: Shelf, K: Sink>(
    rt: &R,
    alloc: Global,
    rounds: &mut Rounds,
    reads: &mut LeftReads,
    shelf: &mut F,
    sink: &mut K,
) -> Result<bool, Ending>
    requires fit { IsLeftOf reads.old.left rounds.old reads.old.reads.schema }
    requires ready { (begun : RoundsValue) × IsReady begun rounds.old reads.old.left reads.old.reads }
    ensures files { F.files shelf.new ≡ F.files shelf.old }
    ensures come { (begun : RoundsValue) → IsReady begun rounds.old reads.old.left reads.old.reads
        → ReadsComeTo reads.old.reads.schema begun reads.old.left.kept.items rounds.new reads.new.reads (view_by (F.rest shelf.old) (F.moved shelf.old))
        (view_by (F.rest shelf.new) (F.moved shelf.new)) (K.held sink.old) (K.held sink.new) result }
    ensures shelf_later { F.faults shelf.old ≤ F.faults shelf.new }
    ensures sink_later { K.faults sink.old ≤ K.faults sink.new }
    ensures read_cause { result ≡ Err (endings.Stopped stops.ReadFault) → Rose (F.faults shelf.old) (F.faults shelf.new) }
    ensures write_cause { result ≡ Err endings.Unwritten → Rose (K.faults sink.old) (K.faults sink.new) }
{
    for _made in 0..u64::MAX {
        rounds.prepare(rt, alloc);
        match step(rt, alloc, rounds, reads, shelf, sink) {
            Ok(true) => {}
            Ok(false) => return Ok(true),
            Err(ending) => return Err(ending),
        }
    }
    Ok(false)
}

/// Follows the opened capture of packets to its end: a round comes after each read that ended a record, and before a record that forces
/// one, and what it says is written before the next record. A fault is told behind the read that shows it. The segment that the window needs next is opened in a thread of its
/// own beside the reads, which has ended when this returns. After 2^64 - 1 reads it ends as without memory.
pub fn follow<R: Threads, F: Shelf, K: Sink>(
    rt: &R,
    alloc: Global,
    watch: Watch,
    shelf: &mut F,
    sink: &mut K,
) -> Ending
    requires packets { watch.left.schema ≡ attrs_by watch.reads.schema }
    requires ready { (begun : RoundsValue) × IsReady begun watch.rounds watch.left watch.reads }
    // What was written is, for the reads that the shelf made, the text of those, or a front of it: that of rounds on whole records.
    ensures followed { (begun : RoundsValue) → IsReady begun watch.rounds watch.left watch.reads
        → IsFollowed watch.reads.schema begun watch.truncated (view_by (F.rest shelf.old) (F.moved shelf.old))
        (view_by (F.rest shelf.new) (F.moved shelf.new)) (K.held sink.old) (K.held sink.new) result }
    // A lawful capture is followed to its end, unless memory runs out or a device fails.
    ensures complete { (begun : RoundsValue) → IsReady begun watch.rounds watch.left watch.reads
        → IfSome (F.rest shelf.old) (λ file. IsWatchable watch.reads.schema begun watch.truncated file → (result ≡ endings.Done) ⊎ Yields result) }
    ensures files { F.files shelf.new ≡ F.files shelf.old }
    // A device's fault comes only where its count rose, and no count falls.
    ensures read_fault { result ≡ endings.Stopped stops.ReadFault → Rose (F.faults shelf.old) (F.faults shelf.new) }
    ensures write_fault { result ≡ endings.Unwritten → Rose (K.faults sink.old) (K.faults sink.new) }
    ensures shelf_count { F.faults shelf.old ≤ F.faults shelf.new }
    ensures sink_count { K.faults sink.old ≤ K.faults sink.new }
{
    let Watch {
        mut rounds,
        reads,
        left,
        truncated,
    } = watch;
    let mut reads = LeftReads { reads, left };
    let found = read_on(rt, alloc, &mut rounds, &mut reads, shelf, sink);
    rounds.release(rt);
    match found {
        Ok(true) => end(alloc, rounds, reads.reads, truncated, sink),
        Ok(false) => Ending::Stopped(Stop::Memory),
        Err(ending) => ending,
    }
}

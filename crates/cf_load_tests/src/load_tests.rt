ghost use Rattle.std.specs.Prelude.{[], All, IfOk, IsTrue};
ghost use Rattle.cf_row.specs.Row.{Fits};
ghost use Rattle.cf_segments.specs.Segments.{AllowsSegments, HoldsRows};

use crate::gates::{NoteGate, SecondGate};
use cf_load::{Closing, LivePlan, Segments, TurnFault, load};
use cf_outside::{FreeGate, Gate, Held};
use cf_plain::{Answer, Body, Fired, Loaded, copy_asks};
use cf_row::{Memory, Row, Schema, Value, fits};
use cf_setup::{Setup, parse_setup, shape_of};
use cf_shape::Shape;
use std::alloc::Global;
use std::process::Abort;
use std::test::Fail;
use std::thread::Threads;

// All rows, by a scan and by their key, each asked live once a round, and a trigger that no 4,096 rows fire.
pub(crate) const SETUP: &[u8] =
    b"schema records ts:u64,len:u32\nwidth 10\nindex i ts\nfilter f *\naggregate a f len\n\
    trigger t a count > 4096\nask l list *\nask k find i 7 7\nlive l\nlive k\n";

// Rows of one path with the numbers from one on, up to another.
pub(crate) fn rows_of(alloc: Global, from: u32, to: u32) -> Result<Vec<Row>, Memory> {
    let mut rows = Vec::new(alloc);
    for num in from..to {
        let values = [Value::Num(7), Value::Num(1)].to_vec(alloc)?;
        rows.push(Row::new(num, values))?;
    }
    Ok(rows)
}

pub(crate) fn all_fit(schema: &Schema, rows: &[Row]) -> bool
    ensures { IsTrue result → All (Fits schema.now) rows.now }
{
    rows.iter().all(|row| fits(schema, row))
}

// How many segments there may be, the places of each, and the writers.
#[derive(Clone, Copy, Drop)]
pub(crate) struct Sizes {
    pub(crate) most: u32,
    pub(crate) capacity: u32,
    pub(crate) writers: u8,
}

pub(crate) fn sizes_of(most: u32, capacity: u32, writers: u8) -> Sizes {
    Sizes {
        most,
        capacity,
        writers,
    }
}

// Whether a log of the shape may go on through so many segments.
pub(crate) fn allows(shape: &Shape, most: u32) -> bool
    ensures { IsTrue result → AllowsSegments shape.now most }
{
    let capacity = u64::from(shape.capacity());
    let is_whole = most == 1 || capacity % 4096 == 0;
    1 <= most && most <= 256 && u64::from(most) * capacity <= 1 << 20 && is_whole
}

// The first segment.
fn open_segments<R: Abort>(
    rt: &R,
    alloc: Global,
    setup: &Setup,
    sizes: Sizes,
) -> Result<Segments, Memory>
    ensures { IfOk result (λ segments. HoldsRows segments []) }
{
    assert!(rt; 1 <= sizes.capacity && sizes.capacity <= 16384);
    assert!(rt; 1 <= sizes.writers && sizes.writers <= 15);
    let shape = shape_of(alloc, setup, sizes.capacity, sizes.writers, 64)?;
    assert!(rt; allows(&shape, sizes.most));
    Segments::open(alloc, shape, sizes.most)
}

pub(crate) fn plan_of(
    alloc: Global,
    setup: &Setup,
    rounds: u32,
    is_live: bool,
) -> Result<LivePlan, Memory> {
    let lives = if is_live { setup.lives() } else { &[] };
    Ok(LivePlan {
        asks: copy_asks(alloc, setup.asks())?,
        triggers: setup.triggers().to_vec(alloc)?,
        lives: lives.to_vec(alloc)?,
        rounds,
    })
}

// So many rows are loaded beside a reader, which makes so many rounds.
pub(crate) fn load_rows<R: Threads + Sync + Abort, G: Gate>(
    rt: &R,
    alloc: Global,
    sizes: Sizes,
    count: u32,
    rounds: (u32, bool),
    gate: &G,
) -> Result<(Closing, Loaded), Memory> {
    let setup = parse_setup(alloc, SETUP).ok().expect(rt, "a setup");
    let rows = rows_of(alloc, 0, count)?;
    let plan = plan_of(alloc, &setup, rounds.0, rounds.1)?;
    let mut segments = open_segments(rt, alloc, &setup, sizes)?;
    assert!(rt; all_fit(segments.shape().schema(), &rows));
    assert!(rt; plan.suits(segments.shape()));
    let loaded = load(rt, alloc, &mut segments, &rows, &plan, gate);
    let loaded = loaded.ok().expect(rt, "loaded");
    let closing = segments.close(alloc).ok().expect(rt, "memory");
    Ok((closing, loaded))
}

// How many places an answer has, and how much of the log it saw.
fn seen_by(answer: &Answer) -> (usize, u32) {
    match &answer.body {
        Body::Places(places) => (places.as_slice().len(), answer.tail),
        _ => (0, u32::MAX),
    }
}

// Each answer has as many places as it saw entries, the live ones in the order of their batches, and the final ones saw all. The
// trigger fires on all rows together.
fn check<R: Abort>(rt: &R, loaded: &Loaded, count: u32) {
    let batches = count.div_ceil(4096) as usize;
    assert!(rt; loaded.finals().len() == 2 && loaded.lives().len() == 2 * batches);
    for answer in loaded.finals() {
        assert_eq!(rt; seen_by(answer), (count as usize, count));
    }
    let mut last = 0;
    for live in loaded.lives() {
        let (places, tail) = seen_by(&live.answer);
        assert!(rt; places == tail as usize && last <= tail && tail <= count);
        assert!(rt; live.batch <= tail / 4096);
        last = tail;
    }
    let fired = Fired {
        bucket: 0,
        key: None,
        value: u64::from(count),
    };
    for marks in loaded.alerts() {
        assert_eq!(rt; marks.as_slice().len(), usize::from(count > 4096));
        assert!(rt; marks.as_slice().iter().all(|mark| *mark == fired));
    }
}

// Rows go on in the next segment, as one log: questions are asked of all entries so far, and a trigger that no segment fires
// does so over two.
#[test]
fn rows_of_one_path_are_loaded_and_asked(rt: HostRuntime) -> Result<(), Fail> {
    for (most, capacity, writers, count, seals) in [
        (1, 5000, 1, 5000, 1),
        (1, 5000, 2, 5000, 1),
        (1, 5000, 15, 5000, 1),
        (3, 4096, 1, 4096, 1),
        (3, 4096, 1, 4097, 2),
        (3, 4096, 4, 8193, 3),
    ] {
        let sizes = sizes_of(most, capacity, writers);
        let (closing, loaded) = load_rows(&rt, rt.alloc(), sizes, count, (1, true), &FreeGate)?;
        check(&rt, &loaded, count);
        assert_eq!(rt; closing.seals.len(), seals);
        assert_eq!(rt; closing.entries.len(), count as usize);
        for (entry, number) in closing.entries.iter().zip(0..count) {
            assert!(rt; writers > 1 || entry.row.num() == number);
        }
    }
    Ok(())
}

// Each row comes to the gate once, by its writer, and each round once beside each batch.
#[test]
fn the_gate_is_called_for_each_row_and_each_round(rt: HostRuntime) -> Result<(), Fail> {
    let alloc = rt.alloc();
    for (most, capacity) in [(1, 5000), (2, 4096)] {
        let gate = NoteGate::new(alloc, 4100)?;
        let sizes = sizes_of(most, capacity, 2);
        let _ = load_rows(&rt, alloc, sizes, 4100, (2, true), &gate)?;
        assert!(rt; gate.has_noted(4));
    }
    Ok(())
}

// The reader's rounds come beside the writers of the second batch too, also where no question is live. No schedule changes the
// outcome. A writer's first append waits for the first round, which waits for no append; the end of that round waits for each
// writer's second call, which comes once its first append is done; and the second append waits for the second round, which waits
// for nothing more: so some thread can always go on, and a wait yields in each of its ten million turns. A reader that begins
// when the writers have ended leaves them waiting for it, until they give up.
#[test]
fn the_reader_asks_beside_the_second_batch(rt: HostRuntime) -> Result<(), Fail> {
    let alloc = rt.alloc();
    for (most, capacity, is_live) in [(1, 5000, true), (2, 4096, true), (1, 5000, false)] {
        let gate = SecondGate::new();
        let sizes = sizes_of(most, capacity, 2);
        let (closing, loaded) = load_rows(&rt, alloc, sizes, 4104, (2, is_live), &gate)?;
        assert_eq!(rt; closing.entries.len(), 4104);
        assert!(rt; matches!(gate.report(), Held::Answered(_)));
        let lives = loaded.lives();
        assert_eq!(rt; lives.len(), if is_live { 8 } else { 0 });
        for (live, tail) in lives.iter().skip(4).zip([4096, 4096, 4098, 4098]) {
            assert_eq!(rt; live.batch, 1);
            assert_eq!(rt; seen_by(&live.answer), (tail as usize, tail));
        }
    }
    Ok(())
}

#[test]
fn segments_turn_until_they_are_spent(rt: HostRuntime) -> Result<(), Fail> {
    let alloc = rt.alloc();
    let setup = parse_setup(alloc, SETUP).ok().expect(&rt, "a setup");
    for (most, capacity) in [(1, 1), (1, 4096), (2, 4096), (256, 4096)] {
        let mut segments = open_segments(&rt, alloc, &setup, sizes_of(most, capacity, 1))?;
        assert_eq!(rt; segments.room(), capacity * most);
        for _ in 1..most {
            assert!(rt; segments.turn(alloc).is_ok());
        }
        assert_eq!(rt; segments.turn(alloc), Err(TurnFault::Spent));
        let closing = segments.close(alloc).ok().expect(&rt, "memory");
        assert_eq!(rt; closing.entries.len(), 0);
        assert_eq!(rt; closing.seals.len(), most as usize);
    }
    Ok(())
}

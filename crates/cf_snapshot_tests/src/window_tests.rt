// Windows of a few rows.
ghost use Rattle.std.specs.Prelude.{◌≡◌, ◌<◌, ◌≤◌, false};

use cf_row::{Attr, Conjunction, Expr, Kind, Memory, Name, Row, Schema, Value, fits};
use cf_shape::{Key, Lane, Shape, belongs};
use cf_window::{Pushed, Window};
use std::alloc::Global;
use std::process::Abort;
use std::test::Fail;
use std::thread::Threads;

// The sizes of a window: rows and nodes of a segment, and how many segments there may be.
#[derive(Clone, Copy, Drop)]
struct Sizes {
    capacity: u32,
    nodes: u32,
    most: u32,
}

// An empty window that files rows by `k`. A row has a node for the first half of `k`.
fn window<R: Abort>(rt: &R, alloc: Global, sizes: Sizes) -> Result<Open, Memory> {
    let mut attrs = Vec::new(alloc);
    for (name, kind) in [("ts", Kind::U64), ("k", Kind::U8)] {
        attrs.push(Attr {
            name: Name::new(alloc, name)?,
            kind,
        })?;
    }
    let schema = Schema::new(attrs).expect(rt, "a schema");
    let mut every = Vec::new(alloc);
    every.push(Conjunction::new(Vec::new(alloc)))?;
    let mut lanes = Vec::new(alloc);
    lanes.push(Lane {
        select: Expr::new(every),
        key: Key::Attr(1),
        measure: None,
    })?;
    assert!(rt; belongs(&schema, &lanes));
    let shape = Shape::new(schema, lanes, sizes.capacity, 1, sizes.nodes, 10);
    let shape = shape.expect(rt, "a shape");
    assert!(rt; sizes.most > 0 && sizes.most <= 1024 && shape.capacity() <= 1024);
    opened(alloc, shape, sizes.most)
}

fn opened(alloc: Global, shape: Shape, most: u32) -> Result<Open, Memory>
    requires one { shape.writers ≡ 1 }
    requires some { 0 < most }
    requires few { (most ≤ 1024) × (shape.capacity ≤ 1024) }
{
    let window = Window::open(alloc, shape, most)?;
    Ok(Open { window })
}

// A window whose last segment has refused no row.
#[derive(Drop)]
struct Open {
    window: Window,
    ghost open: { window.is_spent ≡ false },
}

fn row(alloc: Global, key: u64) -> Result<Row, Memory> {
    let mut values = Vec::new(alloc);
    values.push(Value::Num(0))?;
    values.push(Value::Num(key))?;
    Ok(Row::new(0, values))
}

// The row comes, where need be in the place of the oldest segment. It answers with nothing if the row is refused.
fn put<R: Abort + Threads>(
    rt: &R,
    alloc: Global,
    open: Open,
    row: &Row,
) -> Result<Option<Open>, Memory> {
    let Open { mut window, .. } = open;
    assert!(rt; fits(window.shape().schema(), row));
    match window.push(rt, alloc, row)? {
        Pushed::Gone => Ok(Some(Open { window })),
        Pushed::NeedsDrop => {
            window.replace_oldest(rt, alloc, row)?;
            Ok(Some(Open { window }))
        }
        Pushed::Full => Ok(None),
        Pushed::NoNodes => Ok(None),
    }
}

// The numbers of the window's first row after each of these keys has come, up to the first that is refused.
fn firsts<R: Abort + Threads>(
    rt: &R,
    alloc: Global,
    sizes: Sizes,
    keys: &[u64],
) -> Result<Vec<u64>, Memory> {
    let mut firsts = Vec::new(alloc);
    let mut open = window(rt, alloc, sizes)?;
    for key in keys {
        let row = row(alloc, *key)?;
        open = match put(rt, alloc, open, &row)? {
            Some(open) => open,
            None => return Ok(firsts),
        };
        firsts.push(open.window.from())?;
    }
    Ok(firsts)
}

const fn sized(capacity: u32, nodes: u32, most: u32) -> Sizes {
    Sizes {
        capacity,
        nodes,
        most,
    }
}

#[test]
fn the_oldest_segment_makes_room(rt: HostRuntime) -> Result<(), Fail> {
    for (sizes, keys, wanted) in [
        // cut by rows
        (
            sized(1, 9, 1),
            [1, 1, 1, 1, 1].as_slice(),
            [0, 1, 2, 3, 4].as_slice(),
        ),
        (sized(2, 9, 1), &[1, 2, 3, 4, 5], &[0, 0, 2, 2, 4]),
        (sized(2, 9, 2), &[1, 2, 3, 4, 5], &[0, 0, 0, 0, 2]),
        (sized(1, 9, 3), &[1, 2, 3, 4, 5], &[0, 0, 0, 1, 2]),
        // cut by nodes: with the third row there are as many as there may be, with the fourth one more
        (
            sized(9, 2, 1),
            &[0x10, 0x20, 0x11, 0x30, 0x31],
            &[0, 0, 0, 3, 3],
        ),
        (
            sized(9, 2, 2),
            &[0x10, 0x20, 0x11, 0x30, 0x10, 0x20],
            &[0, 0, 0, 0, 0, 3],
        ),
        // what the last segment has no node for a new one takes
        (sized(9, 1, 2), &[0x10, 0x20, 0x10], &[0, 0, 1]),
        // a row that needs a node where there is none
        (sized(9, 0, 2), &[0x10], &[]),
    ] {
        let found = firsts(&rt, rt.alloc(), sizes, keys)?;
        assert_eq!(rt; found.as_slice(), wanted);
    }
    Ok(())
}

use cf_core::*;
use cf_row::{Attr, Conjunction, Expr, Kind, Memory, Name, Row, Schema, Value};
use cf_shape::{Key, Lane, Shape, belongs};
use std::alloc::Global;
use std::process::Abort;
use std::test::Fail;

// a world over the schema `ts:u64`, without lanes
fn world(rt: &impl Abort, alloc: Global, capacity: u32, writers: u8) -> Result<World, Memory> {
    let mut attrs = Vec::new(alloc);
    attrs.push(Attr {
        name: Name::new(alloc, "ts")?,
        kind: Kind::U64,
    })?;
    let schema = Schema::new(attrs).expect(rt, "a schema");
    let shape = Shape::new(schema, Vec::new(alloc), capacity, writers, 2, 10).expect(
        &rt, "a shape",
    );
    World::new(alloc, shape.bare(alloc)?)
}

fn row(alloc: Global, num: u32, ts: u64) -> Result<Row, Memory> {
    let mut values = Vec::new(alloc);
    values.push(Value::Num(ts))?;
    Ok(Row::new(num, values))
}

// pass 1 holds the book of writer 0, pass 2 that of writer 1
fn two_writers(rt: &impl Abort, alloc: Global) -> Result<World, Memory> {
    let mut world = world(rt, alloc, 4, 2)?;
    for writer in 0..2 {
        let act = Act::Split(Some(writer));
        assert!(rt; step(alloc, &mut world, &Event { pass: 0, act })?);
    }
    Ok(world)
}

fn says(
    rt: &impl Abort,
    alloc: Global,
    world: &mut World,
    pass: u32,
    act: Act,
    answer: bool,
) -> Result<(), Memory> {
    let made = step(alloc, world, &Event { pass, act })?;
    assert!(rt; made == answer);
    Ok(())
}

// writer 1 has finished ticket 1, and ticket 0 of writer 0 is in flight
fn one_finished(rt: &impl Abort, alloc: Global) -> Result<World, Memory> {
    let mut world = two_writers(rt, alloc)?;
    says(
        rt,
        alloc,
        &mut world,
        0,
        Act::Ticket(row(alloc, 0, 0)?),
        false,
    )?;
    says(
        rt,
        alloc,
        &mut world,
        1,
        Act::Ticket(row(alloc, 0, 3)?),
        true,
    )?;
    says(
        rt,
        alloc,
        &mut world,
        1,
        Act::Ticket(row(alloc, 2, 3)?),
        false,
    )?;
    says(
        rt,
        alloc,
        &mut world,
        2,
        Act::Ticket(row(alloc, 1, 5)?),
        true,
    )?;
    for (act, answer) in [
        (Act::Done(1), false),
        (Act::Cell(1, 0, 6), false),
        (Act::Cell(1, 1, 17), false),
        (Act::Cell(1, 0, 5), true),
        (Act::Done(1), false),
        (Act::Cell(1, 1, 17), true),
    ] {
        says(rt, alloc, &mut world, 2, act, answer)?;
    }
    says(rt, alloc, &mut world, 0, Act::Join(2), false)?;
    says(rt, alloc, &mut world, 2, Act::Done(1), true)?;
    Ok(world)
}

// both tickets are finished, and the read tail is 2
fn both_finished(rt: &impl Abort, alloc: Global) -> Result<World, Memory> {
    let mut world = one_finished(rt, alloc)?;
    for act in [Act::Cell(0, 0, 3), Act::Cell(0, 1, 0), Act::Done(0)] {
        says(rt, alloc, &mut world, 1, act, true)?;
    }
    for act in [
        Act::LookDone(0),
        Act::Advance(0),
        Act::LookDone(1),
        Act::Advance(1),
    ] {
        says(rt, alloc, &mut world, 2, act, true)?;
    }
    Ok(world)
}

#[test]
fn a_tail_waits_for_the_first_unfinished_ticket(rt: HostRuntime) -> Result<(), Fail> {
    let alloc = rt.alloc();
    let mut world = one_finished(&rt, alloc)?;
    assert!(rt; world.words().starts_with(&[2, 0, 0, 0, 0, 5, 17, 1]));
    for (act, answer) in [
        (Act::LookDone(0), true),
        (Act::Advance(0), false),
        (Act::LookDone(1), true),
        (Act::Advance(1), false),
        (Act::LookDone(4), false),
        (Act::LoadWord(0, 0), false),
    ] {
        says(&rt, alloc, &mut world, 2, act, answer)?;
    }
    let world = both_finished(&rt, alloc)?;
    assert!(rt; world.words().starts_with(&[2, 2, 3, 0, 1, 5, 17, 1]));
    Ok(())
}

#[test]
fn what_was_seen_is_handed_on(rt: HostRuntime) -> Result<(), Fail> {
    let alloc = rt.alloc();
    let mut world = both_finished(&rt, alloc)?;
    for (pass, act, answer) in [
        (2, Act::LoadWord(1, 2), true),
        (2, Act::LoadWord(1, 3), false),
        (1, Act::LoadWord(0, 0), false),
        (1, Act::LoadTail(true), true),
        (1, Act::LoadWord(0, 0), true),
        (0, Act::Join(2), true),
        (2, Act::LoadTail(false), false),
        (0, Act::Join(0), false),
        (0, Act::Split(Some(0)), false),
        (0, Act::Split(None), true),
        (3, Act::LoadWord(1, 0), true),
    ] {
        says(&rt, alloc, &mut world, pass, act, answer)?;
    }
    Ok(())
}

#[test]
fn one_writer_is_marked_once(rt: HostRuntime) -> Result<(), Fail> {
    let alloc = rt.alloc();
    let mut world = world(&rt, alloc, 4, 1)?;
    for num in 0..4 {
        let ticket = Act::Ticket(row(alloc, num, 9)?);
        says(&rt, alloc, &mut world, 0, ticket, true)?;
        let tag = Act::Cell(num, 1, 16 * u64::from(num));
        for act in [Act::Cell(num, 0, 9), tag, Act::Done(num)] {
            says(&rt, alloc, &mut world, 0, act, true)?;
        }
    }
    for (num, answer) in [(4, true), (5, false)] {
        let ticket = Act::Ticket(row(alloc, num, 9)?);
        says(&rt, alloc, &mut world, 0, ticket, answer)?;
        assert_eq!(rt; world.words()[0], 5);
    }
    Ok(())
}

// A world of two writers and a lane of all rows for each key, or none where a lane isn't of the schema.
fn lane_world(
    rt: &impl Abort,
    alloc: Global,
    kinds: &[(&str, Kind)],
    keys: &[Key],
    measure: Option<u8>,
    nodes: u32,
) -> Result<Option<World>, Memory> {
    let mut attrs = Vec::new(alloc);
    for (name, kind) in kinds {
        attrs.push(Attr {
            name: Name::new(alloc, name)?,
            kind: *kind,
        })?;
    }
    let schema = Schema::new(attrs).expect(rt, "a schema");
    let mut lanes = Vec::new(alloc);
    for key in keys {
        let mut all = Vec::new(alloc);
        all.push(Conjunction::new(Vec::new(alloc)))?;
        lanes.push(Lane {
            select: Expr::new(all),
            key: *key,
            measure,
        })?;
    }
    if !belongs(&schema, &lanes) {
        return Ok(None);
    }
    let shape = Shape::new(schema, lanes, 4, 2, nodes, 10).expect(rt, "a shape");
    Ok(Some(World::new(alloc, shape)?))
}

fn row_of(alloc: Global, num: u32, numbers: [u64; 2]) -> Result<Row, Memory> {
    let mut values = Vec::new(alloc);
    for number in numbers {
        values.push(Value::Num(number))?;
    }
    Ok(Row::new(num, values))
}

// pass 1 has the book of writer 0, pass 2 that of writer 1, and each has a ticket
fn takes(
    rt: &impl Abort,
    alloc: Global,
    world: &mut World,
    rows: [[u64; 2]; 2],
) -> Result<(), Memory> {
    for (writer, numbers) in rows.iter().enumerate() {
        let pass = writer as u32 + 1;
        says(rt, alloc, world, 0, Act::Split(Some(writer as u8)), true)?;
        let row = row_of(alloc, writer as u32, *numbers)?;
        says(rt, alloc, world, pass, Act::Ticket(row), true)?;
    }
    Ok(())
}

#[test]
fn one_node_is_linked_for_two(rt: HostRuntime) -> Result<(), Fail> {
    let alloc = rt.alloc();
    let kinds = [("ts", Kind::U64), ("k", Kind::U8)];
    let mut world = lane_world(&rt, alloc, &kinds, &[Key::Attr(1)], None, 2)?.expect(&rt, "a lane");
    assert_eq!(rt; world.words().len(), 170);
    takes(&rt, alloc, &mut world, [[3, 53], [5, 53]])?;
    for (pass, act, answer) in [
        (1, Act::Link(25, 0), false),
        (1, Act::Label(1, 801), false),
        (1, Act::Label(0, 802), false),
        (1, Act::Label(0, 673), false),
        (1, Act::Label(0, 801), true),
        (2, Act::Label(2, 801), true),
        (1, Act::Link(25, 1), false),
        (1, Act::Link(26, 0), false),
        (1, Act::Link(25, 0), true),
        (1, Act::Link(26, 1), false),
        (2, Act::LoadHead(0, 5, 0), false),
        (2, Act::Link(25, 2), true),
        (2, Act::LoadHead(0, 5, 0), true),
        (2, Act::LoadChild(25), true),
        (2, Act::LoadChild(21), false),
        (2, Act::LoadChild(39), false),
        (2, Act::Label(2, 801), true),
    ] {
        says(&rt, alloc, &mut world, pass, act, answer)?;
    }
    for (place, wanted) in [(25, 1), (38, 801), (104, 801), (49, 0), (50, 0)] {
        assert_eq!(rt;
            world.words().get(place).copied(),
            Some(wanted),
            "word {place}"
        );
    }
    Ok(())
}

#[test]
fn a_ticket_ends_in_each_lane(rt: HostRuntime) -> Result<(), Fail> {
    let alloc = rt.alloc();
    let kinds = [("ts", Kind::U64), ("k", Kind::U8)];
    let mut world = lane_world(&rt, alloc, &kinds, &[Key::Attr(1)], None, 2)?.expect(&rt, "a lane");
    takes(&rt, alloc, &mut world, [[3, 53], [5, 53]])?;
    for (pass, act, answer) in [
        (1, Act::Label(0, 801), true),
        (1, Act::Link(25, 0), true),
        (1, Act::Cell(0, 0, 3), true),
        (1, Act::Cell(0, 1, 53), true),
        (1, Act::Cell(0, 2, 0), true),
        (1, Act::Head(0, 0, 5, 0), false),
        (1, Act::Cell(0, 3, 1), false),
        (1, Act::Cell(0, 3, 0), true),
        (1, Act::Cell(0, 4, 1), false),
        (1, Act::Done(0), false),
        (1, Act::Head(0, 0, 3, 0), false),
        (1, Act::Head(0, 1, 5, 0), false),
        (1, Act::Head(1, 0, 5, 0), false),
        (1, Act::Head(0, 0, 5, 0), true),
        (1, Act::Head(0, 0, 5, 0), false),
        (2, Act::LoadCell(0, 0, 0), false),
        (2, Act::LoadChild(25), true),
        (2, Act::LoadHead(0, 5, 0), true),
        (2, Act::LoadCell(0, 0, 1), false),
        (2, Act::LoadCell(0, 0, 0), true),
        (2, Act::LoadCell(1, 0, 0), true),
        (1, Act::Done(0), true),
        (2, Act::Cell(1, 0, 5), true),
        (2, Act::Cell(1, 1, 53), true),
        (2, Act::Cell(1, 2, 17), true),
        (2, Act::Cell(1, 3, 0), true),
        (2, Act::Head(0, 0, 5, 1), true),
        (2, Act::Done(1), true),
        (2, Act::Label(2, 801), true),
    ] {
        says(&rt, alloc, &mut world, pass, act, answer)?;
    }
    for (place, wanted) in [(25, 1), (49, 1), (50, 2), (6, 1), (11, 1)] {
        assert_eq!(rt;
            world.words().get(place).copied(),
            Some(wanted),
            "word {place}"
        );
    }
    Ok(())
}

// the path of bucket 0 is linked by pass 1 and loaded by pass 2
fn bucket_path(rt: &impl Abort, alloc: Global, world: &mut World) -> Result<(), Memory> {
    for level in 1..16 {
        let place = if level == 1 {
            30
        } else {
            47 + (level - 2) * 33
        };
        let node = level as u32 - 1;
        for (pass, act) in [
            (1, Act::Label(node, 32 * place + level)),
            (1, Act::Link(place, node)),
            (2, Act::LoadChild(place)),
        ] {
            says(rt, alloc, world, pass, act, true)?;
        }
    }
    Ok(())
}

#[test]
fn a_cell_counts_its_writers_rows(rt: HostRuntime) -> Result<(), Fail> {
    let alloc = rt.alloc();
    let kinds = [("ts", Kind::U64), ("len", Kind::U32)];
    let world = lane_world(&rt, alloc, &kinds, &[Key::Bucket], Some(1), 15)?;
    let mut world = world.expect(&rt, "a lane");
    takes(&rt, alloc, &mut world, [[3, 7], [5, 9]])?;
    bucket_path(&rt, alloc, &mut world)?;
    let two = 1 << 32;
    for (pass, act) in [
        (1, Act::Cell(0, 0, 3)),
        (1, Act::Cell(0, 1, 7)),
        (1, Act::Cell(0, 2, 0)),
        (1, Act::Cell(0, 3, two)),
        (1, Act::Cell(0, 4, 7)),
        (1, Act::Cell(0, 5, 7 + two * 7)),
        (1, Act::Head(0, 14, 0, 0)),
        (1, Act::Done(0)),
        (2, Act::Cell(1, 0, 5)),
        (2, Act::Cell(1, 1, 9)),
        (2, Act::Cell(1, 2, 17)),
        (2, Act::Cell(1, 3, two)),
        (2, Act::Cell(1, 4, 9)),
        (2, Act::Cell(1, 5, 9 + two * 9)),
        (2, Act::Head(0, 14, 0, 1)),
        (2, Act::Done(1)),
        (1, Act::Ticket(row_of(alloc, 2, [4, 1])?)),
        (1, Act::Cell(2, 0, 4)),
        (1, Act::Cell(2, 1, 1)),
        (1, Act::Cell(2, 2, 32)),
    ] {
        says(&rt, alloc, &mut world, pass, act, true)?;
    }
    for (act, answer) in [
        (Act::Cell(2, 3, 1 + two * 3), false),
        (Act::Cell(2, 3, two * 2), false),
        (Act::Cell(2, 3, 1 + two * 2), true),
        (Act::Cell(2, 4, 1), false),
        (Act::Cell(2, 4, 8), true),
        (Act::Cell(2, 5, 1 + two * 9), false),
        (Act::Cell(2, 5, 1 + two * 7), true),
        (Act::Head(0, 14, 0, 2), true),
        (Act::Done(2), true),
    ] {
        says(&rt, alloc, &mut world, 1, act, answer)?;
    }
    for (place, wanted) in [(19, 1 + two * 2), (20, 8), (21, 1 + two * 7), (22, 1)] {
        assert_eq!(rt;
            world.words().get(place).copied(),
            Some(wanted),
            "word {place}"
        );
    }
    Ok(())
}

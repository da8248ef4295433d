ghost use Rattle.std.specs.Prelude.{◌≡◌, ◌<◌};

use cf_row::{Attr, Kind, Memory, Name, Schema};
use cf_shape::Shape;
use cf_table::{MultiLog, Pass, Steps};
use std::alloc::Global;
use std::marker::Brand;
use std::process::Abort;
use std::sync::ledger::{Blank, Ledger};
use std::test::*;

// a shape over the schema `ts:u64`, without lanes
pub(crate) fn shape(
    rt: &impl Abort,
    alloc: Global,
    capacity: u32,
    writers: u8,
) -> Result<Shape, Memory> {
    let mut attrs = Vec::new(alloc);
    attrs.push(Attr {
        name: Name::new(alloc, "ts")?,
        kind: Kind::U64,
    })?;
    let schema = Schema::new(attrs).expect(rt, "a schema");
    let shape = Shape::new(schema, Vec::new(alloc), capacity, writers, 2, 10).expect(rt, "a shape");
    Ok(shape)
}

// nothing was appended: two readers meet, the books of two writers are dealt and come home, and no entry is left
fn homes<L: Ledger, R: Abort>(rt: &R, alloc: Global, blank: Blank) -> Result<(), Fail>
    requires { (blank.name ≡ L.name) × (blank.parts ≡ L.parts) × (0 < L.parts) }
{
    let mut steps = Steps::<L>::new(blank);
    let shape = shape(rt, alloc, 4, 2)?;
    let (log, mut root) = MultiLog::open(alloc, shape)?;
    let mut first = log.fork(&mut root);
    let mut second = log.fork(&mut root);
    assert_eq!(rt; log.load_tail(&mut first, true, &mut steps), 0);
    log.meet(&mut first, &mut second);
    let passes = log.deal(alloc, &mut root)?;
    assert_eq!(rt; passes.len(), 2);
    log.gather(&mut root, passes);
    log.fold_back(&mut root, first);
    assert_eq!(rt; root.covered(), 0);
    Ok(())
}

#[test]
fn nothing_appended(rt: HostRuntime) -> Result<(), Fail> {
    homes::<Brand, _>(&rt, rt.alloc(), Blank::new(1))
}

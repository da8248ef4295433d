// A log is opened with a pass for each writer, and the passes come home.
ghost use Rattle.std.specs.Prelude.{◌≡◌, ◌≤◌, [], IfOk};
ghost use Rattle.cf_setup.specs.Setups.{shaped};
ghost use Rattle.cf_table.specs.Values.{IsOf};
ghost use Rattle.cf_log.specs.Writers.{AreWriters, HasJoined, IsOpened};

use cf_row::Memory;
use cf_setup::{Setup, shape_of};
use cf_table::{MultiLog, Root, WriterPass};
use std::alloc::Global;

/// A log that was opened, its root, and a pass for each writer, in the order of their numbers.
#[derive(Drop)]
pub struct Opened {
    pub log: MultiLog,
    pub root: Root,
    pub writers: Vec<WriterPass>,
}

/// An empty log of the setup for so many records and writers, in which each writer has so many nodes.
pub fn open(
    alloc: Global,
    setup: &Setup,
    capacity: u32,
    writers: u8,
    nodes: u32,
) -> Result<Opened, Memory>
    requires capacity { (1 ≤ capacity) × (capacity ≤ 65536) }
    requires writers { (1 ≤ writers) × (writers ≤ 15) }
    requires nodes { nodes ≤ 65536 }
    ensures { IfOk result (IsOpened (shaped setup.now capacity writers nodes)) }
{
    let shape = shape_of(alloc, setup, capacity, writers, nodes)?;
    let (log, mut root) = MultiLog::open(alloc, shape)?;
    let writers = log.deal(alloc, &mut root)?;
    Ok(Opened { log, root, writers })
}

/// The writers' passes come home, in the order of the writers. The root has then seen the whole log, which has all rows of each
/// writer, in order, and no others.
pub fn join_writers(log: &MultiLog, root: &mut Root, writers: Vec<WriterPass>)
    requires of { IsOf root.old log.now }
    requires away { root.old.view.books ≡ [] }
    requires writers { AreWriters log.now writers.items }
    ensures { HasJoined log.now root.old writers.items root.new }
{
    log.gather(root, writers);
}

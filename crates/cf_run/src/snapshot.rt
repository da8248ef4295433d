// The answers of several hosts at a cut. Each host covers its rows in a log of its own, and is asked while it is frozen.
ghost use Rattle.std.specs.Prelude.{
  ◌≡◌,
  ◌<◌,
  ◌≤◌,
  ◌++◌,
  All,
  Any,
  false,
  length,
  map,
  sum,
  IfErr,
  IfOk,
  IsTrue,
  OnOk,
  string_bytes,
};
ghost use Rattle.std.specs.List.{flat_map, range_with_len};
ghost use Rattle.cf_command.specs.Call.{AreSizes, IsSnapshotInRange, snapshot_by};
ghost use Rattle.cf_fill.specs.Work.{shape_for};
ghost use Rattle.cf_intake.specs.Parts.{rows_each};
ghost use Rattle.cf_report.specs.Tags.{bare_entry};
ghost use Rattle.cf_row.specs.Row.{Fits};
ghost use Rattle.cf_setup.specs.Setups.{IsSetup};
ghost use Rattle.cf_shape.specs.Nodes.{distinct};
ghost use Rattle.cf_snapshot.specs.Courses.{idle_course};
ghost use Rattle.cf_snapshot.specs.declared.course.Untaken.TheVariants as untaken;
ghost use Rattle.cf_run.specs.Due.{LogHasRoom, IsSnapshotOf};
ghost use Rattle.cf_run.specs.Hosts.{AreTold, host_lines_at, rows_covered};
ghost use Rattle.cf_run.specs.Parts.{ends_each};

use cf_command::{LogSizes, SnapshotCommand};
use cf_follow::push_truncated;
use cf_intake::Captured;
use cf_report::{Tags, push_cut, push_host_by_tags};
use cf_row::{Memory, Row};
use cf_setup::{Setup, shape_of};
use cf_snapshot::{Course, Pace, Snapshot, Untaken, take_snapshot};
use std::alloc::Global;

/// Whether some host has more rows than that.
pub(crate) fn is_some_full(hosts: &[Captured], capacity: u32) -> bool
    ensures some { IsTrue result → Any (λ rows. capacity < length rows) (rows_each hosts.now) }
    ensures none { result ≡ false → All (λ rows. length rows ≤ capacity) (rows_each hosts.now) }
{
    for host in hosts {
        if host.rows.len() > capacity as usize {
            return true;
        }
    }
    false
}

// What the log of each host is made by.
#[derive(Clone, Copy)]
struct HostLog<'a> {
    setup: &'a Setup,
    sizes: LogSizes,
}

// The hosts of a snapshot.
#[derive(Drop)]
struct Hosts {
    courses: Vec<Course>,
    // within which record the capture of each ends, if it does
    ends: Vec<Option<u64>>,
}

// Each host with its rows, none of which its log has covered.
fn open_hosts(alloc: Global, log: &HostLog, captures: Vec<Captured>) -> Result<Hosts, Memory>
    requires fit { All (All (Fits log.now.setup.now.schema)) (rows_each captures.items) }
    requires few { All (λ rows. length rows ≤ log.now.sizes.capacity) (rows_each captures.items) }
    requires sizes { AreSizes log.now.sizes }
    requires one { log.now.sizes.writers ≡ 1 }
    ensures courses { IfOk result (λ hosts. hosts.courses.items ≡ map (idle_course (shape_for log.now.setup.now log.now.sizes)) (rows_each captures.items)) }
    ensures ends { IfOk result (λ hosts. hosts.ends.items ≡ ends_each captures.items) }
{
    let HostLog { setup, sizes } = *log;
    let mut courses = Vec::with_capacity(alloc, captures.len())?;
    let mut ends = Vec::with_capacity(alloc, captures.len())?;
    for captured in captures {
        let Captured { rows, cut } = captured;
        let shape = shape_of(alloc, setup, sizes.capacity, sizes.writers, sizes.nodes)?;
        courses.push(Course::open(alloc, shape, rows)?)?;
        ends.push(cut)?;
    }
    Ok(Hosts { courses, ends })
}

// How many rows are in a cut.
fn count_in_cut(cut: &[u32]) -> u32
    requires few { All (λ count. count ≤ 65536) cut.now }
    requires hosts { length cut.now ≤ 16 }
    ensures { result ≡ sum cut.now }
{
    let mut total = 0;
    for count in cut {
        total += count;
    }
    total
}

// The numbers of the rows of a log, whose writer is the first.
fn tags_of(alloc: Global, rows: &[Row]) -> Result<Tags, Memory>
    ensures { IfOk result (λ tags. tags ≡ map (λ row. bare_entry row.num 0) rows.now) }
{
    let mut nums = Vec::with_capacity(alloc, rows.len())?;
    let mut writers = Vec::with_capacity(alloc, rows.len())?;
    for row in rows {
        nums.push(row.num())?;
        writers.push(0)?;
    }
    Ok(Tags::new(nums, writers))
}

// Writes the part of each host, with its answers on those of its rows that are in the cut, and the line of its capture where this is
// truncated.
fn push_hosts(
    alloc: Global,
    text: &mut String,
    log: &HostLog,
    hosts: &Hosts,
    taken: &Snapshot,
) -> Result<(), Memory>
    requires told { AreTold (shape_for log.now.setup.now log.now.sizes) log.now.setup.now.asks (rows_covered hosts.now.courses.items) taken.now }
    requires size { length hosts.now.ends.items ≡ length hosts.now.courses.items }
    ensures { OnOk result (string_bytes text.new ≡ string_bytes text.old
        ++ flat_map (host_lines_at (shape_for log.now.setup.now log.now.sizes) log.now.setup.now taken.now.cut.items (rows_covered hosts.now.courses.items)
        hosts.now.ends.items) (range_with_len 0 (length hosts.now.courses.items))) }
{
    for host in 0..hosts.courses.len() {
        let rows = hosts.courses[host].rows();
        let tags = tags_of(alloc, &rows[..taken.cut[host] as usize])?;
        push_host_by_tags(alloc, text, log.setup, host, &tags, &taken.answers[host])?;
        push_truncated(text, hosts.ends[host])?;
    }
    Ok(())
}

/// The answers of hosts that have these rows, at the cut of a snapshot that is taken of them as the command says.
pub(crate) fn snapshot_text(
    alloc: Global,
    command: &SnapshotCommand,
    setup: &Setup,
    captures: Vec<Captured>,
) -> Result<Vec<u8>, Untaken>
    requires lawful { IsSetup setup.now }
    requires fit { All (All (Fits setup.now.schema)) (rows_each captures.items) }
    requires few { All (λ rows. length rows ≤ command.now.sizes.capacity) (rows_each captures.items) }
    requires command { IsSnapshotInRange command.now }
    requires size { length captures.items ≡ length command.now.captures.items }
    ensures text { IfOk result (λ text. IsSnapshotOf (snapshot_by command.now) setup.now (rows_each captures.items) (ends_each captures.items) text.items) }
    ensures room { OnOk result (All (LogHasRoom command.now.sizes setup.now) (rows_each captures.items)) }
    ensures nodes { IfErr result (λ why. why ≡ untaken.Nodes
        → Any (λ rows. command.now.sizes.nodes < distinct (shape_for setup.now command.now.sizes) rows) (rows_each captures.items)) }
{
    let log = HostLog {
        setup,
        sizes: command.sizes,
    };
    let mut hosts = open_hosts(alloc, &log, captures)?;
    let pace = Pace {
        turns: command.turns,
        turn: command.turn,
    };
    let taken = take_snapshot(alloc, &mut hosts.courses, setup.asks(), pace)?;
    let mut text = String::new(alloc);
    push_cut(&mut text, count_in_cut(&taken.cut))?;
    push_hosts(alloc, &mut text, &log, &hosts, &taken)?;
    Ok(text.into_bytes())
}

// A snapshot over hosts that cover their rows.
ghost use Rattle.std.specs.Prelude.{
  ◌≡◌,
  ◌+◌,
  ◌-◌,
  ◌<◌,
  ◌≤◌,
  ℕ,
  Any,
  false,
  true,
  fold,
  length,
  map,
  replicate,
  IfErr,
  IfOk,
  OnOk,
};
ghost use Rattle.std.specs.List.{flat_map, range_with_len};
ghost use Rattle.cf_snapshot.specs.Courses.{
  AreAnswered,
  AreDone,
  AreFew,
  AreIdle,
  AreIn,
  AreSuited,
  NeedsMore,
  counts_of,
  freezing_state,
  going_state,
  passing_state,
  tasks_of,
};
ghost use Rattle.cf_snapshot.specs.Laws.{AllFrozen, HasCut};
ghost use Rattle.cf_snapshot.specs.Plans.{events_of, cut_by, rows_at};
ghost use Rattle.cf_snapshot.specs.Snapshots.{after, at_start, is_frozen, is_under_way, tail_of};
ghost use Rattle.cf_snapshot.specs.declared.event.SnapEvent.TheVariants.{Cover, Reply, Thaw};
ghost use Rattle.cf_snapshot.specs.declared.course.Untaken.TheVariants as untaken;

use crate::course::step;
use crate::{Course, Snap, SnapEvent, Untaken};
use cf_plain::{Answer, Ask};
use std::alloc::Global;

/// How hosts take turns.
#[derive(Clone, Copy, Debug)]
pub struct Pace {
    /// How many turns go round the hosts before they are frozen.
    pub turns: u32,
    /// How many rows a host covers in a turn.
    pub turn: u32,
}

/// A cut of several hosts, and what each answers at it.
#[derive(Drop)]
pub struct Snapshot {
    /// How many rows each host had covered when it was frozen.
    pub cut: Vec<u32>,
    /// Of each host the answers to the questions on these rows, in the questions' order.
    pub answers: Vec<Vec<Answer>>,
}

// The turns before the freezing, which go round the hosts. No host has rows left after 65,536 of its own.
fn take_turns(snap: &mut Snap, courses: &mut [Course], pace: Pace) -> Result<(), Untaken>
    requires few { AreFew (counts_of (tasks_of courses.old)) }
    requires turn { (1 ≤ pace.turn) × (pace.turn ≤ 4096) }
    requires hosts { AreIn snap.old courses.old }
    requires state { snap.old ≡ at_start (length (counts_of (tasks_of courses.old))) }
    ensures tasks { OnOk result (tasks_of courses.new ≡ tasks_of courses.old) }
    ensures hosts { OnOk result (AreIn snap.new courses.new) }
    ensures state { OnOk result (snap.new ≡ going_state pace (counts_of (tasks_of courses.old))) }
    ensures nodes { IfErr result (λ why. why ≡ untaken.Nodes → Any NeedsMore (tasks_of courses.old)) }
{
    let hosts = courses.len();
    for taken in 0..(pace.turns as usize).min(hosts * 65_536) {
        let host = taken % hosts;
        courses[host].take_turn(snap, host as u8, pace.turn)?;
    }
    Ok(())
}

// A turn of each host above that one.
fn turns_above(
    snap: &mut Snap,
    courses: &mut [Course],
    host: usize,
    pace: Pace,
) -> Result<(), Untaken>
    requires few { AreFew (counts_of (tasks_of courses.old)) }
    requires turn { pace.turn ≤ 4096 }
    requires host { host < length courses.old }
    requires hosts { AreIn snap.old courses.old }
    requires state { snap.old ≡ passing_state pace (counts_of (tasks_of courses.old)) host (host + 1) }
    ensures tasks { OnOk result (tasks_of courses.new ≡ tasks_of courses.old) }
    ensures hosts { OnOk result (AreIn snap.new courses.new) }
    ensures state { OnOk result (snap.new ≡ passing_state pace (counts_of (tasks_of courses.old)) host (length courses.old)) }
    ensures nodes { IfErr result (λ why. why ≡ untaken.Nodes → Any NeedsMore (tasks_of courses.old)) }
{
    for above in host + 1..courses.len() {
        courses[above].take_turn(snap, above as u8, pace.turn)?;
    }
    Ok(())
}

// Freezes one host after another. Each is asked while it is frozen, and then each host above it takes a turn.
fn freeze_each(
    alloc: Global,
    snap: &mut Snap,
    courses: &mut [Course],
    asks: &[Ask],
    pace: Pace,
) -> Result<Vec<Vec<Answer>>, Untaken>
    requires few { AreFew (counts_of (tasks_of courses.old)) }
    requires turn { pace.turn ≤ 4096 }
    requires hosts { AreIn snap.old courses.old }
    requires suits { AreSuited asks.now (tasks_of courses.old) }
    requires state { snap.old ≡ freezing_state pace (counts_of (tasks_of courses.old)) 0 }
    ensures tasks { OnOk result (tasks_of courses.new ≡ tasks_of courses.old) }
    ensures hosts { OnOk result (AreIn snap.new courses.new) }
    ensures state { OnOk result (snap.new ≡ freezing_state pace (counts_of (tasks_of courses.old)) (length courses.old)) }
    ensures answers { IfOk result (λ answers. AreAnswered pace asks.now (tasks_of courses.old) (length courses.old) answers.items) }
    ensures nodes { IfErr result (λ why. why ≡ untaken.Nodes → Any NeedsMore (tasks_of courses.old)) }
{
    let mut answers = Vec::new(alloc);
    for host in 0..courses.len() {
        courses[host].freeze(snap, host as u8);
        let given = courses[host].ask_each(alloc, asks)?;
        answers.push(given)?;
        turns_above(snap, courses, host, pace)?;
    }
    Ok(answers)
}

// Each host replies its tail.
fn reply_each(snap: &mut Snap, hosts: u8)
    requires hosts { hosts ≡ length snap.old.tails }
    requires time { is_under_way snap.old ≡ true }
    requires frozen { AllFrozen snap.old }
    ensures tails { snap.new.tails ≡ snap.old.tails }
    ensures marks { snap.new.frozen ≡ snap.old.frozen }
    ensures state { snap.new ≡ fold after snap.old (map Reply (range_with_len 0 hosts)) }
{
    for host in 0..hosts {
        step(snap, SnapEvent::Reply(host));
    }
}

// Each host is free again.
fn thaw_each(snap: &mut Snap, courses: &mut [Course])
    requires few { length courses.old ≤ 16 }
    requires hosts { AreIn snap.old courses.old }
    requires time { snap.old.is_released ≡ true }
    requires frozen { AllFrozen snap.old }
    ensures tasks { tasks_of courses.new ≡ tasks_of courses.old }
    ensures hosts { AreIn snap.new courses.new }
    ensures free { (host : ℕ) → is_frozen snap.new host ≡ false }
    ensures tails { snap.new.tails ≡ snap.old.tails }
    ensures state { snap.new ≡ fold after snap.old (map Thaw (range_with_len 0 (length courses.old))) }
{
    for host in 0..courses.len() {
        courses[host].thaw(snap, host as u8);
    }
}

// Each host covers all rows that it has left.
fn cover_left(snap: &mut Snap, courses: &mut [Course]) -> Result<(), Untaken>
    requires few { AreFew (counts_of (tasks_of courses.old)) }
    requires hosts { AreIn snap.old courses.old }
    requires free { (host : ℕ) → is_frozen snap.old host ≡ false }
    requires within { (host : ℕ) → host < length courses.old → tail_of snap.old host ≤ rows_at (counts_of (tasks_of courses.old)) host }
    ensures done { OnOk result (AreDone (tasks_of courses.old) courses.new) }
    ensures state { OnOk result (snap.new ≡ fold after snap.old (flat_map (λ host. replicate (rows_at (counts_of (tasks_of courses.old)) host - tail_of snap.old host) (Cover host)) (range_with_len 0 (length courses.old)))) }
    ensures nodes { IfErr result (λ why. why ≡ untaken.Nodes → Any NeedsMore (tasks_of courses.old)) }
{
    for host in 0..courses.len() {
        courses[host].cover_rest(snap, host as u8)?;
    }
    Ok(())
}

/// Takes a snapshot of hosts that cover all their rows. So many turns go round them. Then one host after another is frozen and
/// asked, and each host above it takes a turn. When all are frozen, each replies its tail, all are released, and they cover the rows
/// that they have left. `Untaken::Nodes` comes where a host's rows need more nodes than it has.
pub fn take_snapshot(
    alloc: Global,
    courses: &mut [Course],
    asks: &[Ask],
    pace: Pace,
) -> Result<Snapshot, Untaken>
    requires few { AreFew (counts_of (tasks_of courses.old)) }
    requires turn { (1 ≤ pace.turn) × (pace.turn ≤ 4096) }
    requires idle { AreIdle courses.old }
    requires suits { AreSuited asks.now (tasks_of courses.old) }
    ensures cut { IfOk result (λ taken. HasCut (length courses.old) (events_of pace.turn (counts_of (tasks_of courses.old)) pace.turns) taken.cut.items) }
    ensures value { IfOk result (λ taken. taken.cut.items ≡ cut_by pace.turn (counts_of (tasks_of courses.old)) pace.turns) }
    ensures answers { IfOk result (λ taken. AreAnswered pace asks.now (tasks_of courses.old) (length courses.old) taken.answers.items) }
    ensures done { OnOk result (AreDone (tasks_of courses.old) courses.new) }
    ensures nodes { IfErr result (λ why. why ≡ untaken.Nodes → Any NeedsMore (tasks_of courses.old)) }
{
    let hosts = courses.len() as u8;
    let mut snap = Snap::new(alloc, hosts)?;
    take_turns(&mut snap, courses, pace)?;
    step(&mut snap, SnapEvent::Begin);
    let answers = freeze_each(alloc, &mut snap, courses, asks, pace)?;
    reply_each(&mut snap, hosts);
    step(&mut snap, SnapEvent::Release);
    thaw_each(&mut snap, courses);
    cover_left(&mut snap, courses)?;
    match snap.cut() {
        Some(tails) => {
            let cut = Vec::from_slice(alloc, tails)?;
            Ok(Snapshot { cut, answers })
        }
        // It was released.
        None => unreachable!(),
    }
}

// Lists and totals of logs in place: their parts are scanned in threads of their own.
ghost use Rattle.std.specs.Prelude.{◌≡◌, ◌<◌, ◌≤◌, ◌^◌, All, length, map, true, IfOk};
ghost use Rattle.std.specs.List.{flat_map};
ghost use Rattle.cf_plain.specs.Answered.{answer_on};
ghost use Rattle.cf_plain.specs.Asks.{Suits, rows_in};
ghost use Rattle.cf_plain.specs.Segments.{finding_in};
ghost use Rattle.cf_query.specs.Stretches.{goes_over_all as goes_over_all_of};
ghost use Rattle.cf_table.specs.Moves.{IsReading};
ghost use Rattle.cf_query.specs.Walks.{OnlyWalked};
ghost use Rattle.cf_scan.specs.Parts.{HasScanned, IsPart, IsScanned, behind, entries_in};

use crate::parts::{Part, push_parts};
use cf_plain::{Answer, Ask, Finding};
use cf_query::{ask_seen, goes_over_all};
use cf_row::Memory;
use cf_shape::Shape;
use cf_table::{MultiLog, Root, Steps};
use rayon::prelude::*;
use std::alloc::Global;
use std::marker::Brand;
use std::sync::ledger::{Blank, Ledger};
use std::thread::Threads;

// What was found in the parts, joined in their order, and how many entries they have.
fn joined(
    alloc: Global,
    _shape: &Shape,
    ask: &Ask,
    parts: Vec<Part>,
) -> Result<(u32, Finding), Memory>
    requires scanned { All (IsScanned _shape.now ask.now) parts.items }
    requires few { length (flat_map entries_in parts.items) ≤ 2 ^ 20 }
    ensures count { IfOk result (λ found. found.0 ≡ length (flat_map entries_in parts.items)) }
    ensures found { IfOk result (λ found. found.1 ≡ finding_in _shape.now ask.now (rows_in (flat_map entries_in parts.items))) }
{
    let mut count = 0;
    let mut all = Finding::nothing(alloc, ask);
    for part in parts {
        let (size, found) = part.into_found()?;
        all = all.join(alloc, count, found)?;
        count += size;
    }
    Ok((count, all))
}

// Scans each part, in threads of their own where these can be made.
fn scan_each<R: Threads + Sync>(
    rt: &R,
    alloc: Global,
    shape: &Shape,
    logs: &[&MultiLog],
    ask: &Ask,
    parts: &mut [Part],
)
    requires all { goes_over_all_of ask.now ≡ true }
    requires suits { Suits shape.now ask.now }
    requires parts { All (IsPart shape.now (map behind logs.now)) parts.old }
    ensures scanned { All (IsScanned shape.now ask.now) parts.new }
    ensures entries { flat_map entries_in parts.new ≡ flat_map entries_in parts.old }
{
    par_for_each_mut(
        rt,
        parts,
        |_: usize, part: &mut Part|
            requires { (goes_over_all_of ask.now ≡ true) × Suits shape.now ask.now × IsPart shape.now (map behind logs.now) part.old }
            ensures { HasScanned shape.entry.now ask.entry.now part.old part.new }
        {
            part.scan(shape, logs, alloc, ask);
        },
    );
}

/// What a list or a total finds in the entries of all parts, end to end, and how many these are. The parts are scanned in threads
/// of their own where these can be made, each by its pass, and what they find is joined in their order.
pub fn scan_parts<R: Threads + Sync>(
    rt: &R,
    alloc: Global,
    shape: &Shape,
    logs: &[&MultiLog],
    ask: &Ask,
    parts: Vec<Part>,
) -> Result<(u32, Finding), Memory>
    requires all { goes_over_all_of ask.now ≡ true }
    requires suits { Suits shape.now ask.now }
    requires parts { All (IsPart shape.now (map behind logs.now)) parts.items }
    requires few { length (flat_map entries_in parts.items) ≤ 2 ^ 20 }
    ensures count { IfOk result (λ found. found.0 ≡ length (flat_map entries_in parts.items)) }
    ensures found { IfOk result (λ found. found.1 ≡ finding_in shape.now ask.now (rows_in (flat_map entries_in parts.items))) }
{
    let mut parts = parts;
    scan_each(rt, alloc, shape, logs, ask, parts.as_mut_slice());
    joined(alloc, shape, ask, parts)
}

// The answer to a question that walks a lane. Nobody reads how many steps it makes.
fn answer_walked<L: Ledger>(
    log: &MultiLog,
    alloc: Global,
    root: &mut Root,
    ask: &Ask,
    blank: Blank,
) -> Result<Answer, Memory>
    requires reads { IsReading log.now root.old }
    requires suits { Suits log.now.shape ask.now }
    requires blank { (blank.name ≡ L.name) × (blank.parts ≡ L.parts) × (0 < L.parts) }
    ensures answer { IfOk result (λ answer. answer ≡ answer_on log.now.shape root.old.view.seen ask.now) }
    ensures walked { OnlyWalked root.old root.new }
{
    let mut steps = Steps::<L>::new(blank);
    ask_seen(log, alloc, root, ask, &mut steps)
}

/// The question's answer on the entries that a log's root has seen. For a list or a total they are cut into parts, which are scanned
/// in threads of their own where these can be made; for all others the root walks. The read tail is not loaded, and no ask is
/// noted.
pub fn answer_seen<R: Threads + Sync>(
    rt: &R,
    alloc: Global,
    log: &MultiLog,
    root: &mut Root,
    ask: &Ask,
) -> Result<Answer, Memory>
    requires reads { IsReading log.now root.old }
    requires suits { Suits log.now.shape ask.now }
    ensures answer { IfOk result (λ answer. answer ≡ answer_on log.now.shape root.old.view.seen ask.now) }
    ensures walked { OnlyWalked root.old root.new }
{
    if !goes_over_all(ask) {
        return answer_walked::<Brand>(log, alloc, root, ask, Blank::new(1));
    }
    let mut parts = Vec::new(alloc);
    push_parts(log, root, 0, &mut parts)?;
    let (tail, found) = scan_parts(rt, alloc, log.shape(), &[log], ask, parts)?;
    let body = found.body(alloc, ask)?;
    Ok(Answer { tail, body })
}

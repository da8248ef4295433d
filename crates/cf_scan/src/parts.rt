// Parts of logs.
ghost use Rattle.std.specs.Prelude.{◌≡◌, ◌-◌, ◌<◌, ◌≤◌, ◌++◌, All, List, Some, map, slice_get, true, IfOk, OnOk};
ghost use Rattle.std.specs.List.{flat_map};
ghost use Rattle.cf_plain.specs.Asks.{Suits};
ghost use Rattle.cf_query.specs.Stretches.{goes_over_all};
ghost use Rattle.cf_table.specs.Moves.{IsReading};
ghost use Rattle.cf_table.specs.Values.{LogValue};
ghost use Rattle.cf_scan.specs.Parts.{HasScanned, IsPart, behind, entries_in};

use cf_plain::{Ask, Finding};
use cf_query::finding_stretch;
use cf_row::Memory;
use cf_shape::Shape;
use cf_table::{MultiLog, Pass, ReaderPass, Root, Steps};
use std::alloc::{AllocError, Global};
use std::marker::Brand;
use std::sync::ledger::{Blank, Ledger};

// How many entries a part has, but for the last of a log, which may have fewer.
const PART: u32 = 4096;

/// The entries from one offset up to another of a log, and a pass of their own that has seen them.
#[derive(Drop)]
pub struct Part {
    // The place of the log among some logs.
    place: usize,
    from: u32,
    to: u32,
    reader: ReaderPass,
    // What a question found there, once it was asked and if memory did not run out.
    found: Option<Finding>,
}

impl Part {
    // How many entries it has, and what was found there. Nothing is found where memory ran out.
    pub(crate) fn into_found(self) -> Result<(u32, Finding), Memory>
        requires ends { self.from ≤ self.to }
        ensures size { IfOk result (λ found. found.0 ≡ self.to - self.from) }
        ensures found { IfOk result (λ found. self.found ≡ Some found.1) }
    {
        let Part {
            from,
            to,
            found,
            ..
        } = self;
        match found {
            Some(found) => Ok((to - from, found)),
            None => Err(AllocError),
        }
    }

    // Asks a list or a total of the part's entries.
    fn scan_counted<L: Ledger>(
        &mut self,
        shape: &Shape,
        logs: &[&MultiLog],
        alloc: Global,
        ask: &Ask,
        blank: Blank,
    )
        requires all { goes_over_all ask.now ≡ true }
        requires suits { Suits shape.now ask.now }
        requires part { IsPart shape.now (map behind logs.now) self.old }
        requires blank { (blank.name ≡ L.name) × (blank.parts ≡ L.parts) × (0 < L.parts) }
        ensures scanned { HasScanned shape.now ask.now self.old self.new }
    {
        let _shape = shape;
        let mut steps = Steps::<L>::new(blank);
        let log = logs[self.place];
        let ends = (self.from, self.to);
        let found = finding_stretch(log, alloc, &mut self.reader, ask, ends, &mut steps);
        self.found = found.ok();
    }

    // Asks a list or a total of the part's entries. Nobody reads how many steps it makes.
    pub(crate) fn scan(&mut self, shape: &Shape, logs: &[&MultiLog], alloc: Global, ask: &Ask)
        requires all { goes_over_all ask.now ≡ true }
        requires suits { Suits shape.now ask.now }
        requires part { IsPart shape.now (map behind logs.now) self.old }
        ensures scanned { HasScanned shape.now ask.now self.old self.new }
    {
        self.scan_counted::<Brand>(shape, logs, alloc, ask, Blank::new(1));
    }
}

/// Cuts the entries that a log's root has seen into parts of 4,096, of which the last may have fewer, and puts them behind others.
/// Each part has a pass of its own. The log stands at that place among some logs.
pub fn push_parts(
    log: &MultiLog,
    root: &mut Root,
    place: usize,
    parts: &mut Vec<Part>,
) -> Result<(), Memory>
    requires reads { IsReading log.now root.old }
    ensures root { root.new ≡ root.old }
    ensures entries { OnOk result (flat_map entries_in parts.new.items ≡ flat_map entries_in parts.old.items ++ root.old.view.seen) }
    ensures are { (logs : List LogValue) → slice_get logs place ≡ Some log.now → All (IsPart log.now.shape logs) parts.old.items
        → All (IsPart log.now.shape logs) parts.new.items }
{
    let _few = log.shape().capacity();
    let covered = root.covered();
    for chunk in 0..covered.div_ceil(PART) {
        let from = chunk * PART;
        parts.push(Part {
            place,
            from,
            to: covered.min(from + PART),
            reader: log.fork(root),
            found: None,
        })?;
    }
    Ok(())
}

// The lines of crowded buckets and of marks that a round tells.
ghost use Rattle.std.specs.Prelude.{◌≡◌, ◌++◌, ℕ, length, OnOk, string_bytes};
ghost use Rattle.std.specs.List.{flat_map};
ghost use Rattle.cf_setup.specs.Setups.{shaped};
ghost use Rattle.cf_watch.specs.Watched.{watched_count, watched_crowds, watched_crowds_told};
ghost use Rattle.cf_rounds.specs.Lanes.{AreCounted, crowds_all, told_all, told_first};
ghost use Rattle.cf_rounds.specs.Lines.{crowded_line, crowded_lines, fresh_line, fresh_lines, news_lines};

use crate::lanes::tell_at;
use cf_plain::Fired;
use cf_report::{name_at, push_keys};
use cf_row::Memory;
use cf_setup::Setup;
use cf_watch::Watched;
use std::alloc::Global;
use std::fmt::Write;

fn push_fresh(text: &mut String, name: &str, to: u64, mark: Fired) -> Result<(), Memory>
    ensures { OnOk result (string_bytes text.new ≡ string_bytes text.old ++ fresh_line name.now to mark) }
{
    write!(text, "alert {name} ")?;
    push_keys(text, mark.bucket, mark.key)?;
    let value = mark.value;
    write!(text, " {value} @{to}\n")
}

fn push_each_fresh(text: &mut String, name: &str, to: u64, marks: &[Fired]) -> Result<(), Memory>
    ensures { OnOk result (string_bytes text.new ≡ string_bytes text.old ++ flat_map (fresh_line name.now to) marks.now) }
{
    for mark in marks {
        push_fresh(text, name, to, *mark)?;
    }
    Ok(())
}

// Tells the marks that are not told: a line for each of each trigger; so many records had come.
fn push_fresh_lines(
    alloc: Global,
    text: &mut String,
    setup: &Setup,
    to: u64,
    kept: &mut [Watched],
) -> Result<(), Memory>
    requires lanes { length kept.old ≡ length setup.now.lanes }
    ensures lines { OnOk result (string_bytes text.new ≡ string_bytes text.old ++ fresh_lines setup.now to kept.old) }
    ensures told { OnOk result (kept.new ≡ told_first setup.now.triggers kept.old (length setup.now.triggers)) }
    ensures long { length kept.new ≡ length kept.old }
    ensures counted { (count : ℕ) → AreCounted count kept.old → AreCounted count kept.new }
{
    let names = setup.trigger_names();
    let triggers = setup.triggers();
    for place in 0..triggers.len() {
        let fresh = tell_at(alloc, kept, triggers, place)?;
        push_each_fresh(text, name_at(names, place), to, &fresh)?;
    }
    Ok(())
}

fn push_crowded(text: &mut String, name: &str, to: u64, bucket: u64) -> Result<(), Memory>
    ensures { OnOk result (string_bytes text.new ≡ string_bytes text.old ++ crowded_line name.now to bucket) }
{
    write!(text, "crowded {name} {bucket} @{to}\n")
}

fn push_each_crowded(text: &mut String, name: &str, to: u64, buckets: &[u64]) -> Result<(), Memory>
    ensures { OnOk result (string_bytes text.new ≡ string_bytes text.old ++ flat_map (crowded_line name.now to) buckets.now) }
{
    for bucket in buckets {
        push_crowded(text, name, to, *bucket)?;
    }
    Ok(())
}

// Tells the crowded buckets of a lane that were not told.
fn push_crowded_of(
    alloc: Global,
    text: &mut String,
    name: &str,
    to: u64,
    kept: &mut Watched,
) -> Result<(), Memory>
    ensures lines { OnOk result (string_bytes text.new ≡ string_bytes text.old ++ flat_map (crowded_line name.now to) (watched_crowds kept.old)) }
    ensures told { OnOk result (kept.new ≡ watched_crowds_told kept.old) }
    ensures count { watched_count kept.new ≡ watched_count kept.old }
{
    let crowded = kept.tell_crowded(alloc)?;
    push_each_crowded(text, name, to, &crowded)
}

// Tells the crowded buckets that were not told: a line for each of each lane; so many records had come.
fn push_crowded_lines(
    alloc: Global,
    text: &mut String,
    setup: &Setup,
    to: u64,
    kept: &mut [Watched],
) -> Result<(), Memory>
    requires lanes { length kept.old ≡ length setup.now.lanes }
    ensures lines { OnOk result (string_bytes text.new ≡ string_bytes text.old ++ crowded_lines setup.now to kept.old) }
    ensures told { OnOk result (kept.new ≡ crowds_all kept.old) }
    ensures counted { (count : ℕ) → AreCounted count kept.old → AreCounted count kept.new }
{
    let _same = setup.lanes();
    let names = setup.lane_names();
    for lane in 0..kept.len() {
        push_crowded_of(alloc, text, name_at(names, lane), to, &mut kept[lane])?;
    }
    Ok(())
}

/// Tells what was not told: the crowded buckets of each lane, and then the marks of each trigger; so many records had come.
pub(crate) fn push_news(
    alloc: Global,
    text: &mut String,
    setup: &Setup,
    to: u64,
    kept: &mut [Watched],
) -> Result<(), Memory>
    requires lanes { length kept.old ≡ length setup.now.lanes }
    ensures lines { OnOk result (string_bytes text.new ≡ string_bytes text.old ++ news_lines setup.now to kept.old) }
    ensures told { OnOk result (kept.new ≡ told_all setup.now.triggers kept.old) }
    ensures long { length kept.new ≡ length kept.old }
    ensures counted { (count : ℕ) → AreCounted count kept.old → AreCounted count kept.new }
{
    push_crowded_lines(alloc, text, setup, to, kept)?;
    push_fresh_lines(alloc, text, setup, to, kept)
}

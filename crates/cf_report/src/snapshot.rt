// The text of a snapshot over several hosts.
ghost use Rattle.std.specs.Prelude.{◌≡◌, ◌++◌, All, length, OnOk, string_bytes};
ghost use Rattle.cf_plain.specs.Asks.{rows_in};
ghost use Rattle.cf_report.specs.Answered.{IsWithin, tolds_of};
ghost use Rattle.cf_report.specs.Snapshot.{cut_line, host_part};

use crate::Tags;
use crate::lines::push_asks;
use cf_plain::Answer;
use cf_row::{Entry, Memory};
use cf_setup::Setup;
use std::alloc::Global;
use std::fmt::Write;

/// Appends the line of a cut that has so many rows. If memory runs out, the text may end with a part of it: drop the text.
pub fn push_cut(text: &mut String, total: u32) -> Result<(), Memory>
    ensures { OnOk result (string_bytes text.new ≡ string_bytes text.old ++ cut_line total) }
{
    write!(text, "cut {total}\n")
}

/// Appends the part of a host: how many of its rows are in the cut, and its answers on them, by the numbers of these rows. The
/// entries are those of a log of these rows, and there is an answer to each question of the setup, in its order. If memory runs
/// out, the text may end with a part of it: drop the text.
pub fn push_host_by_tags(
    alloc: Global,
    text: &mut String,
    setup: &Setup,
    host: usize,
    entries: &Tags,
    finals: &[Answer],
) -> Result<(), Memory>
    requires answered { length finals.now ≡ length setup.now.asks }
    requires places { All (λ answer. IsWithin (length entries.now) answer.body) finals.now }
    ensures { OnOk result (string_bytes text.new ≡ string_bytes text.old ++ host_part setup.now host (rows_in entries.now) (tolds_of setup.now.asks finals.now)) }
{
    let count = entries.len();
    write!(text, "host {host} @{count}\n")?;
    push_asks(alloc, text, setup, entries, finals)
}

/// As `push_host_by_tags`, over the entries themselves.
pub fn push_host(
    alloc: Global,
    text: &mut String,
    setup: &Setup,
    host: usize,
    entries: &[Entry],
    finals: &[Answer],
) -> Result<(), Memory>
    requires answered { length finals.now ≡ length setup.now.asks }
    requires places { All (λ answer. IsWithin (length entries.now) answer.body) finals.now }
    ensures { OnOk result (string_bytes text.new ≡ string_bytes text.old ++ host_part setup.now host (rows_in entries.now) (tolds_of setup.now.asks finals.now)) }
{
    let tags = Tags::of(alloc, entries)?;
    push_host_by_tags(alloc, text, setup, host, &tags, finals)
}

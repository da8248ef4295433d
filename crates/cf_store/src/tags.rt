// The numbers and the writers of the entries that are seen, by the tag of each alone.
ghost use Rattle.std.specs.Prelude.{◌≡◌, ◌<◌, ◌≤◌, ◌++◌, length, IfOk, OnOk};
ghost use Rattle.cf_plain.specs.Order.{order_of};
ghost use Rattle.cf_query.specs.Tags.{nums_of};
ghost use Rattle.cf_report.specs.Tags.{bare};
ghost use Rattle.cf_table.specs.Moves.{OnlyLooked};
ghost use Rattle.cf_table.specs.Values.{IsOf};
ghost use Rattle.cf_store.specs.Ends.{AllWalked, AreBehind, seen_of, seen_upto};
ghost use Rattle.cf_store.specs.Reports.{HasWalked};

use crate::ends::last_seen;
use crate::held::{Reader, Shared};
use cf_query::push_tags;
use cf_report::Tags;
use cf_row::Memory;
use cf_table::{MultiLog, ReaderPass, Steps};
use std::alloc::Global;
use std::marker::Brand;
use std::sync::ledger::{Blank, Ledger};

// Puts the numbers and the writers of all entries that the pass has seen behind others.
fn push_by<L: Ledger>(
    log: &MultiLog,
    pass: &mut ReaderPass,
    nums: &mut Vec<u32>,
    writers: &mut Vec<u8>,
    blank: Blank,
) -> Result<(), Memory>
    requires of { IsOf pass.old log.now }
    requires blank { (blank.name ≡ L.name) × (blank.parts ≡ L.parts) × (0 < L.parts) }
    ensures nums { OnOk result (nums.new.items ≡ nums.old.items ++ nums_of pass.old.view.seen) }
    ensures writers { OnOk result (writers.new.items ≡ writers.old.items ++ order_of pass.old.view.seen) }
    ensures looked { OnlyLooked pass.old pass.new }
{
    let mut steps = Steps::<L>::new(blank);
    push_tags(log, pass, nums, writers, &mut steps)
}

// The same by steps that are not counted.
fn push_seen(
    log: &MultiLog,
    pass: &mut ReaderPass,
    nums: &mut Vec<u32>,
    writers: &mut Vec<u8>,
) -> Result<(), Memory>
    requires of { IsOf pass.old log.now }
    ensures nums { OnOk result (nums.new.items ≡ nums.old.items ++ nums_of pass.old.view.seen) }
    ensures writers { OnOk result (writers.new.items ≡ writers.old.items ++ order_of pass.old.view.seen) }
    ensures looked { OnlyLooked pass.old pass.new }
{
    push_by::<Brand>(log, pass, nums, writers, Blank::new(1))
}

impl Reader {
    // Puts the numbers and the writers of all entries that the reader has seen behind others.
    fn push_tags(&mut self, nums: &mut Vec<u32>, writers: &mut Vec<u8>) -> Result<(), Memory>
        ensures nums { OnOk result (nums.new.items ≡ nums.old.items ++ nums_of (self.old.pass.view).seen) }
        ensures writers { OnOk result (writers.new.items ≡ writers.old.items ++ order_of (self.old.pass.view).seen) }
        ensures walked { HasWalked self.old self.new }
    {
        push_seen(&self.of.log, &mut self.pass, nums, writers)
    }
}

// The tags of all entries that are seen of the first log and of so many behind it.
fn tags_in(
    shared: &Shared,
    alloc: Global,
    pass: &mut ReaderPass,
    rest: &mut [Reader],
    last: usize,
) -> Result<Tags, Memory>
    requires behind { AreBehind shared.now pass.old rest.old }
    requires last { last ≤ length rest.old }
    ensures tags { IfOk result (λ tags. tags ≡ bare (seen_upto pass.old rest.old last)) }
    ensures walked { AllWalked pass.old pass.new rest.old rest.new }
{
    let mut nums = Vec::new(alloc);
    let mut writers = Vec::new(alloc);
    push_seen(&shared.log, pass, &mut nums, &mut writers)?;
    for k in 0..last {
        rest[k].push_tags(&mut nums, &mut writers)?;
    }
    Ok(Tags::new(nums, writers))
}

/// The tags of all entries that are seen of the log and of those behind it.
pub(crate) fn tags_seen(
    shared: &Shared,
    alloc: Global,
    pass: &mut ReaderPass,
    rest: &mut [Reader],
) -> Result<Tags, Memory>
    requires behind { AreBehind shared.now pass.old rest.old }
    ensures tags { IfOk result (λ tags. tags ≡ bare (seen_of shared.now pass.old rest.old)) }
    ensures walked { AllWalked pass.old pass.new rest.old rest.new }
{
    let last = last_seen(shared.log.shape().capacity(), pass, rest);
    tags_in(shared, alloc, pass, rest, last)
}

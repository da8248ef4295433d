// `ask NAME between FILTER LOW HIGH` and `ask NAME measure AGGREGATE LOW HIGH`.
ghost use Rattle.std.specs.Prelude.{◌≡◌, ◌<◌, All};
ghost use Rattle.cf_setup.specs.Few.{IsFew};
ghost use Rattle.cf_setup.specs.Forms.StatementFormValue.{ask_buckets};
ghost use Rattle.cf_setup.specs.Named.{family_of, asked_of};
ghost use Rattle.cf_setup.specs.Reading.{ruled, Takes};

use crate::ask::Range;
use crate::draft::{Draft, Family};
use crate::fault::LineFault;
use crate::values::number_of;
use cf_plain::Ask;
use std::alloc::Global;

/// What is asked of a lane's buckets between two.
#[derive(Clone, Copy, Debug, PartialEq, Eq)]
pub(crate) enum Buckets {
    /// Which rows of a filter they have.
    Between,
    /// What an aggregate measures in them.
    Measure,
}

impl Buckets {
    fn family(self) -> Family
        ensures { result ≡ family_of self }
    {
        match self {
            Buckets::Between => Family::Filter,
            Buckets::Measure => Family::Unkeyed,
        }
    }

    fn ask(self, lane: u8, low: u64, high: u64) -> Ask
        ensures { result ≡ asked_of self lane low high }
    {
        match self {
            Buckets::Between => Ask::Between(lane, low, high),
            Buckets::Measure => Ask::Measure(lane, low, high),
        }
    }
}

/// A question about a lane's buckets.
#[tactic(auto, unfolding(crate::specs::Reading::ruled))]
pub(crate) fn add_buckets(
    alloc: Global,
    _line: u32,
    draft: Draft,
    name: &[u8],
    what: Buckets,
    over: Range,
) -> Result<Draft, LineFault>
    requires few { IsFew draft }
    requires ascii { All (λ b. b < 128) name.now }
    ensures { Takes result (ruled _line draft (ask_buckets what name.now over.entry.lane.now over.entry.low.now over.entry.high.now)) }
{
    draft.must_be_free(name)?;
    let (place, _) = draft.lane(what.family(), over.lane)?;
    let low = number_of(over.low)?;
    let high = number_of(over.high)?;
    draft.ask_room()?;
    Ok(draft.with_ask(alloc, name, what.ask(place, low, high))?)
}

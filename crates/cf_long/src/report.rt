// A log of any length for a setup, and its report.
ghost use Rattle.std.specs.Prelude.{◌≡◌, ◌≤◌, ◌*◌, ℕ, List, [], IfOk, MatchResult};
ghost use Rattle.cf_row.specs.Row.{RowValue};
ghost use Rattle.cf_setup.specs.Setups.{IsSetup, shaped};
ghost use Rattle.cf_report.specs.Meaning.{final_text as final_text_of};
ghost use Rattle.cf_project.specs.Setups.{KeepsSetup, setup_kept};
ghost use Rattle.cf_fill.specs.Logs.{IsPlanOf, IsUnmade};
ghost use Rattle.cf_fill.specs.Needs.{NeedsAtMost};
ghost use Rattle.cf_long.specs.Kept.{IsLongFor};

use crate::kept::KeptLong;
use crate::long::Long;
use crate::text::final_text;
use cf_fill::{Context, Unmade, plan_of};
use cf_load::LivePlan;
use cf_outside::Gate;
use cf_project::{kept_asks, kept_shape, named_by};
use cf_row::Memory;
use cf_setup::{Setup, shape_of};
use std::alloc::Global;
use std::thread::Threads;

// How many nodes all writers of a segment have together, as long as that is enough.
const FEW_NODES: u32 = 16_384;

// And how many one of them has at most.
const FEW_OF_A_WRITER: u32 = 8_192;

// With how many nodes of a writer a segment is opened.
fn few_nodes(writers: u8, nodes: u32) -> u32
    requires some { 1 ≤ writers }
    ensures { result ≤ nodes }
{
    nodes
        .min(FEW_OF_A_WRITER)
        .min(FEW_NODES / u32::from(writers))
}

// What the setup asks of rows of which the marked attributes are kept, and nothing live.
fn kept_plan(alloc: Global, kept: &[bool], setup: &Setup) -> Result<LivePlan, Memory>
    requires { KeepsSetup kept.now setup.now }
    ensures { IfOk result (λ plan. IsPlanOf (setup_kept kept.now setup.now) 0 plan) }
{
    let mut plan = plan_of(alloc, setup, 0)?;
    plan.asks = kept_asks(alloc, kept, setup.asks())?;
    Ok(plan)
}

/// A log with no row, in segments of so many rows, by that many writers with so many nodes each, of which is asked what the setup asks.
/// Its live questions are not asked. Of each row the log keeps the attributes that the setup names, and `ts`.
pub fn long_of(
    alloc: Global,
    setup: &Setup,
    capacity: u32,
    writers: u8,
    nodes: u32,
) -> Result<KeptLong, Memory>
    requires lawful { IsSetup setup.now }
    requires capacity { (1 ≤ capacity) × (capacity ≤ 65536) }
    requires writers { (1 ≤ writers) × (writers ≤ 15) }
    requires nodes { nodes ≤ 65536 }
    ensures { IfOk result (λ long. IsLongFor setup.now capacity writers nodes long []) }
{
    let kept = named_by(alloc, setup)?;
    let shape = shape_of(alloc, setup, capacity, writers, nodes)?;
    let small = shape_of(alloc, setup, capacity, writers, few_nodes(writers, nodes))?;
    let plan = kept_plan(alloc, &kept, setup)?;
    let small_left = kept_shape(alloc, &kept, &small)?;
    let left = kept_shape(alloc, &kept, &shape)?;
    let long = Long::new(alloc, small_left, &left, plan)?;
    Ok(KeptLong::new(kept, shape, long))
}

/// The final part of the setup's report over all rows that came. There is none if the rows of some segment need more nodes than a writer
/// has in it, or if memory runs out.
pub fn long_report<R: Threads + Sync, G: Gate>(
    context: &Context<'_, R, G>,
    setup: &Setup,
    long: KeptLong,
) -> Result<Vec<u8>, Unmade>
    requires long { (capacity writers nodes : ℕ) × (rows : List RowValue) × IsLongFor setup.now capacity writers nodes long rows }
    ensures { (capacity writers nodes : ℕ) (rows : List RowValue) → IsLongFor setup.now capacity writers nodes long rows
        → MatchResult result
        (λ text. (text.items ≡ final_text_of (shaped setup.now capacity writers nodes) setup.now rows)
        × NeedsAtMost (shaped setup.now capacity writers nodes) (writers * nodes) rows)
        (IsUnmade (shaped setup.now capacity writers nodes) rows) }
{
    let answers = long.finish(context)?;
    Ok(final_text(context.alloc, setup, &answers)?)
}

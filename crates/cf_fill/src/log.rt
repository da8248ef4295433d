// The log of some rows, and what is told of it.
ghost use Rattle.std.specs.Prelude.{◌≡◌, ◌≤◌, ℕ, List, [], IfOk, MatchResult};
ghost use Rattle.cf_row.specs.Row.{RowValue};
ghost use Rattle.cf_setup.specs.Setups.{IsSetup, SetupValue, shaped};
ghost use Rattle.cf_segments.specs.Segments.{room_of};
ghost use Rattle.cf_command.specs.Call.{AreSizes};
ghost use Rattle.cf_command.specs.declared.words.LogSizes.{LogSizes};
ghost use Rattle.cf_fill.specs.Filling.{IsFilledFor, IsFilling, IsFillingFor};
ghost use Rattle.cf_fill.specs.Logs.{NodesSuffice, IsTagged, IsUnmade, halt_of};
ghost use Rattle.cf_fill.specs.Seals.{IsSealedReport, IsSealedFinal, IsSealedIn};
ghost use Rattle.cf_fill.specs.declared.log.Unmade.TheVariants as unmade;

use crate::asked::plan_of;
use crate::context::Context;
use crate::filling::Filling;
use cf_command::LogSizes;
use cf_intake::{Halt, Refusal, Stop};
use cf_load::Sealing;
use cf_outside::Gate;
use cf_plain::Loaded;
use cf_report::{Form, Tags, report_by_tags};
use cf_row::Memory;
use cf_setup::{Setup, shape_of};
use cf_table::Seal;
use std::alloc::{AllocError, Global};
use std::thread::Threads;

/// The product of a command's work: a text, and the seals of its log's segments, if it has a log.
#[derive(Drop)]
pub struct Product {
    /// The bytes to write.
    pub text: Vec<u8>,
    /// A seal for each segment, in their order.
    pub seals: Vec<Seal>,
}

/// Why there is no log of some rows.
#[derive(Clone, Copy, Debug)]
pub enum Unmade {
    /// The paths of those in some segment need more nodes than a writer has in it.
    Nodes,
    /// Memory ran out.
    Memory,
}

impl From<AllocError> for Unmade {
    ghost from_gives = { λ _ why. why ≡ unmade.Memory };

    fn from(_error: AllocError) -> Unmade {
        Unmade::Memory
    }
}

impl Unmade {
    /// Why the work has no result then: a writer's nodes are too few, or memory ran out.
    pub fn halt(self, nodes: u32) -> Halt
        ensures { result ≡ halt_of nodes self }
    {
        match self {
            Unmade::Nodes => Halt::Refused(Refusal::Nodes { nodes }),
            Unmade::Memory => Halt::Stopped(Stop::Memory),
        }
    }
}

/// An empty log of a setup's shape, of which is asked what the setup asks.
pub fn opened(alloc: Global, setup: &Setup, sizes: LogSizes, rounds: u32) -> Result<Filling, Memory>
    requires lawful { IsSetup setup.now }
    requires sizes { AreSizes sizes }
    ensures { IfOk result (λ filling. IsFilledFor setup.now sizes rounds filling []) }
{
    let shape = shape_of(alloc, setup, sizes.capacity, sizes.writers, sizes.nodes)?;
    let plan = plan_of(alloc, setup, rounds)?;
    Filling::new(alloc, shape, sizes.segments, &plan)
}

/// Closes the log of the rows that filled it: the numbers and writers of its entries, a seal of each segment, and the answers to
/// all that its setup asks.
pub fn closed_log<R: Threads + Sync, G: Gate>(
    context: &Context<'_, R, G>,
    filling: Filling,
) -> Result<(Tags, Vec<Seal>, Loaded), Unmade>
    requires filled { IsFilling filling }
    requires few { filling.count ≤ room_of filling.segments }
    ensures { (setup : SetupValue) (sizes : LogSizes) (rounds : ℕ) (rows : List RowValue) → IsFilledFor setup sizes rounds filling rows
        → MatchResult result (λ made. IsTagged setup sizes.capacity sizes.writers sizes.nodes rounds rows made.0 made.1.items made.2)
        (IsUnmade (shaped setup sizes.capacity sizes.writers sizes.nodes) rows) }
{
    let (sealing, answers) = filling.finish(context)?;
    let Sealing {
        nums,
        writers,
        seals,
    } = sealing;
    Ok((Tags::new(nums, writers), seals, answers))
}

// The report of a setup in that form, over the rows that filled a log.
fn report_in<R: Threads + Sync, G: Gate>(
    context: &Context<'_, R, G>,
    setup: &Setup,
    filling: Filling,
    form: Form,
) -> Result<Product, Unmade>
    requires lawful { IsSetup setup.now }
    requires filled { IsFillingFor setup.now filling }
    requires few { filling.count ≤ room_of filling.segments }
    ensures { (sizes : LogSizes) (rounds : ℕ) (rows : List RowValue) → AreSizes sizes → IsFilledFor setup.now sizes rounds filling rows
        → MatchResult result
        (λ made. IsSealedIn form setup.now sizes.capacity sizes.writers sizes.nodes rounds rows made.text.items made.seals.items × NodesSuffice setup.now sizes rows)
        (IsUnmade (shaped setup.now sizes.capacity sizes.writers sizes.nodes) rows) }
{
    let (tags, seals, answers) = closed_log(context, filling)?;
    let text = report_by_tags(context.alloc, setup, &tags, &answers, form)?;
    Ok(Product { text, seals })
}

/// The report of a setup over the rows that filled a log, with the live answers and the order of the writers.
pub fn report_of<R: Threads + Sync, G: Gate>(
    context: &Context<'_, R, G>,
    setup: &Setup,
    filling: Filling,
) -> Result<Product, Unmade>
    requires lawful { IsSetup setup.now }
    requires filled { IsFillingFor setup.now filling }
    requires few { filling.count ≤ room_of filling.segments }
    ensures { (sizes : LogSizes) (rounds : ℕ) (rows : List RowValue) → AreSizes sizes → IsFilledFor setup.now sizes rounds filling rows
        → MatchResult result
        (λ made. IsSealedReport setup.now sizes.capacity sizes.writers sizes.nodes rounds rows made.text.items made.seals.items × NodesSuffice setup.now sizes rows)
        (IsUnmade (shaped setup.now sizes.capacity sizes.writers sizes.nodes) rows) }
{
    report_in(context, setup, filling, Form::Whole)
}

/// The final part of the report of a setup over the rows that filled a log to which no live question was asked.
pub fn final_of<R: Threads + Sync, G: Gate>(
    context: &Context<'_, R, G>,
    setup: &Setup,
    filling: Filling,
) -> Result<Product, Unmade>
    requires lawful { IsSetup setup.now }
    requires filled { IsFillingFor setup.now filling }
    requires few { filling.count ≤ room_of filling.segments }
    ensures { (sizes : LogSizes) (rows : List RowValue) → AreSizes sizes → IsFilledFor setup.now sizes 0 filling rows
        → MatchResult result
        (λ made. IsSealedFinal setup.now sizes.capacity sizes.writers sizes.nodes rows made.text.items made.seals.items × NodesSuffice setup.now sizes rows)
        (IsUnmade (shaped setup.now sizes.capacity sizes.writers sizes.nodes) rows) }
{
    report_in(context, setup, filling, Form::Final)
}

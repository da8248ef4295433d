// What a setup asks of its log.
ghost use Rattle.std.specs.Prelude.{IfOk};
ghost use Rattle.cf_fill.specs.Logs.{IsPlanOf};

use cf_load::LivePlan;
use cf_plain::copy_asks;
use cf_row::Memory;
use cf_setup::Setup;
use std::alloc::Global;

/// What a setup asks of its log, the live questions in so many rounds beside each batch.
pub fn plan_of(alloc: Global, setup: &Setup, rounds: u32) -> Result<LivePlan, Memory>
    ensures { IfOk result (IsPlanOf setup.now rounds) }
{
    Ok(LivePlan {
        asks: copy_asks(alloc, setup.asks())?,
        triggers: setup.triggers().to_vec(alloc)?,
        lives: setup.lives().to_vec(alloc)?,
        rounds,
    })
}

// What is left of a setup.
ghost use Rattle.std.specs.Prelude.{◌≡◌, IfOk};
ghost use Rattle.cf_project.specs.Setups.{KeepsSetup, KeptSetupsAreSetups, SetupsKeepNamed, named_by as named_by_of, setup_kept};

use crate::keep::{kept_asks, kept_attrs, kept_lanes};
use crate::names::named_attributes;
use cf_row::{Memory, Schema};
use cf_setup::{Setup, shape_of};
use std::alloc::Global;

/// For each attribute of the setup's schema, whether it is `ts`, or a lane or a question of the setup names it.
pub fn named_by(alloc: Global, setup: &Setup) -> Result<Vec<bool>, Memory>
    ensures named { IfOk result (λ kept. kept.items ≡ named_by_of setup.now) }
    ensures keeps { IfOk result (λ kept. KeepsSetup kept.items setup.now) }
{
    let shape = shape_of(alloc, setup, 1, 1, 0)?;
    named_attributes(alloc, &shape, setup.asks())
}

/// What is left of a setup. All that its lanes and questions name is kept, and `ts`.
pub fn kept_setup(alloc: Global, kept: &[bool], setup: Setup) -> Result<Setup, Memory>
    requires { KeepsSetup kept.now setup }
    ensures { IfOk result (λ left. left ≡ setup_kept kept.now setup) }
{
    let lanes = kept_lanes(alloc, kept, setup.lanes())?;
    let asks = kept_asks(alloc, kept, setup.asks())?;
    let schema = Schema::built_in(kept_attrs(alloc, kept, setup.schema().attrs())?);
    Ok(setup.over(schema, lanes, asks))
}

/// What is left of a setup is one, and the attributes that a setup names are all that it needs.
pub fn kept_setups_are_setups()
    ensures setups { KeptSetupsAreSetups }
    ensures named { SetupsKeepNamed }
{}

// The marks of triggers in the final part.
ghost use Rattle.std.specs.Prelude.{◌≡◌, true, length, map, IfOk};
ghost use Rattle.cf_rounds.specs.Lanes.{marks_by};

use crate::lanes::marks_of;
use cf_plain::Marks;
use cf_row::Memory;
use cf_setup::Setup;
use cf_watch::Watched;
use std::alloc::Global;

/// The marks of each trigger on all that is kept.
pub(crate) fn marks_of_all(
    alloc: Global,
    setup: &Setup,
    kept: &[Watched],
) -> Result<Vec<Marks>, Memory>
    requires lanes { length kept.now ≡ length setup.now.lanes }
    ensures marks { IfOk result (λ alerts. alerts.items ≡ map (marks_by kept.now true) setup.now.triggers) }
{
    let triggers = setup.triggers();
    let mut alerts = Vec::new(alloc);
    for trigger in triggers {
        alerts.push(marks_of(alloc, kept, trigger, true)?)?;
    }
    Ok(alerts)
}

// The report of what is seen of a log and of those behind it.
ghost use Rattle.std.specs.Prelude.{◌≡◌, IfOk};
ghost use Rattle.cf_setup.specs.Setups.{IsSetup};
ghost use Rattle.cf_store.specs.Ends.{AllWalked, AreBehind, seen_of};
ghost use Rattle.cf_store.specs.Seen.{answered_on, seen_text};

use crate::answers::{alerts_seen, answers_seen};
use crate::held::{Reader, Shared};
use crate::tags::tags_seen;
use cf_plain::Loaded;
use cf_report::{Form, report_by_tags};
use cf_row::Memory;
use cf_table::ReaderPass;
use std::alloc::Global;

// The answers to all that the setup asks.
fn loaded_seen(
    shared: &Shared,
    alloc: Global,
    pass: &mut ReaderPass,
    rest: &mut [Reader],
) -> Result<Loaded, Memory>
    requires behind { AreBehind shared.now pass.old rest.old }
    ensures loaded { IfOk result (λ loaded. loaded ≡ answered_on shared.now.log.shape shared.now.setup (seen_of shared.now pass.old rest.old)) }
    ensures lawful { IsSetup shared.now.setup }
    ensures walked { AllWalked pass.old pass.new rest.old rest.new }
{
    let finals = answers_seen(shared, alloc, pass, rest, shared.setup.asks())?;
    let alerts = alerts_seen(shared, alloc, pass, rest, shared.setup.triggers())?;
    Ok(Loaded::new(finals, alerts, Vec::new(alloc)))
}

/// The text of the report of the entries that are seen: how many they are, what each question and trigger of the setup means on them, and
/// the order in which their writers wrote them. The read tails are not loaded.
pub(crate) fn report_seen(
    shared: &Shared,
    alloc: Global,
    pass: &mut ReaderPass,
    rest: &mut [Reader],
) -> Result<Vec<u8>, Memory>
    requires behind { AreBehind shared.now pass.old rest.old }
    ensures text { IfOk result (λ text. text.items ≡ seen_text shared.now.log.shape shared.now.setup (seen_of shared.now pass.old rest.old)) }
    ensures walked { AllWalked pass.old pass.new rest.old rest.new }
{
    let loaded = loaded_seen(shared, alloc, pass, rest)?;
    let tags = tags_seen(shared, alloc, pass, rest)?;
    report_by_tags(alloc, &shared.setup, &tags, &loaded, Form::Whole)
}

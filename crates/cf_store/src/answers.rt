// The answers on what is seen of a log and of those behind it.
ghost use Rattle.std.specs.Prelude.{◌≡◌, All, map, IfOk};
ghost use Rattle.cf_plain.specs.Asks.{Suits, SuitsTrigger, marks_over, rows_in};
ghost use Rattle.cf_plain.specs.Answered.{answer_on};
ghost use Rattle.cf_store.specs.Ends.{AllWalked, AreBehind, seen_of};

use crate::held::{Reader, Shared};
use crate::told::answer_in;
use cf_fold::Trigger;
use cf_plain::{Answer, Ask, Body, Marks};
use cf_row::Memory;
use cf_table::ReaderPass;
use std::alloc::Global;

/// The answers to these questions, in their order.
pub(crate) fn answers_seen(
    shared: &Shared,
    alloc: Global,
    pass: &mut ReaderPass,
    rest: &mut [Reader],
    asks: &[Ask],
) -> Result<Vec<Answer>, Memory>
    requires behind { AreBehind shared.now pass.old rest.old }
    requires suit { All (Suits shared.now.log.shape) asks.now }
    ensures answers { IfOk result (λ answers. answers.items ≡ map (answer_on shared.now.log.shape (seen_of shared.now pass.old rest.old)) asks.now) }
    ensures walked { AllWalked pass.old pass.new rest.old rest.new }
{
    let mut answers = Vec::with_capacity(alloc, asks.len())?;
    for q in 0..asks.len() {
        answers.push(answer_in(shared, alloc, pass, rest, &asks[q])?)?;
    }
    Ok(answers)
}

// The marks of one trigger.
fn marks_seen(
    shared: &Shared,
    alloc: Global,
    pass: &mut ReaderPass,
    rest: &mut [Reader],
    trigger: &Trigger,
) -> Result<Marks, Memory>
    requires behind { AreBehind shared.now pass.old rest.old }
    requires suits { SuitsTrigger shared.now.log.shape trigger.now }
    ensures marks { IfOk result (λ marks. marks ≡ marks_over shared.now.log.shape trigger.now (rows_in (seen_of shared.now pass.old rest.old))) }
    ensures walked { AllWalked pass.old pass.new rest.old rest.new }
{
    match answer_in(shared, alloc, pass, rest, &Ask::Fired(*trigger))?.body {
        Body::Marks(marks) => Ok(marks),
        Body::Places(_) => unreachable!(),
        Body::Total(_) => unreachable!(),
        Body::Tops(_) => unreachable!(),
        Body::Groups(_) => unreachable!(),
    }
}

/// The marks of these triggers, in their order.
pub(crate) fn alerts_seen(
    shared: &Shared,
    alloc: Global,
    pass: &mut ReaderPass,
    rest: &mut [Reader],
    triggers: &[Trigger],
) -> Result<Vec<Marks>, Memory>
    requires behind { AreBehind shared.now pass.old rest.old }
    requires suit { All (SuitsTrigger shared.now.log.shape) triggers.now }
    ensures alerts { IfOk result (λ alerts. alerts.items ≡ map (λ trigger. marks_over shared.now.log.shape trigger (rows_in (seen_of shared.now pass.old rest.old))) triggers.now) }
    ensures walked { AllWalked pass.old pass.new rest.old rest.new }
{
    let mut alerts = Vec::with_capacity(alloc, triggers.len())?;
    for trigger in triggers {
        alerts.push(marks_seen(shared, alloc, pass, rest, trigger)?)?;
    }
    Ok(alerts)
}

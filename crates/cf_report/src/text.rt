// The whole report.
ghost use Rattle.std.specs.Prelude.{◌≡◌, IfOk, length};
ghost use Rattle.cf_report.specs.Answered.{IsAnswering};
ghost use Rattle.cf_report.specs.Text.{text_of};

use crate::Tags;
use crate::lines::{push_alerts, push_asks};
use crate::live::push_lives;
use crate::order::push_order;
use cf_plain::Loaded;
use cf_row::{Entry, Memory};
use cf_setup::Setup;
use std::alloc::Global;
use std::fmt::Write;

/// How much of a report is written.
#[derive(Clone, Copy, Debug, PartialEq, Eq)]
pub enum Form {
    /// All of it.
    Whole,
    /// The part on all records alone, which neither the number of writers nor their order changes.
    Final,
}

/// The text of a report of these answers over the entries of a log, by their numbers and writers alone. There is an answer to each
/// question of the setup and a list of marks to each trigger, in its order.
pub fn report_by_tags(
    alloc: Global,
    setup: &Setup,
    entries: &Tags,
    loaded: &Loaded,
    form: Form,
) -> Result<Vec<u8>, Memory>
    requires { IsAnswering setup.now (length entries.now) loaded.now }
    ensures { IfOk result (λ text. text.items ≡ text_of form setup.now entries.now loaded.now) }
{
    let mut text = String::new(alloc);
    let count = entries.len();
    write!(text, "records {count}\n")?;
    push_asks(alloc, &mut text, setup, entries, loaded.finals())?;
    push_alerts(&mut text, setup, loaded.alerts())?;
    match form {
        Form::Final => Ok(text.into_bytes()),
        Form::Whole => {
            push_lives(alloc, &mut text, setup, entries, loaded.lives())?;
            push_order(&mut text, entries)?;
            Ok(text.into_bytes())
        }
    }
}

/// As `report_by_tags`, over the entries themselves.
pub fn report(
    alloc: Global,
    setup: &Setup,
    entries: &[Entry],
    loaded: &Loaded,
    form: Form,
) -> Result<Vec<u8>, Memory>
    requires { IsAnswering setup.now (length entries.now) loaded.now }
    ensures { IfOk result (λ text. text.items ≡ text_of form setup.now entries.now loaded.now) }
{
    let tags = Tags::of(alloc, entries)?;
    report_by_tags(alloc, setup, &tags, loaded, form)
}

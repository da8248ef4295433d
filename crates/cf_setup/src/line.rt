// What a line states, or the least code of a rule that it breaks.
ghost use Rattle.std.specs.Prelude.{◌≡◌, ◌<◌, ◌^◌, length, true, false, is_some};
ghost use Rattle.cf_setup.specs.Few.{IsFew};
ghost use Rattle.cf_setup.specs.Forms.{form_at, form_value, is_schema_form, HasWords};
ghost use Rattle.cf_setup.specs.SetupText.{is_in_place as is_in_place_of, is_later as is_later_of};
ghost use Rattle.cf_setup.specs.Reading.{form_read, line_read, ruled, said, Takes};

use crate::aggregate::{add_aggregate, add_keyed_aggregate};
use crate::ask_buckets::add_buckets;
use crate::ask_find::add_find;
use crate::ask_fired::add_fired;
use crate::ask_groups::add_groups;
use crate::ask_list::add_list;
use crate::ask_top::add_top;
use crate::ask_total::add_total;
use crate::draft::Draft;
use crate::fault::{Code, LineFault};
use crate::filter::add_filter;
use crate::form::{StatementForm, form_of};
use crate::index::add_index;
use crate::live::add_live;
use crate::schema::{add_packet_schema, add_record_schema};
use crate::statement::{Statement, statement_of};
use crate::tally::add_tally;
use crate::trigger::add_trigger;
use crate::width::add_width;
use cf_filter::{Class, are_all};
use cf_lines::{is_silent, word_of};
use std::alloc::Global;

// After the schema there is no other, and one width.
fn is_later(draft: &Draft, statement: Statement) -> bool
    ensures { result ≡ is_later_of draft.now statement }
{
    match statement {
        Statement::Schema => false,
        Statement::Width => draft.width.is_none(),
        _ => true,
    }
}

fn is_in_place(draft: &Draft, statement: Statement) -> bool
    ensures { result ≡ is_in_place_of draft.now statement }
{
    if draft.schema.is_some() {
        return is_later(draft, statement);
    }
    match statement {
        Statement::Schema => true,
        _ => false,
    }
}

// Adds what the statement says, if it breaks none of its rules.
fn add_statement(
    alloc: Global,
    line: u32,
    draft: Draft,
    form: StatementForm,
) -> Result<Draft, LineFault>
    requires few { IsFew draft }
    requires words { HasWords (form_value form) }
    requires stated { is_schema_form (form_value form) ≡ false → is_some draft.schema ≡ true }
    ensures { Takes result (ruled line draft (form_value form.entry)) }
{
    match form {
        StatementForm::PacketSchema { which } => add_packet_schema(alloc, line, draft, which),
        StatementForm::RecordSchema { list } => add_record_schema(alloc, line, draft, list),
        StatementForm::Width { number } => add_width(line, draft, number),
        StatementForm::Index { name, attr } => add_index(alloc, line, draft, name, attr),
        StatementForm::Filter { name, expr } => add_filter(alloc, line, draft, name, expr),
        StatementForm::Aggregate { name, filter, attr } => {
            add_aggregate(alloc, line, draft, name, filter, attr)
        }
        StatementForm::KeyedAggregate { name, over } => {
            add_keyed_aggregate(alloc, line, draft, name, over)
        }
        StatementForm::Tally { name, by } => add_tally(alloc, line, draft, name, by),
        StatementForm::Trigger { name, on } => add_trigger(alloc, line, draft, name, on),
        StatementForm::List { name, expr } => add_list(alloc, line, draft, name, expr),
        StatementForm::Find { name, over } => add_find(alloc, line, draft, name, over),
        StatementForm::Buckets { name, what, over } => add_buckets(
            alloc, line, draft, name, what, over,
        ),
        StatementForm::Fired { name, trigger } => add_fired(alloc, line, draft, name, trigger),
        StatementForm::Top { name, by } => add_top(alloc, line, draft, name, by),
        StatementForm::Groups { name, lane } => add_groups(alloc, line, draft, name, lane),
        StatementForm::Total { name, attr, expr } => add_total(
            alloc, line, draft, name, attr, expr,
        ),
        StatementForm::Live { ask } => add_live(line, draft, ask),
    }
}

// Reads what follows the first word of a statement that is in place.
fn read_statement(
    alloc: Global,
    line: u32,
    draft: Draft,
    statement: Statement,
    text: &[u8],
) -> Result<Draft, LineFault>
    requires few { IsFew draft }
    requires size { length text.now < 2 ^ 32 }
    requires place { is_in_place_of draft statement ≡ true }
    ensures { Takes result (form_read line draft (form_at statement text.now)) }
{
    match form_of(statement, text) {
        Some(form) => add_statement(alloc, line, draft, form),
        None => Err(LineFault::Breaks(Code::BadForm)),
    }
}

// Reads what the line of that number states, or says the least code of a rule that it breaks.
#[tactic(auto, unfolding(crate::specs::Reading::line_read))]
fn read_stated(alloc: Global, number: u32, draft: Draft, line: &[u8]) -> Result<Draft, LineFault>
    requires few { IsFew draft }
    requires size { length line.now < 2 ^ 32 }
    ensures { Takes result (line_read number draft line.now) }
{
    if !are_all(Class::Text, line) {
        return Err(LineFault::Breaks(Code::NotText));
    }
    let (word, rest) = word_of(line);
    let Some(statement) = statement_of(word) else {
        return Err(LineFault::Breaks(Code::BadStatement));
    };
    if !is_in_place(&draft, statement) {
        return Err(LineFault::Breaks(Code::BadStatement));
    }
    read_statement(alloc, number, draft, statement, rest)
}

/// Reads a line after the spaces at its front, which may state nothing.
pub(crate) fn read_line(
    alloc: Global,
    number: u32,
    draft: Draft,
    line: &[u8],
) -> Result<Draft, LineFault>
    requires few { IsFew draft }
    requires size { length line.now < 2 ^ 32 }
    ensures { Takes result (said number draft line.now) }
{
    if is_silent(line) {
        return Ok(draft);
    }
    read_stated(alloc, number, draft, line)
}

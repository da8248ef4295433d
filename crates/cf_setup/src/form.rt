// Statements in their forms.
ghost use Rattle.std.specs.Prelude.{◌≡◌, ◌<◌, ◌^◌, length, IfSome};
ghost use Rattle.std.specs.Option.{option_map};
ghost use Rattle.cf_setup.specs.Forms.{form_at, form_value, HasWords};

use crate::aggregate::{Keyed, aggregate_form};
use crate::ask::{Range, Ranking, ask_form};
use crate::ask_buckets::Buckets;
use crate::filter::filter_form;
use crate::index::index_form;
use crate::live::live_form;
use crate::schema::schema_form;
use crate::statement::Statement;
use crate::tally::{Grouping, tally_form};
use crate::trigger::{Condition, trigger_form};
use crate::width::width_form;
use cf_row::PacketSchema;

/// A statement in its form, with its words. What its rules are and what it adds stands in the file of each statement.
#[derive(Clone, Copy, Debug)]
pub(crate) enum StatementForm<'a> {
    PacketSchema {
        which: PacketSchema,
    },
    RecordSchema {
        list: &'a [u8],
    },
    Width {
        number: &'a [u8],
    },
    Index {
        name: &'a [u8],
        attr: &'a [u8],
    },
    Filter {
        name: &'a [u8],
        expr: &'a [u8],
    },
    Aggregate {
        name: &'a [u8],
        filter: &'a [u8],
        attr: &'a [u8],
    },
    KeyedAggregate {
        name: &'a [u8],
        over: Keyed<'a>,
    },
    Tally {
        name: &'a [u8],
        by: Grouping<'a>,
    },
    Trigger {
        name: &'a [u8],
        on: Condition<'a>,
    },
    List {
        name: &'a [u8],
        expr: &'a [u8],
    },
    Find {
        name: &'a [u8],
        over: Range<'a>,
    },
    Buckets {
        name: &'a [u8],
        what: Buckets,
        over: Range<'a>,
    },
    Fired {
        name: &'a [u8],
        trigger: &'a [u8],
    },
    Top {
        name: &'a [u8],
        by: Ranking<'a>,
    },
    Groups {
        name: &'a [u8],
        lane: &'a [u8],
    },
    Total {
        name: &'a [u8],
        attr: &'a [u8],
        expr: &'a [u8],
    },
    Live {
        ask: &'a [u8],
    },
}

/// The statement that follows its first word, if it is in its form.
pub(crate) fn form_of<'a>(statement: Statement, text: &'a [u8]) -> Option<StatementForm<'a>>
    requires { length text.now < 2 ^ 32 }
    ensures form { option_map form_value result ≡ form_at statement text.now }
    ensures words { IfSome result (λ form. HasWords (form_value form)) }
{
    match statement {
        Statement::Schema => schema_form(text),
        Statement::Width => width_form(text),
        Statement::Index => index_form(text),
        Statement::Filter => filter_form(text),
        Statement::Aggregate => aggregate_form(text),
        Statement::Tally => tally_form(text),
        Statement::Trigger => trigger_form(text),
        Statement::Ask => ask_form(text),
        Statement::Live => live_form(text),
    }
}

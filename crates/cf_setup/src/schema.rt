// `schema packet`, `schema packet6` and `schema records LIST`.
ghost use Rattle.std.specs.Prelude.{◌≡◌, IfSome, Some, None, cond};
ghost use Rattle.cf_lines.specs.Lines.{is_blank as is_blank_text};
ghost use Rattle.cf_setup.specs.declared.form.StatementForm.TheVariants.{PacketSchema as PacketsForm};
ghost use Rattle.std.specs.Option.{option_map};
ghost use Rattle.cf_setup.specs.Forms.{schema_form as schema_form_of, form_value, HasWords};
ghost use Rattle.cf_setup.specs.Forms.StatementFormValue.{packet_schema as packet_schema_form, record_schema};
ghost use Rattle.cf_setup.specs.Reading.{ruled, Takes};

use crate::draft::Draft;
use crate::fault::{Code, LineFault};
use crate::form::StatementForm;
use crate::source::Source;
use cf_lines::{is_blank, last_word, next_word, schema_of};
use cf_row::PacketSchema;
use std::alloc::Global;

// A schema of packets, which no word follows.
fn packets_form<'a>(rest: &'a [u8], which: PacketSchema) -> Option<StatementForm<'a>>
    ensures { result ≡ cond (is_blank_text rest.now) (Some (PacketsForm which)) None }
{
    if is_blank(rest) {
        Some(StatementForm::PacketSchema { which })
    } else {
        None
    }
}

pub(crate) fn schema_form<'a>(text: &'a [u8]) -> Option<StatementForm<'a>>
    ensures form { option_map form_value result ≡ schema_form_of text.now }
    ensures words { IfSome result (λ form. HasWords (form_value form)) }
{
    let (word, rest) = next_word(text)?;
    if word == b"packet".as_slice() {
        return packets_form(rest, PacketSchema::Packet);
    }
    if word == b"packet6".as_slice() {
        return packets_form(rest, PacketSchema::Packet6);
    }
    if word != b"records".as_slice() {
        return None;
    }
    let list = last_word(rest)?;
    Some(StatementForm::RecordSchema { list })
}

/// A schema of packets.
#[tactic(auto, unfolding(crate::specs::Reading::ruled))]
pub(crate) fn add_packet_schema(
    alloc: Global,
    line: u32,
    draft: Draft,
    which: PacketSchema,
) -> Result<Draft, LineFault>
    ensures { Takes result (ruled line draft (packet_schema_form which)) }
{
    Ok(draft.with_schema(line, Source::Packets(which), which.schema(alloc)?))
}

/// A schema of records.
#[tactic(auto, unfolding(crate::specs::Reading::ruled))]
pub(crate) fn add_record_schema(
    alloc: Global,
    line: u32,
    draft: Draft,
    list: &[u8],
) -> Result<Draft, LineFault>
    ensures { Takes result (ruled line draft (record_schema list.now)) }
{
    match schema_of(alloc, list)? {
        Some(schema) => Ok(draft.with_schema(line, Source::Records, schema)),
        None => Err(LineFault::Breaks(Code::BadSchema)),
    }
}

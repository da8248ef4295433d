// The lines of a dump.
ghost use Rattle.std.specs.Prelude.{◌≡◌, ◌++◌, ◌∷◌, ◌+◌, ◌<◌, ◌^◌, List, [], All, IfOk, OnOk, length, string_bytes};
ghost use Rattle.std.specs.List.{flat_map, range_with_len};
ghost use Rattle.cf_row.specs.Row.{Fits, RowValue};
ghost use Rattle.cf_row.specs.declared.schema.Attr.{Attr as AttrValue};
ghost use Rattle.cf_report.specs.Dump.{field_text, field_at, row_line, dump_text, IsListing};

use crate::value::push_value;
use cf_row::{Attr, Memory, Row, Schema, Value};
use std::alloc::Global;
use std::fmt::Write;

// ` NAME=VALUE`
fn push_field(text: &mut String, attr: &Attr, value: Value) -> Result<(), Memory>
    ensures { OnOk result (string_bytes text.new ≡ string_bytes text.old ++ field_text attr.now value) }
{
    let name = attr.name.as_str();
    write!(text, " {name}=")?;
    push_value(text, attr, value)
}

fn push_fields(text: &mut String, schema: &Schema, row: &Row) -> Result<(), Memory>
    requires { Fits schema.now row.now }
    ensures { OnOk result (string_bytes text.new ≡ string_bytes text.old ++ flat_map (field_at schema.now row.now) (range_with_len 0 (length schema.now))) }
{
    let attrs = schema.attrs();
    for place in 0..attrs.len() {
        push_field(text, &attrs[place], row.get(schema, place as u8))?;
    }
    Ok(())
}

fn push_row(text: &mut String, schema: &Schema, row: &Row) -> Result<(), Memory>
    requires { Fits schema.now row.now }
    ensures { OnOk result (string_bytes text.new ≡ string_bytes text.old ++ row_line schema.now row.now) }
{
    let num = row.num();
    write!(text, "{num}")?;
    push_fields(text, schema, row)?;
    text.push_str("\n")
}

fn push_rows(text: &mut String, schema: &Schema, rows: &[Row]) -> Result<(), Memory>
    requires { All (Fits schema.now) rows.now }
    ensures { OnOk result (string_bytes text.new ≡ string_bytes text.old ++ flat_map (row_line schema.now) rows.now) }
{
    for row in rows {
        push_row(text, schema, row)?;
    }
    Ok(())
}

/// The text of a dump as its rows come: a line for each, with its number and ` NAME=VALUE` for each attribute in the schema's
/// order. `src` and `dst` are dotted (RFC 791), bytes are `0x` and lower-case digits, `src6`, `src6_low`, `dst6` and `dst6_low`
/// are `0x` and sixteen, and other numbers are decimal. No row is kept.
#[derive(Drop)]
pub struct Listing {
    lines: String,
    // How many they are.
    count: usize,
}

impl Listing {
    /// Before any row.
    pub fn new(alloc: Global) -> Listing
        ensures none { (attrs : List AttrValue) → IsListing attrs [] result }
        ensures count { result.count ≡ 0 }
    {
        Listing {
            lines: String::new(alloc),
            count: 0,
        }
    }

    /// Adds the lines of the next rows of the schema.
    pub fn push(&mut self, schema: &Schema, rows: &[Row]) -> Result<(), Memory>
        requires fit { All (Fits schema.now) rows.now }
        requires few { self.old.count + length rows.now < 2 ^ 64 }
        ensures listed { OnOk result ((before : List RowValue) → IsListing schema.now before self.old → IsListing schema.now (before ++ rows.now) self.new) }
        ensures count { OnOk result (self.new.count ≡ self.old.count + length rows.now) }
    {
        push_rows(&mut self.lines, schema, rows)?;
        self.count += rows.len();
        Ok(())
    }

    /// `records` and their number, and then the lines.
    pub fn into_text(self, alloc: Global) -> Result<Vec<u8>, Memory>
        ensures { IfOk result (λ text. (attrs : List AttrValue) (rows : List RowValue) → IsListing attrs rows self → text.items ≡ dump_text attrs rows) }
    {
        let Listing {
            lines: mut text,
            count,
        } = self;
        let head = format!(in alloc; "records {count}\n")?;
        text.insert_str(0, &head)?;
        Ok(text.into_bytes())
    }
}

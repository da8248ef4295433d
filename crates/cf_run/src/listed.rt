// The lines of a capture's packets, which are made as they come.
ghost use Rattle.std.specs.Prelude.{◌≡◌, []};
ghost use Rattle.cf_intake.specs.Causes.{HasHaltCause};
ghost use Rattle.cf_intake.specs.Reading.{ReadsRows, TakesPackets};
ghost use Rattle.cf_row.specs.Schema6.{attrs_by};
ghost use Rattle.cf_report.specs.Dump.{IsListing};
ghost use Rattle.cf_setup.specs.declared.source.Source.TheVariants.{Packets};

use cf_intake::{Halt, Pieces, open_packets};
use cf_outside::Shelf;
use cf_report::Listing;
use cf_row::{PacketSchema, Schema};
use std::alloc::Global;

// Lists the rows of the opened capture by the schema of that name as they come, and keeps none. It is read to its end, or until 2^32
// bytes were taken. One that may be truncated says within which record it ends, if it does.
fn list_packets<F: Shelf>(
    alloc: Global,
    shelf: &mut F,
    which: PacketSchema,
    schema: &Schema,
    truncated: bool,
    listing: &mut Listing,
) -> Result<Option<u64>, Halt>
    requires schema { schema.now ≡ attrs_by which }
    requires none { IsListing (attrs_by which) [] listing.old }
    ensures files { F.files shelf.new ≡ F.files shelf.old }
    ensures taken { TakesPackets which truncated (λ cut what. (what.cut ≡ cut) × IsListing (attrs_by which) what.rows listing.new) (F.rest shelf.old) (F.rest shelf.new) result }
    ensures cause { HasHaltCause (F.faults shelf.old) (F.faults shelf.new) result }
{
    let (mut pieces, rows) = Pieces::begin(alloc, shelf, which)?;
    listing.push(schema, &rows)?;
    while pieces.has_more() {
        let given = pieces.next_rows(alloc, shelf, 1)?;
        listing.push(schema, &given)?;
    }
    pieces.finish(truncated)
}

/// Lists the rows of the capture of that name by the schema of that name, and says within which record it ends, if it is truncated.
pub(crate) fn list_rows<F: Shelf>(
    alloc: Global,
    shelf: &mut F,
    name: &str,
    which: PacketSchema,
    truncated: bool,
    listing: &mut Listing,
) -> Result<Option<u64>, Halt>
    requires { IsListing (attrs_by which) [] listing.old }
    ensures files { F.files shelf.new ≡ F.files shelf.old }
    ensures read { ReadsRows (Packets which) truncated (attrs_by which)
        (λ rows. IsListing (attrs_by which) rows listing.new) (F.files shelf.old) name.now (F.rest shelf.old) (F.rest shelf.new) result }
    ensures cause { HasHaltCause (F.faults shelf.old) (F.faults shelf.new) result }
{
    let schema = which.schema(alloc)?;
    open_packets(shelf, name)?;
    list_packets(alloc, shelf, which, &schema, truncated, listing)
}

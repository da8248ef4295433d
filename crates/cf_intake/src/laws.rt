// The theorem on captures.
ghost use Rattle.std.specs.Prelude.{ℕ, Bool, List};
ghost use Rattle.cf_row.specs.declared.schema.Attr.{Attr};
ghost use Rattle.cf_setup.specs.declared.source.Source.{Source};
ghost use Rattle.cf_outside.specs.Files.{File};
ghost use Rattle.cf_row.specs.declared.packet6.PacketSchema.{PacketSchema};
ghost use Rattle.cf_intake.specs.Laws.{OneCase, OneSeries};

/// Each file is a capture of one list of rows in the format that a schema asks for, or has one fault: of packets by either schema,
/// in pcap or pcapng, by the first four bytes, or of the records of other attributes in CSV. Where a capture of packets may be truncated, one that
/// ends within a record is of the records before it.
pub fn each_file_is_in_one_case()
    ensures { (source : Source) (truncated : Bool) (attrs : List Attr) (bytes : List ℕ) → OneCase source truncated attrs bytes }
{}

/// Captures of packets, of any length, that are read one after another have one list of records, end to end, and one end: all are whole or cut,
/// or the first that is missing or has a fault is refused.
pub fn captures_have_one_end()
    ensures { (schema : PacketSchema) (truncated : Bool) (files : List File) (names : List (List ℕ)) → OneSeries schema truncated files names }
{}

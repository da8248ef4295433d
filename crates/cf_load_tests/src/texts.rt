// The text of every error.
use cf_append::AppendFault;
use cf_filter::FilterFault;
use cf_load::{LoadFault, TurnFault};
use cf_outside::{Failed, OpenFault};
use cf_pcap::PcapFault;
use cf_pcapng::NgFault;
use cf_records::RecordFault;
use cf_row::{Memory, SchemaFault};
use cf_setup::SetupFault;
use cf_shape::ShapeFault;
use std::alloc::Global;
use std::fmt::Display;
use std::process::Abort;
use std::test::Fail;

// Compares what each displays as with its text.
fn compare<R: Abort, E: Display>(rt: &R, alloc: Global, table: &[(E, &str)]) -> Result<(), Memory> {
    for (error, text) in table {
        let shown = format!(in alloc; "{error}")?;
        assert_eq!(rt; shown.as_str(), *text);
    }
    Ok(())
}

const OUT: &str = "out of memory";

#[test]
fn errors_of_rows_and_logs_have_their_texts(rt: HostRuntime) -> Result<(), Fail> {
    let alloc = rt.alloc();
    let schema = [
        (SchemaFault::TooMany, "more than 24 attributes"),
        (SchemaFault::NameTwice, "two attributes of one name"),
        (SchemaFault::NoTs, "no attribute ts of 8 bytes"),
        (
            SchemaFault::BadSize,
            "a byte attribute of no byte or of more than 16",
        ),
        (SchemaFault::Memory, OUT),
    ];
    compare(&rt, alloc, &schema)?;
    let shape = [
        (ShapeFault::TooManyLanes, "more than 16 lanes"),
        (ShapeFault::BadCapacity, "a capacity outside 1 to 65536"),
        (ShapeFault::BadWriters, "writers outside 1 to 15"),
        (
            ShapeFault::BadNodes,
            "more than 65536 nodes for each writer",
        ),
        (ShapeFault::BadWidth, "a width outside 1 to 2^63"),
        (ShapeFault::BytesKey, "a key over an attribute with bytes"),
        (
            ShapeFault::WideMeasure,
            "a measure of an attribute with bytes or with numbers of 64 bits",
        ),
        (ShapeFault::Memory, OUT),
    ];
    compare(&rt, alloc, &shape)?;
    let append = [
        (AppendFault::Full, "the log is full"),
        (AppendFault::NodesFull, "the writer's nodes are used"),
    ];
    compare(&rt, alloc, &append)?;
    let load = [
        (LoadFault::Full, "more rows than there is room for"),
        (LoadFault::NodesFull(3), "writer 3 has no node left"),
        (LoadFault::Memory, OUT),
    ];
    compare(&rt, alloc, &load)?;
    let turn = [
        (
            TurnFault::Spent,
            "there are as many segments as there may be",
        ),
        (TurnFault::Memory, OUT),
    ];
    compare(&rt, alloc, &turn)?;
    Ok(())
}

#[test]
fn errors_of_files_have_their_texts(rt: HostRuntime) -> Result<(), Fail> {
    let alloc = rt.alloc();
    let pcap = [
        (
            PcapFault::BadMagic,
            "the first four bytes are no magic of a capture",
        ),
        (PcapFault::BadVersion, "the version isn't 2.4"),
        (
            PcapFault::BadLink,
            "the link is none of those that are read",
        ),
        (
            PcapFault::FrameTooLong(7),
            "the captured length of record 7 is above 262144 bytes",
        ),
        (
            PcapFault::Cut(7),
            "the stream ends inside the file header or a record, after 7 whole records",
        ),
        (PcapFault::TooManyBytes, "the stream has 2^32 bytes or more"),
        (PcapFault::Memory, OUT),
    ];
    compare(&rt, alloc, &pcap)?;
    let pcapng = [
        (
            NgFault::BadMagic(7),
            "a section header is missing or in neither byte order, after 7 frames",
        ),
        (
            NgFault::BadVersion(7),
            "a section's major version isn't 1, after 7 frames",
        ),
        (
            NgFault::BadLink(7),
            "the link of packet 7 is none of those that are read",
        ),
        (
            NgFault::FrameTooLong(7),
            "the captured length of packet 7 is above 262144 bytes",
        ),
        (
            NgFault::Cut(7),
            "the stream ends inside a block or before its first section header, after 7 frames",
        ),
        (NgFault::TooManyBytes, "the stream has 2^32 bytes or more"),
        (
            NgFault::BadLength(7),
            "a length of a block is unlawful, after 7 frames",
        ),
        (
            NgFault::NoInterface(7),
            "the interface of packet 7 isn't one of its section",
        ),
        (
            NgFault::TooManyInterfaces(7),
            "a section has more than 65536 interfaces, after 7 frames",
        ),
        (NgFault::Memory, OUT),
    ];
    compare(&rt, alloc, &pcapng)?;
    let records = [
        (RecordFault::NoHeader, "no record at all"),
        (
            RecordFault::BadHeader,
            "the first record is not the names of the schema in order",
        ),
        (
            RecordFault::BadCount(7),
            "record 7 has another number of fields than the schema",
        ),
        (
            RecordFault::BadValue(7, 2),
            "record 7 has no lawful value in column 2",
        ),
        (RecordFault::TooManyBytes, "the text has 2^24 bytes or more"),
        (RecordFault::Memory, OUT),
    ];
    compare(&rt, alloc, &records)?;
    let open = [
        (OpenFault::Missing, "no file has that name"),
        (OpenFault::Failed, "the device has failed"),
        (OpenFault::Memory, OUT),
    ];
    compare(&rt, alloc, &open)?;
    compare(&rt, alloc, &[(Failed, "the device has failed")])?;
    Ok(())
}

#[test]
fn errors_of_languages_have_their_texts(rt: HostRuntime) -> Result<(), Fail> {
    let alloc = rt.alloc();
    let filter = [
        (
            FilterFault::Syntax(7),
            "another token is wanted after 7 bytes",
        ),
        (
            FilterFault::UnknownName(7),
            "no attribute has the name after 7 bytes",
        ),
        (
            FilterFault::BadOperator(7),
            "the attribute has no such operator as that after 7 bytes",
        ),
        (
            FilterFault::ValueRange(7),
            "the attribute has no such value as that after 7 bytes",
        ),
        (FilterFault::TooLong, "more than 32 atoms"),
        (FilterFault::Memory, OUT),
    ];
    compare(&rt, alloc, &filter)?;
    let setup = [
        (
            SetupFault::Bad { line: 7, code: 13 },
            "line 7 breaks rule 13",
        ),
        (SetupFault::Memory, OUT),
    ];
    compare(&rt, alloc, &setup)?;
    Ok(())
}

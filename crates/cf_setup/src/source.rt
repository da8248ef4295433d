// What the rows of a setup are read from.
use cf_row::PacketSchema;

/// What a setup's rows are read from, as its schema says.
#[derive(Clone, Copy, Debug, PartialEq, Eq)]
pub enum Source {
    /// A capture of packets, by the schema of that name.
    Packets(PacketSchema),
    /// A file of records.
    Records,
}

//! Files of typed records: CSV with a header of the schema's names, and a record with a value of each attribute for each row.
#![tactic(auto)]

mod fault;
mod laws;
mod read;
mod row;

pub use fault::RecordFault;
pub use laws::each_text_is_one_thing;
pub use read::{read_first, read_records};

//! Captures in the libpcap file format 2.4 (pcap savefile), read as a stream that comes in any pieces.
//!
//! Also what the readers of all captures share: formats whose files are units end to end (`specs/Format.antt`), how long a
//! stream may be, and the stages of a reader.
#![tactic(auto)]

mod cut;
mod fault;
mod form;
mod frame;
mod head;
mod laws;
mod limit;
mod links;
mod reader;
mod records;
mod scope;
mod stage;
mod taking;

pub use cut::cut_at;
pub use fault::PcapFault;
pub use form::Order;
pub use frame::Frame;
pub use laws::{
    a_capture_is_one_of_all_links, a_found_fault_stays, a_truncated_file_has_its_whole_records,
    each_file_is_in_one_case, each_stream_gives_one_list, files_are_judged_alike,
};
pub use limit::{LIMIT, Length};
pub use links::{Link, LinkSet};
pub use reader::Pcap;
pub use records::LONGEST;
pub use scope::Scope;
pub use stage::Stage;

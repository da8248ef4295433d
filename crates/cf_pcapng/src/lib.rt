//! Captures in the PCAP Next Generation format (draft-ietf-opsawg-pcapng-02), read as a stream that comes in any pieces.
#![tactic(auto)]

mod blocks;
mod content;
mod fault;
mod head;
mod interfaces;
mod laws;
mod options;
mod passed;
mod position;
mod reader;
mod times;

pub use fault::NgFault;
pub use laws::{
    a_capture_is_one_of_all_links, a_truncated_file_has_its_whole_blocks,
    blocks_are_judged_by_the_rules, each_file_is_in_one_case, each_stream_gives_one_list,
    files_are_judged_by_the_rules,
};
pub use reader::PcapNg;

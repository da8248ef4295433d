//! The row of a captured packet: what its headers say. By the schema `packet` these are Ethernet II or Linux SLL, one tag of
//! IEEE 802.1Q, IPv4 (RFC 791), TCP (RFC 9293) and UDP (RFC 768); by `packet6` each [`cf_pcap::Link`], two tags, IPv6
//! (RFC 8200) and ICMP (RFC 792, RFC 4443) too. No checksum is verified, and no frame is refused.
#![tactic(auto)]

mod carried;
mod extension;
mod fields;
mod flow;
mod frame;
mod ipv6;
mod layer;
mod more;
mod network;
mod packet;
mod packet6;
mod transport;

pub use flow::both_directions_have_one_flow;
pub use frame::FrameInfo;
pub use packet::{packet_row, packet_row_of_bytes};
pub use packet6::{packet6_row, packet6_row_of_bytes, rows_of_both_schemas_agree};

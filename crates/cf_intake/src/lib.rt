//! Files are read, and captures become rows or have a fault.
//!
//! A grammar says what the bytes of a file say, or at which place they break it (`specs/Files.antt`). `read_setup`, `first_rows`
//! and `read_hosts` read whole files by it. `Pieces` reads a capture of packets piece by piece, for who takes its rows meanwhile, and `Reads`
//! read by read; `Series` reads several captures of any length so, one after another.
//! Why work has no result is a `Refusal`, which has a line, or a `Stop`.
#![tactic(auto)]

mod devices;
mod faults;
mod files;
mod hosts;
mod laws;
mod pieces;
mod reader;
mod reads;
mod refusal;
mod rows;
mod series;

pub use devices::write_all;
pub use files::{first_lines, first_rows, open_packets, read_setup};
pub use hosts::read_hosts;
pub use laws::{captures_have_one_end, each_file_is_in_one_case};
pub use pieces::Pieces;
pub use reads::{PIECE, Reads};
pub use refusal::{Halt, Refusal, Stop};
pub use rows::{Captured, Format, Manner, format_of};
pub use series::Series;

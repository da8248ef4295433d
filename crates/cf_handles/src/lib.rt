//! What C calls, by handles of a log, of its writers, of its readers and of spans of readers: the calls themselves, each with the number that it answers.
#![tactic(auto)]

mod abouts;
mod code;
mod copies;
mod handle;
pub mod logs;
mod parts;
pub mod readers;
mod seat;
mod setup_names;
pub mod span_report;
pub mod spans;
pub mod writers;

pub use abouts::About;
pub use code::message_of;
pub use copies::copy_part;
pub use handle::{Handle, LogHandle, ReaderHandle, SpanHandle, WriterHandle};

//! A log of a setup, its writers and its readers, each of which a program holds by itself and hands to a thread.
//!
//! A writer's pass leaves its place in the log with a way home, and comes back when the writer is freed, in any thread. A reader asks
//! at the tail, or reports what it has seen.
#![tactic(auto)]

mod answers;
mod close;
mod ends;
mod held;
mod law;
mod line;
mod log;
mod merges;
mod place;
mod places;
mod reader;
mod refusals;
mod report;
mod shown;
mod span;
mod span_report;
mod tags;
mod told;
mod values;
mod way;
mod writer;

pub use held::{Log, Reader, Writer};
pub use law::seen_reports_are_histories;
pub use log::measure;
pub use merges::merge;
pub use refusals::{
    AddRefusal, AppendRefusal, AskRefusal, CloseRefusal, LaneRefusal, LineRefusal, MergeRefusal,
    OpenRefusal, RowRefusal, TakeRefusal,
};
pub use shown::{Capture, Fault, Framed, Head, Room, Shown, ShownValue, Sizes};
pub use span::Span;
pub use way::Sent;

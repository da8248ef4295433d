//! The texts of a report, of a snapshot and of a dump.
//!
//! A report has what questions and triggers found on a log, what live questions found while it was written, and the order in which its
//! writers wrote. A snapshot has each host's answers at a cut, and a dump a line for each row, with its values by name.
#![tactic(auto)]

mod body;
mod condition;
mod laws;
mod lines;
mod listing;
mod live;
mod order;
mod snapshot;
mod tags;
mod text;
mod value;

pub use body::{places_of, push_body, push_keys, word};
pub use condition::is_answering;
pub use laws::{
    final_part_has_no_sizes, final_part_is_one, meant_answers_make_reports, reports_are_histories,
};
pub use lines::{marks_at, name_at, push_alerts};
pub use listing::Listing;
pub use snapshot::{push_cut, push_host, push_host_by_tags};
pub use tags::Tags;
pub use text::{Form, report, report_by_tags};

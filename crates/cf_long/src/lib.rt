//! A log of any length: its rows fill one segment at a time, and a full one is asked each question once and let go.
//!
//! `long_of` opens one for a setup, `KeptLong` keeps of each row what the setup names, and `long_report`
//! answers about all of them at the end.
//! `series_report` does all this with captures that are read one after another.
#![tactic(auto)]

mod ahead;
mod answers;
mod growing;
mod joins;
mod kept;
mod long;
mod order;
mod reads;
mod report;
mod segment;
mod spelled_rows;
mod text;

pub use answers::Answers;
pub use kept::KeptLong;
pub use long::Long;
pub use reads::series_report;
pub use report::{long_of, long_report};
pub use text::final_text;

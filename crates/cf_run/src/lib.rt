//! The top call: from the words of a command to the bytes that are written.
//!
//! `run` reads the setup and the captures that its words name, and writes the report, or the line of a refusal. Its contract
//! is the headline of the program: see `specs/Due.antt` for what words and files call for, and what is left of the files that
//! were opened, and `specs/Answers.antt` for what the status says of that.
#![tactic(auto)]

mod listed;
mod long_run;
mod prepare;
mod program;
mod reply;
mod snapshot;
mod status;
mod top;
mod truncated;
mod watched;

pub use program::start;
pub use status::{Outcome, Status};
pub use top::{run, run_steadily};

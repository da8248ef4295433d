//! The program: does the work that its words ask for, and ends with the number of the status.
#![tactic(auto)]

use cf_run::start;
use std::process::ExitCode;

fn main(rt: HostRuntime) -> ExitCode {
    start(&rt)
}

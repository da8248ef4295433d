//! The words of a command line, read by clap, and what they ask for.
#![tactic(auto)]

mod number;
mod table;
mod words;

use std::alloc::AllocError;
pub use words::{
    Command, DumpCommand, LogSizes, LongCommand, RunCommand, SnapshotCommand, SynthCommand,
    WatchCommand, WindowSizes, command_of,
};

/// Want of memory, the one refusal of reading words.
pub type Memory = AllocError;

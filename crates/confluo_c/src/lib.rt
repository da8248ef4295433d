//! The log for programs in C, and in what can call C: what C calls.
#![tactic(auto)]

mod plain;
mod pointers;
mod raw;
mod span_pointers;

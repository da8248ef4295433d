//! The books of a log's table, and tickets in flight, tried. There is no code here but tests.
#![tactic(auto)]

#[cfg(test)]
mod append_tests;
#[cfg(test)]
mod tests;

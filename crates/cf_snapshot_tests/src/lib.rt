//! The steps of a snapshot, and windows of a stream, tried. There is no code here but tests.
#![tactic(auto)]

#[cfg(test)]
mod tests;
#[cfg(test)]
mod window_tests;

//! The calls of C by handles, tried. There is no code here but tests.
#![tactic(auto)]

#[cfg(test)]
mod spans;
#[cfg(test)]
mod tests;

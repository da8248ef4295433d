//! Records are appended to a shared log while questions are asked of it, by writers and readers in turn and in threads. There is
//! no code here but tests.
#![tactic(auto)]

#[cfg(test)]
mod lane_tests;
#[cfg(test)]
mod tests;

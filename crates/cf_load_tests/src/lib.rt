//! Logs of several segments and loads into them, and the texts of all errors, tried. There is no code here but tests.
#![tactic(auto)]

#[cfg(test)]
mod gates;
#[cfg(test)]
mod load_tests;
#[cfg(test)]
mod take_tests;
#[cfg(test)]
mod texts;

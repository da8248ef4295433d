//! The top call, tried: failing devices, which files are opened, live questions beside writers, seals, and watches read by read.
//! There is no code here but tests. Those of words, files, statuses and texts alone are of the built program: tools/tests/test_program.py.
#![tactic(auto)]

#[cfg(test)]
mod devices;
#[cfg(test)]
mod runs;
#[cfg(test)]
mod tried;
#[cfg(test)]
mod watched;

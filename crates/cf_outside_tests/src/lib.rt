//! Devices, tried. There is no code here but tests.
#![tactic(auto)]

#[cfg(test)]
mod devices;
#[cfg(test)]
mod interrupted;

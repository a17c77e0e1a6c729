//! Tests of what reads a device to its end, and of the devices in memory, each once.
//!
//! They stand apart from the libraries, so that a library is proved once and not again with its tests.
#![tactic(auto)]

#[cfg(test)]
mod devices;
#[cfg(test)]
mod reading;
#[cfg(test)]
mod shelves;

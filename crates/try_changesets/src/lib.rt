//! Tests of changes and of documents: what the calls that make, read, print, walk and apply them answer in worked
//! examples.
//!
//! They stand apart from the libraries, so that a library is proved once and not again with its tests.
#![tactic(auto)]

#[cfg(test)]
mod applied;
#[cfg(test)]
mod changes;
#[cfg(test)]
mod spelled;
#[cfg(test)]
mod walked;

//! A birth's whole history, put into a pad's file.
//!
//! The crates above may rest on `put`: the file then stands for a legal list of records that tells just these revisions,
//! and a crash at any moment leaves it standing for that list or for none. Nothing here reads or writes a history's text.
#![tactic(auto)]

mod bad;
mod framing;
mod putting;
mod records;
mod storing;

pub use bad::PutBad;
pub use putting::put;

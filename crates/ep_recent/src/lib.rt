//! The last revisions of a birth, kept whole, with the document before one in eight of them.
//!
//! The crates above may rest on `AreLastOf`: whatever was pushed, these are the last ones of it, and each document that is
//! made of them is that revision's. Nothing in it was read from a disk, so its changes fit without being asked.
#![tactic(auto)]

mod recent;

pub use recent::Recent;

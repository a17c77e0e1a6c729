//! Connections that carry messages, as a trait with its contract, and one in memory.
//!
//! The crates above may rest on what a link tells of its traffic: what each receive brought and each send took, in order.
//! It is not for what a message means.
#![tactic(auto)]

mod ear;
mod link;
mod mem_link;
mod passed;

pub use ear::{Ear, NoEar};
pub use link::Link;
pub use mem_link::MemLink;
pub use passed::{Coming, LinkBad, LinkGot, Passed};

//! What was read, kept for another reading.
//!
//! The crates above may rest on this: what is kept under a number is what was last put under it. How much of what was put
//! is still there is no promise, but that what was just put is.
#![tactic(auto)]

mod recall;

pub use recall::Recall;

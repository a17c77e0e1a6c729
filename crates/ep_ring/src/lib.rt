//! Others hear at once: a port round the pads' port, whose commits wake the links of those that wait for the pad.
//!
//! Each session has a port of its own (`Ringing`), round the pads that all share, with the same passes and the same
//! clauses. When it has logged in or come back, its link's ear hangs on the pad's bell until the session ends; when an edit
//! or a text was committed or the pad deleted, the bell rings for the others, once the pad's lock is given back. A pad
//! for which nobody waits has no bell. No clause speaks of a ring: who misses one finds what is new at the end of its wait.
#![tactic(auto)]

mod bell;
mod bells;
mod ringing;

pub use bells::Bells;
pub use ringing::{RingPass, Ringing};

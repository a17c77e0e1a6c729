//! What a client makes of a server's message.
//!
//! The crates above may rest on `meant` being the table of `specs/Meaning`: each message is to a client the pad as it stands,
//! a thing to hear, a thing to hear when it comes back, steps of the history, or a closing. Whether it may come now, and what
//! the client does with it, is not of this crate.
#![tactic(auto)]

mod meaning;

pub use meaning::{Back, Meaning, News, Slid, Welcome, meant};

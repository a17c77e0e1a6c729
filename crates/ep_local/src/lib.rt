//! What a user does to the text that a client shows.
//!
//! The crates above may rest on `edit_view`, by which a client makes a local edit of its view exactly as the definitions in
//! `specs/` say, or says why it is none. Who asks for the edit, and what is sent of it, is not of this crate.
#![tactic(auto)]

mod local;

pub use local::{edit_view, local_change};

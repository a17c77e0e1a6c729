//! The words that ask for a pad to be moved.
//!
//! The crates above may rest on `read_move`: the words ask for it exactly where `specs/Moves` says so. It is not for what
//! is moved, nor for any other words.
#![tactic(auto)]

mod reading;

pub use reading::{Move, Way, read_move};

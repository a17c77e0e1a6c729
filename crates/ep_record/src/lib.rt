//! Records of a pad's journal, each as bytes.
//!
//! The crates above may rest on a record's bytes being those of `specs/Bytes`, and on `decode` finding a record exactly
//! where the bytes are one's. What a record means, and which lists of them are legal, is said in `ep_history`. It is not
//! for files: how records lie in one is the journal's.
#![tactic(auto)]

mod fault;
mod laws;
mod reading;
mod writing;

pub use ep_history::Record;
pub use laws::no_bytes_are_two;
pub use reading::decode;
pub use writing::{encode, encode_behind};

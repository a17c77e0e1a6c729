//! Records of a pad's journal in its two formats, each as bytes.
//!
//! The crates above may rest on a record's bytes being those of `specs/Bytes`, and on `decode` finding a record exactly
//! where the bytes are one's in that format. What a record means, and which lists of them are legal, is said in
//! `ep_history`. It is not for files: how records lie in one is the journal's.
#![tactic(auto)]

mod formats;
mod laws;
mod reading;
mod record;
mod writing;

pub use ep_frames::FrameMark;
pub use formats::next_format;
pub use laws::no_bytes_are_two;
pub use reading::decode;
pub use record::Record;
pub use writing::{encode, encode_behind};

//! A pad's whole history, written as one JSON text.
//!
//! The crates above may rest on the text being that of `specs/Exported`, and on its being read as that. Nothing here reads
//! a text, and nothing knows of a file.
#![tactic(auto)]

mod attribs;
mod bad;
mod exporting;
mod keys;
mod values;

pub use bad::ExportBad;
pub use exporting::export;
pub use keys::{pad_key, rev_key};

//! What a journal's file begins with, which names the format of its first records.
//!
//! The crates above may rest on the definitions in `specs/` and on the laws: a file is foreign, or it is in one format. What
//! stands behind the header is the journal's.
#![tactic(auto)]

mod headers;
mod laws;

pub use headers::{format_of, header, named};
pub use laws::{a_file_is_in_its_format, a_long_file_is_in_one_format, foreign_files_have_none};

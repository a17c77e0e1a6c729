//! Lines of a source: each is what stands before its LF, and nothing is waited for behind that.
//!
//! The crates above may rest on the definitions of a line in `specs/`, which the one call meets exactly, whatever the
//! pieces are in which a source gives its bytes.
#![tactic(auto)]

mod lines;

pub use lines::{Line, Lines, LinesBad};

//! What is written of the files of a shelf: a line a pad, by rising name.
//!
//! The crates above may rest on the lines, which are a definition's of the verdicts of `ep_verify`, on what these come to,
//! and on the cause of each refusal. It is not for how a file is judged.
#![tactic(auto)]

mod found;
mod laws;
mod line;
mod verdicts_bad;
mod writing;

pub use found::Found;
pub use laws::shelves_have_one_text;
pub use line::print_what;
pub use verdicts_bad::VerdictsBad;
pub use writing::verify_to;

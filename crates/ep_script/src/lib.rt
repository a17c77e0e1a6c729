//! Scripts: what their lines say.
//!
//! The crates above may rest on the definitions of a line in `specs/`, which the calls meet exactly, and on each text
//! that is read being whole. What a line does to a pad and its clients is not of this crate, nor what is printed.
#![tactic(auto)]

mod edits;
mod fields;
mod forms;
mod line;
mod script;
mod texts;
mod words;
mod write_line;

pub use line::{Line, LineBad, read_line};
pub use script::{MOST_LINE, MOST_SCRIPT, Script, ScriptBad, ScriptLine};
pub use write_line::{WriteLine, read_write_line};

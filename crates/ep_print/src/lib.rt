//! Lines of output: what is printed of what is shown.
//!
//! The crates above may rest on the definition of a printed line in `specs/`, which `print_shown` meets exactly, and on that
//! of a text in quotes. What is shown at which event is not of this crate.
#![tactic(auto)]

mod marks;
mod print;
mod reasons;
mod texts;
mod words;

pub use print::print_shown;
pub use texts::print_quoted;

//! The words behind the program's name, read.
//!
//! The layer above may rest on one definition, `line_in`: which words ask for what. Words are a usage fault exactly where it has
//! nothing for them. `clap` takes them apart, by the command of `specs/App`. It is not for what a command does, nor for what is
//! printed of a fault: no text of `clap` goes out.
#![tactic(auto)]

mod app;
mod bad;
mod command;
mod numbers;
mod parts;
mod words;

pub use bad::WordsBad;
pub use command::Command;
pub use words::read_words;

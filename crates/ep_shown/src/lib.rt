//! How far a long job is, shown where a person watches.
//!
//! The crates above may rest on the shown shelf being the shelf within: its clauses are those of the trait, and what is
//! shown goes to standard error alone. It is not for what is written as an answer.
#![tactic(auto)]

mod shown_line;
mod shown_shelf;

pub use shown_shelf::ShownShelf;

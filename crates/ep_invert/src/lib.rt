//! Changes made for a document: a stretch gives way to a text, a stretch is painted, and what undoes a change.
//!
//! The crates above may rest on the definitions in `specs/`, on the laws in `laws` and on the exact clauses of
//! the calls.
#![tactic(auto)]

mod bad;
mod inverting;
mod laws;
mod painting;
mod restoring;
mod splicing;
mod stretch;
mod undoing;
mod writing;

pub use bad::SpliceBad;
pub use inverting::invert;
pub use laws::{
    inverse_keeps_what_was_kept, inverse_undoes, paint_sets_attributes, restores_what_was_altered,
};
pub use painting::paint;
pub use splicing::splice;

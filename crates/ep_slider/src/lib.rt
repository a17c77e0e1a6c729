//! A document's history in steps: one change for each step, and the one that takes it back.
//!
//! The crates above may rest on the definitions in `specs/`, on the laws in `laws` and on the exact clauses of
//! `slide`.
#![tactic(auto)]

mod bad;
mod laws;
mod sliding;

pub use bad::SlideBad;
pub use laws::{slides_lead_on, slides_take_back};
pub use sliding::{Slides, slide};

//! What a change inserts under another author's name is painted with one's own.
//!
//! The crates above may rest on the definitions in `specs/`, on the laws in `laws` and on the clauses of `signing`.
#![tactic(auto)]

mod another;
mod laws;
mod signer;

pub use laws::{new_units_are_signed, signed_units_name_no_other, together_no_other_is_named};
pub use signer::signing;

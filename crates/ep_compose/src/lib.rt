//! One change for two that are made one after the other.
#![tactic(auto)]

mod composing;
mod laws;
mod step;

pub use composing::compose;
pub use laws::{composed_does_both, composed_either_way, composed_with_identity};

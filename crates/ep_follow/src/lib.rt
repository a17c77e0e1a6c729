//! The change that follows another change of the same document.
//!
//! The crates above may rest on the exact clauses of `follow`, and on the laws in `laws`.
#![tactic(auto)]

mod following;
mod front;
mod gap;
mod laws;
mod rebasing;
mod step;
mod stretch;
mod writer;

pub use following::follow;
pub use laws::{documents_meet, followers_meet};
pub use rebasing::rebase;

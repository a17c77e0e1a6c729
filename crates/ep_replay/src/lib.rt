//! The revisions of a birth, replayed one after another, up to the first that may not stand where it stands.
//!
//! The crates above may rest on `specs/Standing`, which is in the words of `ep_past`, and on the exact clauses of the calls.
//! Nothing here reads a text: who replays hands in revisions.
#![tactic(auto)]

mod first;
mod laws;
mod replay;
mod same;

pub use laws::standing_revisions_are_a_births;
pub use replay::Replay;
pub use same::same_change;

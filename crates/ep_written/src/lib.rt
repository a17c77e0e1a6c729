//! What a writer writes: the lines that a source has left go to a server's pad over a link, and a sink is told what came
//! of it.
//!
//! The crates above may rest on the line that each end of a writer has, and on the cause of each fault. How a writer
//! speaks with a server stands with `ep_peer`.
#![tactic(auto)]

mod line;
mod writing;
mod wrote;

pub use writing::write_to;
pub use wrote::Wrote;

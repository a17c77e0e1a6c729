//! Key frames: which document a revision's record holds, and in which form.
//!
//! The crates above may rest on the definitions in `specs/` and on the laws: the frame of a step is the document after the
//! last of its revisions at which one is due. How a frame lies in bytes is said elsewhere.
#![tactic(auto)]

mod frame_mark;
mod laws;

pub use frame_mark::FrameMark;
pub use laws::{last_due_is_the_last, none_is_due};

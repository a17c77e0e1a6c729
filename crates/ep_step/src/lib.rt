//! What an edit makes of the head of a pad's birth: an edit that is taken, the server's texts, a record read back.
//!
//! The crates above may rest on each answer being the one that `ep_history` gives, with its refusals in their order, and
//! on a `Step` holding all that its revisions need, so that it becomes them without memory. Nothing here knows of a
//! session, a journal or a whole birth: who keeps these hands in the head, the base's document and the revisions behind
//! it.
#![tactic(auto)]

mod author;
mod laws;
mod newline;
mod rebasing;
mod reread;
mod revised;
mod splicing;
mod step;
mod taking;
mod telling;
mod text;

pub use author::first_other;
pub use ep_history::{PadBad, Rev};
pub use laws::{
    first_steps_are_first_revisions, revisions_lead_to_the_head, taken_edits_are_committed,
};
pub use newline::{lacks_newline, newline_change};
pub use rebasing::rebased;
pub use reread::next_step;
pub use revised::{NewRev, Revised};
pub use step::{Made, Step};
pub use taking::{Base, Head, Taken};
pub use telling::Committed;
pub use text::{first_step, set_change};

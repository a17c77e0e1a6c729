//! The timeslider of an editor: a document of the pad's history, and steps to others.
//!
//! The crates above may rest on `Slider::walk` and `walk_by` coming as near to a revision as steps lead, on `question` and
//! `steps_of` being what `specs/Steps` says, and on the law: steps of a history lead to its documents. What is shown of that,
//! and when, is not of this crate.
#![tactic(auto)]

mod laws;
mod slider;

pub use laws::the_way_stays_in_the_history;
pub use slider::{Asked, Place, Slid, Slider, Step, question, steps_of};

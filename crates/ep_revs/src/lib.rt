//! The revisions of one birth of a pad, and the document of each.
//!
//! The crates above may rest on `Revs` being a list of revisions, revision 0 first, each of which fits the document of
//! those before it; on `seek` giving the document of any of them within 99 counted steps; and on a push that takes no
//! memory. It keeps the head's document, as a frame each document whose revision is divisible by 100, and for a while one
//! in 8 of the last ones, which is moved in when it is the head's no more: documents share blocks, so each costs what
//! changed since the one before it. It is not for sessions, nor for who may edit.
#![tactic(auto)]

mod copying;
mod laws;
mod revs;
mod steps;

pub use copying::copies_of;
pub use ep_history::Rev;
pub use laws::documents_of_a_birth;
pub use revs::Revs;
pub use steps::Steps;

//! Where the records of a birth's revisions stand in their journal, in four bytes each.
//!
//! The crates above may rest on `Places` being a list, in which a revision has a place or none. What stands at a place is
//! the journal's.
#![tactic(auto)]

mod place;
mod places;

pub use place::Place;
pub use places::Places;

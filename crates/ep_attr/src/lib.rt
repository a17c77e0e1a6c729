//! Attribute maps: pairs of a key and a value, by strictly rising key.
//!
//! The crates above may rest on a map being that list of pairs, on the exact clauses of the calls, and on
//! the laws of the four operations on maps in `laws`. Numbers of pairs are not of this crate: they are a pool's.
#![tactic(auto)]

mod attr_map;
mod laws;
mod same;
mod walk;

pub use attr_map::{Attr, AttrMap, follow_change};
pub use laws::{
    change_after_none, changes_made_one, follow_meets, joined_in_any_grouping, known_by_values,
    made_of_pairs, values_of_maps,
};

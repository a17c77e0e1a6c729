//! Pools: lists of distinct attributes, numbered from 0 in the order in which they were first put.
//!
//! The crates above may rest on `Pool` being such a list, and on the exact clauses of the calls. Texts
//! of changesets, which name attributes by these numbers, are not of this crate.
#![tactic(auto)]

mod from_json;
mod laws;
mod pool;
mod to_json;
mod tree;

pub use from_json::{PoolBad, PoolMember};
pub use laws::{a_value_has_one_answer, json_is_read_back};
pub use pool::Pool;

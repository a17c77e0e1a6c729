//! Changes that are walked run by run, where a run may be taken in parts.
#![tactic(auto)]

mod cursor;
mod part;

pub use cursor::{Cursor, Head};
pub use part::{Part, shorter};

//! Attributed text in stretches of one map each, and what is seen of a text that is passed.
#![tactic(auto)]

mod parts;
mod seen;
mod span;
mod within;

pub use parts::Parts;
pub use seen::{Seen, ends_high};
pub use within::{Stretch, Within};

//! The records of a directory: its keys, its ids, what stands under each kind of key, and the readings of them.
//!
//! A keeper's map holds texts. Here stands which text is which record, both ways, so that the crate above
//! speaks of ids, sessions and pads alone. Each reading of `Records` says what the map holds wherever the
//! keeper tells it afterwards, and its refusals have their causes. The crate above puts readings one behind
//! the other, and ends with one `commit`. It is not for what a call of the directory does.
#![tactic(auto)]

mod dir_bad;
mod ids;
mod keys;
mod listed;
mod puts;
mod readings;
mod records;
mod values;

pub use dir_bad::DirBad;
pub use ids::{Drawn, IdKind};
pub use keys::Kind;
pub use listed::Listed;
pub use puts::Puts;
pub use readings::with_dollar;
pub use records::Records;
pub use values::{SessionInfo, session_text};

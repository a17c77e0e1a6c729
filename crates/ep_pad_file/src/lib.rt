//! A pad's records in the file of a disk, each synced before it is acknowledged.
//!
//! The crates above may rest on the records for which the file stands at every moment of a call, whatever a crash leaves,
//! on the exact clauses of the calls, and on the laws. It is not for what the records tell of a pad.
#![tactic(auto)]

mod laws;
mod pad_file;
mod prepared;
mod refusals;

pub use laws::{files_stand_for_one_list, what_is_left_stands};
pub use pad_file::PadFile;
pub use prepared::Prepared;

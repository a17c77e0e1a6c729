//! A journal: records in the file of a disk, each synced before it is acknowledged.
//!
//! The crates above may rest on what the file stands for at every moment of a call, whatever a crash
//! leaves, and on the exact clauses of the calls. A journal keeps the places of its records and no record:
//! opening reads five bytes for each. It is not for what the records mean.
#![tactic(auto)]

mod framed;
mod head;
mod journal;
mod journal_bad;
mod opening;
mod scanning;
mod steps;
mod walking;

pub use framed::{FRONT, Framed, frame, frame_behind};
pub use head::RECORD_MAX;
pub use journal::Journal;
pub use journal_bad::JournalBad;
pub use scanning::{Records, scan};

//! Refusals of a journal.

use thiserror::Error;

/// Why a call of a journal is refused.
#[derive(Clone, Copy, Debug, Error, PartialEq, Eq)]
pub enum JournalBad {
    /// The disk failed; so often it has failed now.
    #[error("the disk failed")]
    Disk(u64),
    /// The file is no journal.
    #[error("not a journal")]
    Foreign,
    /// The file would have so many bytes, which is past the limit.
    #[error("the journal is full")]
    Full(u64),
    #[error("out of memory")]
    NoMemory,
}

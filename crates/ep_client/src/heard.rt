//! What a client hears, and what it was to it.

use ep_cs::Change;
use ep_units::Session;

/// What a client hears of its pad.
#[derive(Drop)]
pub enum Heard {
    /// The next revision, which has this number, is its submission.
    Commit {
        rev: u64,
    },
    /// Its submission became nothing when it was taken, and this was the last revision then.
    Nop {
        rev: u64,
    },
    /// The next revision, which has this number: its change of the document before it, and the session that made it.
    Rev {
        rev: u64,
        change: Change,
        session: Session,
    },
}

/// What it was to the client that heard it.
#[derive(Clone, Copy, Debug, PartialEq, Eq)]
pub enum Told {
    /// Its own submission, which is pending no more.
    Commit,
    /// Another's revision.
    News,
}

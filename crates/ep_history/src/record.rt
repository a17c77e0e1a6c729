//! What a pad's journal keeps.

use ep_cs::Change;
use ep_units::{Session, Units};

/// A record: one thing that happened to a pad. Times are milliseconds since 1970.
#[derive(Drop)]
pub enum Record {
    /// The journal was opened, with the number of the opening, counted from 1.
    Open {
        epoch: u64,
    },
    /// The pad was made with a text that was cleaned; births are counted from 1.
    Create {
        birth: u64,
        time: u64,
        text: Units,
    },
    /// A change of the document of the last revision; `fixed` says that its result lacked the final newline, so that a
    /// second revision by nobody, at the same time, gives it one.
    Rev {
        session: Session,
        time: u64,
        author: Units,
        fixed: bool,
        change: Change,
    },
    /// The pad was deleted.
    Delete {
        time: u64,
    },
    /// Whether anybody may enter a group's pad.
    Public {
        on: bool,
    },
    /// An edit of this session had become nothing when it was taken.
    Nop {
        session: Session,
        time: u64,
    },
}

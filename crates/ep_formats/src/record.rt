//! What a pad's journal keeps.

use ep_cs::Change;
use ep_frames::FrameMark;
use ep_units::{Session, Units};

/// A record: one thing that happened to a pad. Times are milliseconds since 1970.
pub enum Record {
    /// The journal was opened, with the number of the opening, counted from 1.
    Open {
        epoch: u64,
    },
    /// The pad was made with a text that was cleaned, and with its key frames so far apart; births are counted from 1.
    Create {
        birth: u64,
        time: u64,
        spacing: u32,
        text: Units,
    },
    /// A change of the document of the last revision; `fixed` says that its result lacked the final newline, so that a
    /// second revision by nobody, at the same time, gives it one. `frame` has the document where one is due.
    Rev {
        session: Session,
        time: u64,
        author: Units,
        fixed: bool,
        change: Change,
        frame: FrameMark,
    },
    /// The pad was deleted.
    Delete {
        time: u64,
    },
    /// Whether anybody may enter a group's pad.
    Public {
        on: bool,
    },
    /// An edit of this session had become nothing when it was taken.
    Nop {
        session: Session,
        time: u64,
    },
    /// Format 2 begins: the records behind this one are of it.
    Format,
}

impl Drop for Record {
    fn drop(self) {
        match self {
            Record::Open { epoch: _ } => {}
            Record::Create {
                birth: _,
                time: _,
                spacing: _,
                text: _,
            } => {}
            Record::Rev {
                session: _,
                time: _,
                author: _,
                fixed: _,
                change: _,
                frame: _,
            } => {}
            Record::Delete { time: _ } => {}
            Record::Public { on: _ } => {}
            Record::Nop {
                session: _,
                time: _,
            } => {}
            Record::Format => {}
        }
    }
}

//! What a line of output shows.

use ep_apply::Doc;
use ep_cs::Change;
use ep_csread::ReadBad;
use ep_history::PadBad;
use ep_units::{Session, Units};

/// The word that a line of a script begins with, and its line of output too.
#[derive(Clone, Copy, Debug, PartialEq, Eq)]
pub enum Verb {
    Create,
    Set,
    Drop,
    Login,
    Guest,
    Reader,
    Insert,
    Delete,
    Format,
    Undo,
    Redo,
    Inject,
    Submit,
    Take,
    Late,
    Push,
    Hear,
    Lose,
    Resume,
    Crash,
    Head,
    Text,
    Marks,
}

/// What a client has that it doesn't know as committed.
#[derive(Clone, Copy, Debug, PartialEq, Eq)]
pub enum State {
    Clean,
    /// A change that was sent.
    Sent,
    /// A change that wasn't sent yet.
    Local,
    Both,
}

/// Why a connection is closed, as its last message says.
#[derive(Clone, Copy, Debug, PartialEq, Eq)]
pub enum Ended {
    /// A message of the client's was refused.
    BadChangeset,
    /// The journal has no room for an edit of the client's.
    Full,
    /// A newer session of the client's author came.
    UserDup,
    /// The pad was deleted.
    Deleted,
}

/// Why what a line asks for is refused.
#[derive(Clone, Copy, Debug, PartialEq, Eq)]
pub enum Reason {
    /// The text of a message spells no change.
    Read(ReadBad),
    /// The pad refuses.
    Pad(PadBad),
    /// An edit goes past the end of what the client sees.
    Place,
    /// An edit cuts the pair whose second half stands at this place.
    CutsPair(u64),
}

/// One line of output. `rev`, `base` and `head` are numbers of revisions.
#[derive(Drop)]
pub enum Shown {
    /// The pad was made by this change of the empty document.
    Created {
        change: Change,
    },
    /// The pad's text was set; `fixed` says that the newline's revision stands behind.
    Set {
        rev: u64,
        fixed: bool,
        change: Change,
    },
    /// A client, a guest or a reader has a session, and the head.
    Entered {
        verb: Verb,
        name: Units,
        session: Session,
        rev: u64,
    },
    /// What was asked for is done.
    Done {
        verb: Verb,
        name: Option<Units>,
    },
    /// There was nothing to do.
    Nothing {
        verb: Verb,
        name: Units,
    },
    Refused {
        verb: Verb,
        name: Option<Units>,
        why: Reason,
    },
    /// The number that a pair has in the script's pool.
    Attr {
        number: u64,
    },
    /// A client took an edit back, or made it again, by this change of what it saw.
    Remade {
        verb: Verb,
        name: Units,
        change: Change,
    },
    Submitted {
        name: Units,
        base: u64,
        change: Change,
    },
    /// A message was taken and made this revision.
    Taken {
        verb: Verb,
        name: Units,
        rev: u64,
        fixed: bool,
        change: Change,
    },
    /// An edit has become nothing: it was taken so, or its client is told or hears it.
    Noted {
        verb: Verb,
        name: Units,
        rev: u64,
    },
    Pushed {
        name: Units,
        rev: u64,
    },
    /// A client hears its own change as committed.
    Committed {
        name: Units,
        rev: u64,
    },
    /// A client hears a revision of another's.
    Heard {
        name: Units,
        rev: u64,
    },
    /// The closing was sent, or is heard.
    Closed {
        verb: Verb,
        name: Units,
        word: Ended,
    },
    Resumed {
        name: Units,
        session: Session,
        head: u64,
    },
    /// The number of the opening after a crash, and the head where the pad is there.
    Crashed {
        epoch: u64,
        head: Option<u64>,
    },
    /// What a client sees.
    View {
        name: Units,
        rev: u64,
        state: State,
        doc: Doc,
    },
    Head {
        rev: u64,
        doc: Doc,
    },
    /// The revision that was asked for.
    Text {
        rev: u64,
        doc: Doc,
    },
    /// There is no pad.
    Gone {
        verb: Verb,
    },
    /// There is no pad, and no such revision of it.
    TextGone {
        rev: u64,
    },
    NoRev {
        rev: u64,
        head: u64,
    },
    /// The attributes of the head.
    HeadMarks {
        rev: u64,
        doc: Doc,
    },
    /// The attributes of what a client sees.
    ViewMarks {
        name: Units,
        doc: Doc,
    },
}

//! What happens to a pad and its clients.

use ep_cs::Change;
use ep_csread::ReadBad;
use ep_outside::Image;
use ep_units::Units;

/// A local edit of a client's view. Places and lengths count UTF-16 units.
#[derive(Drop)]
pub enum Local {
    Insert {
        at: u32,
        text: Units,
    },
    Delete {
        at: u32,
        units: u32,
    },
    /// Sets one attribute on so many units; an empty value removes it.
    Format {
        at: u32,
        units: u32,
        key: Units,
        value: Units,
    },
}

/// A stop within a take: after so many device calls, with what the crash leaves of the file.
#[derive(Drop)]
pub struct StopAt {
    pub name: Units,
    pub calls: u64,
    pub image: Image,
}

/// One step of one actor. Clients and guests are known by their names.
#[derive(Drop)]
pub enum Event {
    /// The server makes the pad with this text.
    Create {
        text: Units,
    },
    /// The server puts this text in the place of the pad's.
    SetText {
        text: Units,
    },
    /// The server deletes the pad.
    Delete,
    /// A client comes, or starts anew.
    Login {
        name: Units,
    },
    /// A guest comes, or starts anew: a connection that sends what it likes, and hears nothing.
    Guest {
        name: Units,
        read_only: bool,
    },
    /// A client edits what it sees.
    Edit {
        name: Units,
        edit: Local,
    },
    /// A client takes back the last edit that it hasn't taken back.
    Undo {
        name: Units,
    },
    /// A client makes the last edit again that it took back.
    Redo {
        name: Units,
    },
    /// A client sends its local change.
    Submit {
        name: Units,
    },
    /// A guest sends a change of a base, or a text that spells none.
    Inject {
        name: Units,
        base: u64,
        change: Result<Change, ReadBad>,
    },
    /// The server takes the first message of a name.
    Take {
        name: Units,
    },
    /// The server takes the first message of the connection that a client had before its last resumption.
    Late {
        name: Units,
    },
    /// The server sends a client the next that it is to be told.
    Push {
        name: Units,
    },
    /// A client hears the first that was sent to it.
    Hear {
        name: Units,
    },
    /// A client's connection is lost.
    Lose {
        name: Units,
    },
    /// A client comes back, in a new session.
    Resume {
        name: Units,
    },
    /// The server crashes, between two calls or within a take, and starts again.
    Stop {
        at: Option<StopAt>,
    },
}

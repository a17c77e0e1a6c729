//! How writing ended.

/// How writing ended.
#[derive(Clone, Copy, Debug, PartialEq, Eq)]
pub enum Wrote {
    /// All lines are committed, and what the pad holds then was written.
    All,
    /// A line is none, or doesn't fit what is seen. Which it is was written.
    BadLine,
    /// The server closed, or sent what can't be heard. What it was was written.
    Refused,
    /// The other side is gone.
    LinkClosed,
    SourceFault,
    LinkFault,
    /// A beginning of what was to be written was.
    SinkFault,
    NoMemory,
}

//! Limits of one server.

/// How much a server holds.
#[derive(Clone, Copy, Debug, PartialEq, Eq)]
pub struct Limits {
    /// Live sessions of one pad.
    pub live: u64,
    /// Sessions of one pad since it was opened.
    pub logins: u64,
    /// Units of a pad's text.
    pub units: u64,
    /// Bytes of a pad's journal with a record of text.
    pub journal: u64,
    /// How many bytes more it may have with a record of no text: an opening, a deletion, who may read. So a pad whose
    /// journal takes no more text is still opened, read and deleted.
    pub openings: u64,
    /// Pads of a run.
    pub pads: u64,
}

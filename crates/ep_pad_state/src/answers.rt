//! What a pad answers.

use ep_apply::Doc;
use ep_history::Rev;
use ep_units::{Session, Units};

/// What is told to who logs in: the new session, and the head with its document and time.
#[derive(Drop)]
pub struct Welcome {
    pub session: Session,
    pub birth: u64,
    pub rev: u64,
    pub doc: Doc,
    pub author: Units,
    pub read_only: bool,
    pub time: u64,
}

/// What is told to who comes back: the new session, and the head with its time.
#[derive(Clone, Copy, Debug, PartialEq, Eq)]
pub struct CatchUp {
    pub session: Session,
    pub head: u64,
    pub birth: u64,
    pub time: u64,
}

/// The head, the next revisions, and the heads at which the session's next edits that became nothing did.
#[derive(Drop)]
pub struct Fetched {
    pub head: u64,
    pub revs: Vec<Rev>,
    pub nops: Vec<u64>,
}

/// A document, and the revisions behind it.
#[derive(Drop)]
pub struct Piece {
    pub doc: Doc,
    pub revs: Vec<Rev>,
    pub head: u64,
}

/// The pad as a whole. `edited` is the head's time, `live` counts the live sessions.
#[derive(Clone, Copy, Debug, PartialEq, Eq)]
pub struct PadStatus {
    pub birth: u64,
    pub head: u64,
    pub edited: u64,
    pub public: bool,
    pub live: u64,
}

//! Sessions of a pad, by number.

/// The session of that count in the opening of that epoch, both from 1. `0.0` is nobody's.
#[derive(Clone, Copy, Debug, PartialEq, Eq)]
pub struct Session {
    pub epoch: u64,
    pub count: u64,
}

//! Statuses.

/// How the program ended: 0 all done, 1 a file that was judged is broken, 2 usage, 3 a line that can't be played or
/// written, 4 the source failed, 5 the sink failed, 6 the shelf or a disk of it failed, 7 want of memory, 8 the doors or
/// the link failed, 10 the server refused, 11 the link was closed.
#[derive(Clone, Copy, Debug, PartialEq, Eq)]
pub struct Status {
    pub code: u8,
}

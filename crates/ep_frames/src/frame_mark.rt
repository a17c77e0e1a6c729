//! Whether a record holds a document.

use ep_cs::Change;

/// What a revision's record says of the document after the greatest of its revisions whose number is divisible by the
/// birth's spacing.
pub enum FrameMark {
    /// Neither of its revisions has such a number.
    None,
    /// It holds the document: this change inserts it into no units.
    Here(Change),
    /// The document is left out, as it would have too many bytes.
    Left,
}

impl Drop for FrameMark {
    fn drop(self) {
        match self {
            FrameMark::None => {}
            FrameMark::Here(_) => {}
            FrameMark::Left => {}
        }
    }
}

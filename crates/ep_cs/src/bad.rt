//! Why a change doesn't fit a document, and which of two changes goes first.

use thiserror::Error;

/// Why a change doesn't fit a document: the first of these whose cause is there.
#[derive(Clone, Copy, Debug, Drop, Error, PartialEq, Eq)]
pub enum FitBad {
    /// The document has so many UTF-16 units, and the change says so many.
    #[error("the document has {0} units, and the change says {1}")]
    OldLen(u64, u64),
    /// The places of this operation hold other newlines than it says.
    #[error("operation {0} says other newlines")]
    Newlines(u64),
    /// A pair is cut whose second half stands at this place.
    #[error("the pair at {0} is cut")]
    CutsPair(u64),
}

/// Which of two changes goes first where nothing else decides.
#[derive(Clone, Copy, Debug, PartialEq, Eq)]
pub enum First {
    A,
    B,
}

//! Why a pad refuses.

use crate::seat::Why;
use ep_cs::FitBad;
use ep_units::NoMemory;
use thiserror::Error;

/// Why a call of a pad is refused. A refusal leaves the pad as it was, but for a fault of its store, which closes it.
#[derive(Clone, Copy, Debug, Drop, Error, PartialEq, Eq)]
pub enum PadBad {
    /// The session isn't live.
    #[error("the session has ended")]
    Dead(Why),
    /// Who may not enter, by the number of the rule: 4, an absent pad is not made; 6, a group's pad is not public;
    /// 7, another author is named than the one that was granted.
    #[error("denied by rule {0}")]
    Denied(u64),
    /// So many sessions are live, or were made since the opening.
    #[error("there are {0} sessions")]
    Full(u64),
    /// The pad is absent, or it is another birth than the one named.
    #[error("the pad is gone")]
    Gone,
    /// A client's revision is above this head.
    #[error("the head is revision {0}")]
    BadRev(u64),
    /// The revision that is asked for is above this head.
    #[error("there is no such revision: the head is revision {0}")]
    NoRev(u64),
    /// The pad is there already.
    #[error("the pad exists")]
    Exists,
    /// A session that may read alone sends an edit.
    #[error("the session may not write")]
    ReadOnly,
    /// The revision that an edit is based on is above this head.
    #[error("there is no such base: the head is revision {0}")]
    NoBase(u64),
    /// This operation names another author than the session's.
    #[error("operation {0} names another author")]
    Author(u64),
    /// The change doesn't fit the document of its base.
    #[error("{0}")]
    Fit(FitBad),
    /// The text would have so many UTF-16 units.
    #[error("the text would have {0} units")]
    TooLong(u64),
    /// The record would have so many bytes, or the file that it is appended to.
    #[error("the journal would have {0} bytes")]
    JournalFull(u64),
    /// The store failed: its count of faults is this now.
    #[error("the store failed: {0} faults")]
    Store(u64),
    /// The file is no journal.
    #[error("the file is no journal")]
    Foreign,
    /// This record, counted from 0, is none, or can't come behind those before it.
    #[error("record {0} of the journal is none")]
    BadRecord(u64),
    /// Memory ran out.
    #[error("memory ran out")]
    NoMemory,
}

impl From<NoMemory> for PadBad {
    ghost use Rattle.std.specs.Prelude.{◌≡◌};
    ghost use Rattle.ep_history.specs.declared.pad_bad.PadBad.TheVariants as bad;

    ghost from_gives = { λ _ e. e ≡ bad.NoMemory };

    fn from(_error: NoMemory) -> PadBad {
        PadBad::NoMemory
    }
}

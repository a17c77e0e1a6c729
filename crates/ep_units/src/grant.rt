//! Leave to enter a pad.

use crate::pad_id::PadId;
use crate::units::Units;

/// Leave to enter a pad, as a directory gives it.
#[derive(Drop)]
pub struct Grant {
    pub pad: PadId,
    /// The id that was asked for: the pad's own, or its read-only one.
    pub asked: Units,
    /// The author of the group's session for a member, or else of the token.
    pub author: Units,
    pub token_author: Units,
    /// Whether a session of the pad's group gave it.
    pub member: bool,
    pub read_only: bool,
}

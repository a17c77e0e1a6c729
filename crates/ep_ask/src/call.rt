//! What a request asks for.

use ep_units::{PadId, Units};

/// A function with its parameters.
#[derive(Drop)]
pub enum Call {
    CreateGroup,
    CreateGroupIfNotExistsFor {
        mapper: Units,
    },
    DeleteGroup {
        group: Units,
    },
    ListPads {
        group: Units,
    },
    ListAllGroups,
    CreateGroupPad {
        group: Units,
        name: Units,
        text: Units,
    },
    CreateAuthor {
        name: Units,
    },
    CreateAuthorIfNotExistsFor {
        mapper: Units,
        name: Option<Units>,
    },
    GetAuthorName {
        author: Units,
    },
    CreateSession {
        group: Units,
        author: Units,
        /// In seconds.
        valid_until: u64,
    },
    DeleteSession {
        session: Units,
    },
    GetSessionInfo {
        session: Units,
    },
    ListSessionsOfGroup {
        group: Units,
    },
    ListSessionsOfAuthor {
        author: Units,
    },
    CreatePad {
        pad: PadId,
        text: Units,
    },
    DeletePad {
        pad: PadId,
    },
    /// The text of a revision, or of the head.
    GetText {
        pad: PadId,
        rev: Option<u64>,
    },
    SetText {
        pad: PadId,
        text: Units,
    },
    GetRevisionsCount {
        pad: PadId,
    },
    GetLastEdited {
        pad: PadId,
    },
    PadUsersCount {
        pad: PadId,
    },
    GetReadOnlyId {
        pad: PadId,
    },
    SetPublicStatus {
        pad: PadId,
        on: bool,
    },
    GetPublicStatus {
        pad: PadId,
    },
    CheckToken,
}

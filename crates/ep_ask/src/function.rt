//! The functions by their names.

ghost use Rattle.std.specs.Prelude.{◌≡◌};
ghost use Rattle.ep_ask.specs.Names.{function_named};

/// A function of the API. What it does is told by its `Call`.
#[derive(Clone, Copy, Debug, PartialEq, Eq)]
pub enum Function {
    CreateGroup,
    CreateGroupIfNotExistsFor,
    DeleteGroup,
    ListPads,
    ListAllGroups,
    CreateGroupPad,
    CreateAuthor,
    CreateAuthorIfNotExistsFor,
    GetAuthorName,
    CreateSession,
    DeleteSession,
    GetSessionInfo,
    ListSessionsOfGroup,
    ListSessionsOfAuthor,
    CreatePad,
    DeletePad,
    GetText,
    SetText,
    GetRevisionsCount,
    GetLastEdited,
    PadUsersCount,
    GetReadOnlyId,
    SetPublicStatus,
    GetPublicStatus,
    CheckToken,
}

impl Function {
    /// The function of this name.
    pub fn named(name: &str) -> Option<Function>
        ensures { result ≡ function_named name.now }
    {
        match name {
            "createGroup" => Some(Function::CreateGroup),
            "createGroupIfNotExistsFor" => Some(Function::CreateGroupIfNotExistsFor),
            "deleteGroup" => Some(Function::DeleteGroup),
            "listPads" => Some(Function::ListPads),
            "listAllGroups" => Some(Function::ListAllGroups),
            "createGroupPad" => Some(Function::CreateGroupPad),
            "createAuthor" => Some(Function::CreateAuthor),
            "createAuthorIfNotExistsFor" => Some(Function::CreateAuthorIfNotExistsFor),
            "getAuthorName" => Some(Function::GetAuthorName),
            "createSession" => Some(Function::CreateSession),
            "deleteSession" => Some(Function::DeleteSession),
            "getSessionInfo" => Some(Function::GetSessionInfo),
            "listSessionsOfGroup" => Some(Function::ListSessionsOfGroup),
            "listSessionsOfAuthor" => Some(Function::ListSessionsOfAuthor),
            "createPad" => Some(Function::CreatePad),
            "deletePad" => Some(Function::DeletePad),
            "getText" => Some(Function::GetText),
            "setText" => Some(Function::SetText),
            "getRevisionsCount" => Some(Function::GetRevisionsCount),
            "getLastEdited" => Some(Function::GetLastEdited),
            "padUsersCount" => Some(Function::PadUsersCount),
            "getReadOnlyID" => Some(Function::GetReadOnlyId),
            "setPublicStatus" => Some(Function::SetPublicStatus),
            "getPublicStatus" => Some(Function::GetPublicStatus),
            "checkToken" => Some(Function::CheckToken),
            _ => None,
        }
    }
}

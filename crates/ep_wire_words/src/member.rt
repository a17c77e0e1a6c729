//! The members of messages, by name.

ghost use Rattle.std.specs.Prelude.{◌≡◌};
ghost use Rattle.ep_wire_words.specs.Members.{name};

/// A member of a message, or of an object in one.
#[derive(Clone, Copy, Debug, PartialEq, Eq)]
pub enum Member {
    Type,
    PadId,
    Token,
    SessionId,
    Reconnect,
    ClientRev,
    Birth,
    Author,
    Data,
    BaseRev,
    Changeset,
    Apool,
    Start,
    Granularity,
    RequestId,
    CollabClientVars,
    InitialAttributedText,
    Attribs,
    Text,
    Rev,
    Time,
    Readonly,
    Session,
    UserId,
    NewRev,
    CurrentTime,
    TimeDelta,
    Current,
    HeadRev,
    NoChanges,
    ActualEndNum,
    BackwardsChangesets,
    ForwardsChangesets,
    Disconnect,
    AccessStatus,
}

impl Member {
    /// Its name in JSON.
    pub fn name(self) -> &'static str
        ensures { result.now ≡ name self }
    {
        match self {
            Member::Type => "type",
            Member::PadId => "padId",
            Member::Token => "token",
            Member::SessionId => "sessionID",
            Member::Reconnect => "reconnect",
            Member::ClientRev => "client_rev",
            Member::Birth => "birth",
            Member::Author => "author",
            Member::Data => "data",
            Member::BaseRev => "baseRev",
            Member::Changeset => "changeset",
            Member::Apool => "apool",
            Member::Start => "start",
            Member::Granularity => "granularity",
            Member::RequestId => "requestID",
            Member::CollabClientVars => "collab_client_vars",
            Member::InitialAttributedText => "initialAttributedText",
            Member::Attribs => "attribs",
            Member::Text => "text",
            Member::Rev => "rev",
            Member::Time => "time",
            Member::Readonly => "readonly",
            Member::Session => "session",
            Member::UserId => "userId",
            Member::NewRev => "newRev",
            Member::CurrentTime => "currentTime",
            Member::TimeDelta => "timeDelta",
            Member::Current => "current",
            Member::HeadRev => "headRev",
            Member::NoChanges => "noChanges",
            Member::ActualEndNum => "actualEndNum",
            Member::BackwardsChangesets => "backwardsChangesets",
            Member::ForwardsChangesets => "forwardsChangesets",
            Member::Disconnect => "disconnect",
            Member::AccessStatus => "accessStatus",
        }
    }
}

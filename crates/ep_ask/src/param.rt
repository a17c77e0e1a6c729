//! The parameters of functions.

ghost use Rattle.std.specs.Prelude.{◌≡◌};
ghost use Rattle.ep_ask.specs.Names.{param_name};

/// A parameter of a function, or the key.
#[derive(Clone, Copy, Debug, PartialEq, Eq)]
pub enum Param {
    ApiKey,
    GroupId,
    GroupMapper,
    PadName,
    AuthorId,
    AuthorMapper,
    Name,
    ValidUntil,
    SessionId,
    PadId,
    Text,
    Rev,
    PublicStatus,
}

impl Param {
    pub fn name(self) -> &'static str
        ensures { result.now ≡ param_name self }
    {
        match self {
            Param::ApiKey => "apikey",
            Param::GroupId => "groupID",
            Param::GroupMapper => "groupMapper",
            Param::PadName => "padName",
            Param::AuthorId => "authorID",
            Param::AuthorMapper => "authorMapper",
            Param::Name => "name",
            Param::ValidUntil => "validUntil",
            Param::SessionId => "sessionID",
            Param::PadId => "padID",
            Param::Text => "text",
            Param::Rev => "rev",
            Param::PublicStatus => "publicStatus",
        }
    }
}

//! The directory as a machine: its calls as entries with replies.

ghost use Rattle.std.specs.Prelude.{◌≡◌, List, [], ◌∷◌, ◌++◌};
ghost use Rattle.ep_groups.specs.History.{Step};
ghost use Rattle.ep_dir_records.specs.Answers.{Answers};
ghost use Rattle.ep_groups.specs.Directory.{create_session};
ghost use Rattle.ep_groups.specs.Policy.{grant};

use crate::dir_machine::DirMachine;
use ep_dir_records::{DirBad, Drawn, Listed, SessionInfo};
use ep_outside::{Keeper, Machine};
use ep_units::{Grant, PadId, Units};

/// A call of the directory. Each may be made at any time.
#[derive(Drop)]
pub enum DirEntry {
    CreateGroup(Drawn),
    GroupFor(Units, Drawn),
    DeleteGroup(Units),
    Groups,
    AddGroupPad(Units, Units),
    DropGroupPad(PadId),
    GroupPads(Units),
    CreateAuthor(Units, Drawn),
    AuthorFor(Units, Option<Units>, Drawn),
    AuthorName(Units),
    CreateSession(SessionAsked),
    DeleteSession(Units),
    Session(Units),
    SessionsOfGroup(Units),
    SessionsOfAuthor(Units),
    ReadOnly(PadId, Drawn),
    Grant(GrantAsked),
}

/// What `create_session` is given.
#[derive(Drop)]
pub struct SessionAsked {
    pub group: Units,
    pub author: Units,
    pub valid_until: u64,
    /// The present moment, in seconds.
    pub at: u64,
    pub drawn: Drawn,
}

/// What `grant` is given.
#[derive(Drop)]
pub struct GrantAsked {
    pub asked: Units,
    pub sessions: Listed<Units>,
    pub token: Units,
    /// The present moment, in seconds.
    pub at: u64,
    pub drawn: Drawn,
}

/// What a call answered.
#[derive(Drop)]
pub enum DirReply {
    /// An id or a name.
    Text(Result<Units, DirBad>),
    Texts(Result<Listed<Units>, DirBad>),
    Done(Result<(), DirBad>),
    Pad(Result<PadId, DirBad>),
    Pads(Result<Listed<PadId>, DirBad>),
    Session(Result<SessionInfo, DirBad>),
    Sessions(Result<Listed<SessionInfo>, DirBad>),
    Grant(Result<Grant, DirBad>),
}

impl<K: Keeper> DirMachine<K> {
    fn answer(&mut self, entry: &DirEntry) -> DirReply
        ensures { Step self.old self.new entry.now result }
    {
        match entry {
            DirEntry::CreateGroup(drawn) => DirReply::Text(self.create_group(*drawn)),
            DirEntry::GroupFor(mapper, drawn) => DirReply::Text(self.group_for(mapper, *drawn)),
            DirEntry::DeleteGroup(group) => DirReply::Done(self.delete_group(group)),
            DirEntry::Groups => DirReply::Texts(self.groups()),
            DirEntry::AddGroupPad(group, name) => DirReply::Pad(self.add_group_pad(group, name)),
            DirEntry::DropGroupPad(pad) => DirReply::Done(self.drop_group_pad(pad)),
            DirEntry::GroupPads(group) => DirReply::Pads(self.group_pads(group)),
            DirEntry::CreateAuthor(name, drawn) => DirReply::Text(self.create_author(name, *drawn)),
            DirEntry::AuthorFor(mapper, name, drawn) => DirReply::Text(self.author_for(
                mapper,
                name.as_ref(),
                *drawn,
            )),
            DirEntry::AuthorName(author) => DirReply::Text(self.author_name(author)),
            DirEntry::CreateSession(asked) => DirReply::Text(self.session_asked(asked)),
            DirEntry::DeleteSession(id) => DirReply::Done(self.delete_session(id)),
            DirEntry::Session(id) => DirReply::Session(self.session(id)),
            DirEntry::SessionsOfGroup(group) => DirReply::Sessions(self.sessions_of_group(group)),
            DirEntry::SessionsOfAuthor(author) => DirReply::Sessions(self.sessions_of_author(
                author,
            )),
            DirEntry::ReadOnly(pad, drawn) => DirReply::Text(self.read_only(pad, *drawn)),
            DirEntry::Grant(asked) => DirReply::Grant(self.grant_asked(asked)),
        }
    }

    fn session_asked(&mut self, asked: &SessionAsked) -> Result<Units, DirBad>
        ensures { Answers self.old self.new (create_session asked.now.group asked.now.author asked.now.valid_until asked.now.at asked.now.drawn.digits) result }
    {
        self.create_session(
            &asked.group,
            &asked.author,
            asked.valid_until,
            asked.at,
            asked.drawn,
        )
    }

    fn grant_asked(&mut self, asked: &GrantAsked) -> Result<Grant, DirBad>
        ensures { Answers self.old self.new (grant asked.now.asked asked.now.sessions asked.now.token asked.now.at asked.now.drawn.digits) result }
    {
        self.grant(
            &asked.asked,
            asked.sessions.as_slice(),
            &asked.token,
            asked.at,
            asked.drawn,
        )
    }
}

impl<K: Keeper + Drop> Machine for DirMachine<K> {
    ghost use Rattle.ep_groups.specs.History.{IsLegal, Stands};

    type Entry = DirEntry;

    type Reply = DirReply;

    ghost allows = { λ _. Unit {0} };

    ghost stands = { Stands K.always_tells };

    ghost legal = { IsLegal K.always_tells };

    ghost stands_legal = { λ first m h s. (m, s) };

    fn call(&mut self, entry: DirEntry) -> DirReply {
        let reply = self.answer(&entry);
        self.records.tells();
        reply
    }
}

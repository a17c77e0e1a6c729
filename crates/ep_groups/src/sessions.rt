//! Sessions of groups.

ghost use Rattle.std.specs.Prelude.{◌≡◌, ◌∷◌, [], IfOk, Ok};
ghost use Rattle.ep_dir_records.specs.Keys.{count_put, gone, key};
ghost use Rattle.ep_dir_records.specs.declared.ids.IdKind.TheVariants as id;
ghost use Rattle.ep_dir_records.specs.Answers.{Answers, Reads, only};
ghost use Rattle.ep_groups.specs.Directory.{create_session, delete_session, made, session_put, sessions_of_author, sessions_of_group};
ghost use Rattle.ep_dir_records.specs.Readings.{name_of, not_past, of_author, of_group, session, sessions};

use crate::dir_machine::DirMachine;
use crate::groups::only_of_group;
use ep_dir_records::{DirBad, Drawn, IdKind, Kind, Listed, Puts, SessionInfo, session_text};
use ep_outside::Keeper;
use ep_units::{NoMemory, Units};
use std::alloc::Global;

impl<K: Keeper> DirMachine<K> {
    fn planned_session(
        &mut self,
        group: &Units,
        author: &Units,
        valid_until: u64,
        now: u64,
        drawn: &Drawn,
    ) -> Result<(Units, Puts), DirBad>
        ensures { Reads self.old self.new (create_session group.now author.now valid_until now drawn.now.digits) result }
    {
        self.records.in_group(group)?;
        self.records.name_of(author)?;
        if valid_until <= now {
            return Err(DirBad::Past(now));
        }
        let (session, n) = self.records.new_id(IdKind::Session, drawn)?;
        let puts = session_puts(self.alloc, group, author, valid_until, &session, n)?;
        Ok((session, puts))
    }

    /// A session of a group for an author, which ends at `valid_until`, in seconds as `now` is.
    pub fn create_session(
        &mut self,
        group: &Units,
        author: &Units,
        valid_until: u64,
        now: u64,
        drawn: Drawn,
    ) -> Result<Units, DirBad>
        ensures { Answers self.old self.new (create_session group.now author.now valid_until now drawn.digits) result }
    {
        let (session, puts) = self.planned_session(group, author, valid_until, now, &drawn)?;
        self.records.commit(session, puts)
    }

    fn planned_end(&mut self, id: &Units) -> Result<((), Puts), DirBad>
        ensures { Reads self.old self.new (delete_session id.now) result }
    {
        self.records.session_of(id)?;
        let puts = gone_puts(self.alloc, id)?;
        Ok(((), puts))
    }

    /// Deletes a session.
    pub fn delete_session(&mut self, id: &Units) -> Result<(), DirBad>
        ensures { Answers self.old self.new (delete_session id.now) result }
    {
        let ((), puts) = self.planned_end(id)?;
        self.records.commit((), puts)
    }

    /// What a session stands for, also where its end is past.
    pub fn session(&mut self, id: &Units) -> Result<SessionInfo, DirBad>
        ensures { Answers self.old self.new (only (session id.now)) result }
    {
        self.records.session_of(id)
    }

    fn group_sessions(&mut self, group: &Units) -> Result<Listed<SessionInfo>, DirBad>
        ensures { Reads self.old self.new (sessions_of_group group.now) result }
    {
        self.records.in_group(group)?;
        let infos = self.records.all_sessions()?;
        Ok(only_of_group(infos, group))
    }

    /// The sessions of a group.
    pub fn sessions_of_group(&mut self, group: &Units) -> Result<Listed<SessionInfo>, DirBad>
        ensures { Answers self.old self.new (only (sessions_of_group group.now)) result }
    {
        self.group_sessions(group)
    }

    fn author_sessions(&mut self, author: &Units) -> Result<Listed<SessionInfo>, DirBad>
        ensures { Reads self.old self.new (sessions_of_author author.now) result }
    {
        self.records.name_of(author)?;
        let infos = self.records.all_sessions()?;
        Ok(only_of_author(infos, author))
    }

    /// The sessions of an author.
    pub fn sessions_of_author(&mut self, author: &Units) -> Result<Listed<SessionInfo>, DirBad>
        ensures { Answers self.old self.new (only (sessions_of_author author.now)) result }
    {
        self.author_sessions(author)
    }
}

fn session_puts(
    alloc: Global,
    group: &Units,
    author: &Units,
    valid_until: u64,
    session: &Units,
    n: u64,
) -> Result<Puts, NoMemory>
    ensures { IfOk result (λ puts. puts ≡ count_put n ∷ session_put group.now author.now valid_until session.now) }
{
    let text = session_text(alloc, group, author, valid_until)?;
    let mut puts = Puts::new(alloc);
    puts.put_count(alloc, n)?;
    puts.put(alloc, Kind::Session, session, text)?;
    Ok(puts)
}

fn gone_puts(alloc: Global, id: &Units) -> Result<Puts, NoMemory>
    ensures { IfOk result (λ puts. puts ≡ gone (key Kind.Session id.now) ∷ []) }
{
    let mut puts = Puts::new(alloc);
    puts.remove(alloc, Kind::Session, id)?;
    Ok(puts)
}

fn only_of_author(infos: Listed<SessionInfo>, author: &Units) -> Listed<SessionInfo>
    ensures { result ≡ of_author author.now infos }
{
    let mut items = infos.items;
    items.retain(|info| info.author == *author);
    Listed { items }
}

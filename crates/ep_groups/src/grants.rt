//! Leave to enter a pad, as far as the directory gives it.

ghost use Rattle.std.specs.Prelude.{◌≡◌, ◌∷◌, [], IfOk, Ok, nat_eq, codes, true, false};
ghost use Rattle.std.specs.List.{starts_with};
ghost use Rattle.ep_units.specs.PadId.{group_of};
ghost use Rattle.ep_units.specs.Text.{text_eq};
ghost use Rattle.ep_dir_records.specs.Keys.{count_put, key};
ghost use Rattle.ep_dir_records.specs.Values.{pad_in, own};
ghost use Rattle.ep_dir_records.specs.declared.ids.IdKind.TheVariants as id;
ghost use Rattle.ep_dir_records.specs.Answers.{Answers, Reads};
ghost use Rattle.ep_groups.specs.Directory.{made, old_or};
ghost use Rattle.ep_groups.specs.Members.{DecidesMember};
ghost use Rattle.ep_groups.specs.Policy.{grant, granted, is_member, is_read_only_id, member, member_of, own_pad, pad_asked, pad_behind, token_author, token_put};
ghost use Rattle.ep_dir_records.specs.Readings.{needed, there};
ghost use Rattle.ep_dir_records.specs.declared.dir_bad.DirBad.TheVariants.{Denied};

use crate::dir_machine::DirMachine;
use ep_dir_records::{DirBad, Drawn, IdKind, Kind, Puts, Records, SessionInfo};
use ep_outside::Keeper;
use ep_units::{Grant, NoMemory, PadId, Units};
use std::alloc::Global;

// How read-only ids begin.
const READ_ONLY: [u16; 2] = [b'r' as u16, b'.' as u16];

impl<K: Keeper> DirMachine<K> {
    fn token_author(&mut self, token: &Units, drawn: &Drawn) -> Result<(Units, Puts), DirBad>
        ensures { Reads self.old self.new (token_author token.now drawn.now.digits) result }
    {
        let old = self.records.read_id(IdKind::Author, Kind::Token, token)?;
        if let Some(author) = old {
            return Ok((author, Puts::new(self.alloc)));
        }
        let (author, n) = self.records.new_id(IdKind::Author, drawn)?;
        let puts = token_puts(self.alloc, token, &author, n)?;
        Ok((author, puts))
    }

    fn member_in(
        &mut self,
        pad: &PadId,
        now: u64,
        sessions: &[Units],
    ) -> Result<Option<Units>, DirBad>
        ensures { Reads self.old self.new (member_of (group_of pad.now) now sessions.now) result }
    {
        match pad.group() {
            Some(group) => member(&mut self.records, group, now, sessions),
            None => Ok(None),
        }
    }

    fn pad_asked(&mut self, asked: &Units) -> Result<(PadId, bool), DirBad>
        ensures { Reads self.old self.new (pad_asked asked.now) result }
    {
        if is_read_only_id(asked.as_slice()) {
            let found = self.records.read_pad(asked)?;
            let pad = self.records.needed(found, DirBad::Denied(2))?;
            return Ok((pad, true));
        }
        let found = PadId::read(self.alloc, asked)?;
        let pad = self.records.needed(found, DirBad::Denied(1))?;
        Ok((pad, false))
    }

    fn granted(
        &self,
        asked: &Units,
        pad: PadId,
        read_only: bool,
        member: Option<Units>,
        author: Units,
        puts: Puts,
    ) -> Result<(Grant, Puts), DirBad>
        ensures { Reads self.now self.now (λ _. Ok (granted asked.now (pad, read_only) member author, puts)) result }
    {
        let is_member = member.is_some();
        let token_author = author.copy(self.alloc)?;
        let asked = asked.copy(self.alloc)?;
        let grant = Grant {
            pad,
            asked,
            author: member.unwrap_or(author),
            token_author,
            member: is_member,
            read_only,
        };
        Ok((grant, puts))
    }

    fn planned_grant(
        &mut self,
        asked: &Units,
        sessions: &[Units],
        token: &Units,
        now: u64,
        drawn: &Drawn,
    ) -> Result<(Grant, Puts), DirBad>
        ensures { Reads self.old self.new (grant asked.now sessions.now token.now now drawn.now.digits) result }
    {
        let (pad, read_only) = self.pad_asked(asked)?;
        let found = self.member_in(&pad, now, sessions)?;
        let (author, puts) = self.token_author(token, drawn)?;
        self.granted(asked, pad, read_only, found, author, puts)
    }

    /// Leave to enter the pad that an id stands for, at `now` in seconds. The sessions are those that
    /// the caller lists, in its order. An unknown token gets a new author.
    pub fn grant(
        &mut self,
        asked: &Units,
        sessions: &[Units],
        token: &Units,
        now: u64,
        drawn: Drawn,
    ) -> Result<Grant, DirBad>
        ensures { Answers self.old self.new (grant asked.now sessions.now token.now now drawn.digits) result }
    {
        let (grant, puts) = self.planned_grant(asked, sessions, token, now, &drawn)?;
        self.records.commit(grant, puts)
    }
}

// The author of the first session that is there, of the group and unexpired.
fn member<K: Keeper>(
    records: &mut Records<K>,
    group: &[u16],
    now: u64,
    sessions: &[Units],
) -> Result<Option<Units>, DirBad>
    ensures { Reads records.old records.new (member group.now now sessions.now) result }
{
    let mut at = 0;
    while at < sessions.len() {
        let info = records.read_session(&sessions[at])?;
        if let Some(author) = member_author(group, now, info) {
            return Ok(Some(author));
        }
        at += 1;
    }
    Ok(None)
}

fn is_text(text: &Units, units: &[u16]) -> bool
    ensures { result ≡ text_eq text.now units.now }
{
    text.as_slice() == units
}

fn is_member(group: &[u16], now: u64, info: &SessionInfo) -> bool
    ensures { result ≡ is_member group.now now info.now }
{
    is_text(&info.group, group) && now < info.valid_until
}

fn member_author(group: &[u16], now: u64, info: Option<SessionInfo>) -> Option<Units>
    ensures { DecidesMember group.now now info result }
{
    let Some(info) = info else { return None };
    if is_member(group, now, &info) {
        Some(info.author)
    } else {
        None
    }
}

fn is_read_only_id(asked: &[u16]) -> bool
    ensures { result ≡ is_read_only_id asked.now }
{
    asked.starts_with(&READ_ONLY)
}

fn token_puts(alloc: Global, token: &Units, author: &Units, n: u64) -> Result<Puts, NoMemory>
    ensures { IfOk result (λ puts. puts ≡ count_put n ∷ token_put token.now author.now) }
{
    let mut puts = Puts::new(alloc);
    puts.put_count(alloc, n)?;
    puts.put_mark(alloc, Kind::Author, author)?;
    puts.put_text(alloc, Kind::Token, token, author)?;
    Ok(puts)
}

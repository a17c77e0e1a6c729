//! Records read one by one and in lists, and new ids.

ghost use Rattle.std.specs.Prelude.{◌≡◌, ◌+◌, ◌++◌, ◌∷◌, [], Ok, Some, codes, unwrap_or, IfOk};
ghost use Rattle.ep_outside.specs.Kept.{listed};
ghost use Rattle.ep_dir_records.specs.Keys.{key, name_of_key};
ghost use Rattle.ep_dir_records.specs.Values.{count_in, empty_in, id_in, name_in, pad_in, session_in, own};
ghost use Rattle.ep_dir_records.specs.Answers.{IsOwn, Reads};
ghost use Rattle.ep_dir_records.specs.Readings.{each, formed, group_at, groups, if_there, in_group, name_of, new_id, numbered, pad_at, pads_of, read, session, session_at, sessions, there};

use crate::dir_bad::DirBad;
use crate::ids::{Drawn, IdKind, MOST_IDS};
use crate::keys::{Kind, key_text, name_of_key};
use crate::listed::Listed;
use crate::records::Records;
use crate::values::{SessionInfo, count_in, id_in, is_empty, name_in, pad_in, session_in};
use ep_outside::{Keeper, Pair, Pairs, Text};
use ep_units::{NoMemory, PadId, Units};
use std::alloc::Global;

// Between a group and the name of its pad.
const DOLLAR: u16 = b'$' as u16;

impl<K: Keeper> Records<K> {
    fn read_count(&mut self) -> Result<Option<u64>, DirBad>
        ensures { Reads self.old self.new (read count_in (codes "n")) result }
    {
        let (key, value) = self.found_count()?;
        let Some(text) = value else { return Ok(None) };
        match count_in(self.alloc, text.as_str())? {
            Some(n) => Ok(Some(n)),
            None => Err(self.kept(&key)),
        }
    }

    pub fn read_mark(&mut self, kind: Kind, name: &Units) -> Result<Option<()>, DirBad>
        ensures { Reads self.old self.new (read empty_in (key kind name.now)) result }
    {
        let (key, value) = self.found(kind, name)?;
        let Some(text) = value else { return Ok(None) };
        if is_empty(text.as_str()) {
            Ok(Some(()))
        } else {
            Err(self.kept(&key))
        }
    }

    pub fn read_id(
        &mut self,
        id_kind: IdKind,
        kind: Kind,
        name: &Units,
    ) -> Result<Option<Units>, DirBad>
        ensures { Reads self.old self.new (read (id_in id_kind) (key kind name.now)) result }
    {
        let (key, value) = self.found(kind, name)?;
        let Some(text) = value else { return Ok(None) };
        match id_in(self.alloc, id_kind, text.as_str())? {
            Some(id) => Ok(Some(id)),
            None => Err(self.kept(&key)),
        }
    }

    fn read_name(&mut self, author: &Units) -> Result<Option<Units>, DirBad>
        ensures { Reads self.old self.new (read name_in (key Kind.Author author.now)) result }
    {
        let (_key, value) = self.found(Kind::Author, author)?;
        let Some(text) = value else { return Ok(None) };
        let name = name_in(self.alloc, text.as_str())?;
        Ok(Some(name))
    }

    pub fn read_pad(&mut self, read_only_id: &Units) -> Result<Option<PadId>, DirBad>
        ensures { Reads self.old self.new (read pad_in (key Kind.ReadOnly read_only_id.now)) result }
    {
        let (key, value) = self.found(Kind::ReadOnly, read_only_id)?;
        let Some(text) = value else { return Ok(None) };
        match pad_in(self.alloc, text.as_str())? {
            Some(pad) => Ok(Some(pad)),
            None => Err(self.kept(&key)),
        }
    }

    pub fn read_session(&mut self, id: &Units) -> Result<Option<SessionInfo>, DirBad>
        ensures { Reads self.old self.new (read (session_in id.now) (key Kind.Session id.now)) result }
    {
        let (key, value) = self.found(Kind::Session, id)?;
        let Some(text) = value else { return Ok(None) };
        match session_in(self.alloc, id, text.as_str())? {
            Some(info) => Ok(Some(info)),
            None => Err(self.kept(&key)),
        }
    }

    // What has to be there.
    pub fn needed<T>(&self, found: Option<T>, bad: DirBad) -> Result<T, DirBad>
        requires { IsOwn bad }
        ensures { Reads self.now self.now (λ _. there bad found) result }
    {
        match found {
            Some(x) => Ok(x),
            None => Err(bad),
        }
    }

    pub fn in_group(&mut self, group: &Units) -> Result<(), DirBad>
        ensures { Reads self.old self.new (in_group group.now) result }
    {
        let mark = self.read_mark(Kind::Group, group)?;
        self.needed(mark, DirBad::NoGroup)
    }

    pub fn name_of(&mut self, author: &Units) -> Result<Units, DirBad>
        ensures { Reads self.old self.new (name_of author.now) result }
    {
        let name = self.read_name(author)?;
        self.needed(name, DirBad::NoAuthor)
    }

    pub fn session_of(&mut self, id: &Units) -> Result<SessionInfo, DirBad>
        ensures { Reads self.old self.new (session id.now) result }
    {
        let info = self.read_session(id)?;
        self.needed(info, DirBad::NoSession)
    }

    /// A new id, and how many are given with it.
    pub fn new_id(&mut self, kind: IdKind, drawn: &Drawn) -> Result<(Units, u64), DirBad>
        ensures { Reads self.old self.new (new_id kind drawn.now.digits) result }
    {
        let n = self.read_count()?.unwrap_or(0);
        if n >= MOST_IDS {
            return Err(DirBad::IdsSpent);
        }
        let id = crate::ids::new_id(self.alloc, kind, drawn, n)?;
        Ok((id, n + 1))
    }

    // What has to have its key's form.
    fn formed<T>(&self, key: &Text, found: Option<T>) -> Result<T, DirBad>
        ensures { Reads self.now self.now (λ _. formed key.now found) result }
    {
        match found {
            Some(x) => Ok(x),
            None => Err(self.kept(key)),
        }
    }

    fn session_at(&self, pair: &Pair) -> Result<SessionInfo, DirBad>
        ensures { Reads self.now self.now (λ _. session_at pair.now) result }
    {
        let id = name_of_key(self.alloc, pair.key.as_str())?;
        let found = session_in(self.alloc, &id, pair.value.as_str())?;
        self.formed(&pair.key, found)
    }

    fn group_at(&self, pair: &Pair) -> Result<Units, DirBad>
        ensures { Reads self.now self.now (λ _. group_at pair.now) result }
    {
        if !is_empty(pair.value.as_str()) {
            return Err(self.kept(&pair.key));
        }
        let name = name_of_key(self.alloc, pair.key.as_str())?;
        Ok(name)
    }

    fn pad_in_key(&self, pair: &Pair) -> Result<PadId, DirBad>
        ensures { Reads self.now self.now (λ _. formed pair.now.key (own (name_of_key pair.now.key))) result }
    {
        let name = name_of_key(self.alloc, pair.key.as_str())?;
        let found = PadId::read(self.alloc, &name)?;
        self.formed(&pair.key, found)
    }

    fn pad_at(&self, pair: &Pair) -> Result<PadId, DirBad>
        ensures { Reads self.now self.now (λ _. pad_at pair.now) result }
    {
        if !is_empty(pair.value.as_str()) {
            return Err(self.kept(&pair.key));
        }
        self.pad_in_key(pair)
    }

    fn groups_in(&self, pairs: &[Pair]) -> Result<Listed<Units>, DirBad>
        ensures { Reads self.now self.now (λ _. each group_at pairs.now) result }
    {
        let mut groups = Listed::new(self.alloc);
        for pair in pairs {
            let group = self.group_at(pair)?;
            groups.push(group)?;
        }
        Ok(groups)
    }

    fn sessions_in(&self, pairs: &[Pair]) -> Result<Listed<SessionInfo>, DirBad>
        ensures { Reads self.now self.now (λ _. each session_at pairs.now) result }
    {
        let mut infos = Listed::new(self.alloc);
        for pair in pairs {
            let info = self.session_at(pair)?;
            infos.push(info)?;
        }
        Ok(infos)
    }

    fn pads_in(&self, pairs: &[Pair]) -> Result<Listed<PadId>, DirBad>
        ensures { Reads self.now self.now (λ _. each pad_at pairs.now) result }
    {
        let mut pads = Listed::new(self.alloc);
        for pair in pairs {
            let pad = self.pad_at(pair)?;
            pads.push(pad)?;
        }
        Ok(pads)
    }

    pub fn all_groups(&mut self) -> Result<Listed<Units>, DirBad>
        ensures { Reads self.old self.new groups result }
    {
        let pairs = self.pairs_of(Kind::Group)?;
        self.groups_in(pairs.as_slice())
    }

    pub fn all_sessions(&mut self) -> Result<Listed<SessionInfo>, DirBad>
        ensures { Reads self.old self.new sessions result }
    {
        let pairs = self.pairs_of(Kind::Session)?;
        self.sessions_in(pairs.as_slice())
    }

    fn pairs_of_group(&mut self, group: &Units) -> Result<Pairs, DirBad>
        ensures { Reads self.old self.new (λ m. Ok (listed m (key Kind.GroupPad (group.now ++ codes "$")))) result }
    {
        let start = with_dollar(self.alloc, group)?;
        let key = key_text(self.alloc, Kind::GroupPad, &start)?;
        self.pairs(key.as_str())
    }

    pub fn pads_of(&mut self, group: &Units) -> Result<Listed<PadId>, DirBad>
        ensures { Reads self.old self.new (pads_of group.now) result }
    {
        let pairs = self.pairs_of_group(group)?;
        self.pads_in(pairs.as_slice())
    }
}

/// The group and `$`, with which the ids of its pads begin.
pub fn with_dollar(alloc: Global, group: &Units) -> Result<Units, NoMemory>
    ensures { IfOk result (λ text. text ≡ group.now ++ codes "$") }
{
    let mut text = group.copy(alloc)?;
    text.push(DOLLAR)?;
    Ok(text)
}

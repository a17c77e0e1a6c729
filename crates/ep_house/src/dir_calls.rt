//! The calls of the directory's port. A call copies what it is given by reference, since an entry owns its values.

use crate::copying::{copied_all, copied_name};
use crate::directory::{DirPass, Directory};
use ep_groups::{DirBad, DirEntry, DirPort, Drawn, GrantAsked, Listed, SessionAsked, SessionInfo};
use ep_outside::Keeper;
use ep_units::{Grant, PadId, Units};
use std::sync::Wait;

impl<K: Keeper + Drop> DirPort for Directory<K> {
    ghost use Rattle.ep_cell.specs.Passes as cell;

    type Store = K;

    type Pass = DirPass<K>;

    ghost begun = { λ directory. cell.first_of directory.cell };

    ghost is_of = { λ directory pass. cell.IsFrom directory.cell pass.pass };

    ghost known = { λ pass. cell.known pass.pass };

    fn pass<R: Wait>(&self, rt: &R) -> DirPass<K> {
        DirPass {
            pass: self.cell.new_pass(rt),
        }
    }

    fn create_group<R: Wait>(
        &self,
        rt: &R,
        pass: &mut DirPass<K>,
        drawn: Drawn,
    ) -> Result<Units, DirBad> {
        self.text(rt, pass, DirEntry::CreateGroup(drawn))
    }

    fn group_for<R: Wait>(
        &self,
        rt: &R,
        pass: &mut DirPass<K>,
        mapper: &Units,
        drawn: Drawn,
    ) -> Result<Units, DirBad> {
        let mapper = mapper.copy(self.alloc)?;
        self.text(rt, pass, DirEntry::GroupFor(mapper, drawn))
    }

    fn delete_group<R: Wait>(
        &self,
        rt: &R,
        pass: &mut DirPass<K>,
        group: &Units,
    ) -> Result<(), DirBad> {
        let group = group.copy(self.alloc)?;
        self.done(rt, pass, DirEntry::DeleteGroup(group))
    }

    fn groups<R: Wait>(&self, rt: &R, pass: &mut DirPass<K>) -> Result<Listed<Units>, DirBad> {
        self.texts(rt, pass, DirEntry::Groups)
    }

    fn add_group_pad<R: Wait>(
        &self,
        rt: &R,
        pass: &mut DirPass<K>,
        group: &Units,
        name: &Units,
    ) -> Result<PadId, DirBad> {
        let group = group.copy(self.alloc)?;
        let name = name.copy(self.alloc)?;
        self.pad(rt, pass, DirEntry::AddGroupPad(group, name))
    }

    fn drop_group_pad<R: Wait>(
        &self,
        rt: &R,
        pass: &mut DirPass<K>,
        pad: &PadId,
    ) -> Result<(), DirBad> {
        let pad = pad.copy(self.alloc)?;
        self.done(rt, pass, DirEntry::DropGroupPad(pad))
    }

    fn group_pads<R: Wait>(
        &self,
        rt: &R,
        pass: &mut DirPass<K>,
        group: &Units,
    ) -> Result<Listed<PadId>, DirBad> {
        let group = group.copy(self.alloc)?;
        self.pads(rt, pass, DirEntry::GroupPads(group))
    }

    fn create_author<R: Wait>(
        &self,
        rt: &R,
        pass: &mut DirPass<K>,
        name: &Units,
        drawn: Drawn,
    ) -> Result<Units, DirBad> {
        let name = name.copy(self.alloc)?;
        self.text(rt, pass, DirEntry::CreateAuthor(name, drawn))
    }

    fn author_for<R: Wait>(
        &self,
        rt: &R,
        pass: &mut DirPass<K>,
        mapper: &Units,
        name: Option<&Units>,
        drawn: Drawn,
    ) -> Result<Units, DirBad> {
        let mapper = mapper.copy(self.alloc)?;
        let name = copied_name(self.alloc, name)?;
        self.text(rt, pass, DirEntry::AuthorFor(mapper, name, drawn))
    }

    fn author_name<R: Wait>(
        &self,
        rt: &R,
        pass: &mut DirPass<K>,
        author: &Units,
    ) -> Result<Units, DirBad> {
        let author = author.copy(self.alloc)?;
        self.text(rt, pass, DirEntry::AuthorName(author))
    }

    fn create_session<R: Wait>(
        &self,
        rt: &R,
        pass: &mut DirPass<K>,
        group: &Units,
        author: &Units,
        valid_until: u64,
        now: u64,
        drawn: Drawn,
    ) -> Result<Units, DirBad> {
        let group = group.copy(self.alloc)?;
        let author = author.copy(self.alloc)?;
        self.text(
            rt,
            pass,
            DirEntry::CreateSession(SessionAsked {
                group,
                author,
                valid_until,
                at: now,
                drawn,
            }),
        )
    }

    fn delete_session<R: Wait>(
        &self,
        rt: &R,
        pass: &mut DirPass<K>,
        id: &Units,
    ) -> Result<(), DirBad> {
        let id = id.copy(self.alloc)?;
        self.done(rt, pass, DirEntry::DeleteSession(id))
    }

    fn session<R: Wait>(
        &self,
        rt: &R,
        pass: &mut DirPass<K>,
        id: &Units,
    ) -> Result<SessionInfo, DirBad> {
        let id = id.copy(self.alloc)?;
        self.info(rt, pass, DirEntry::Session(id))
    }

    fn sessions_of_group<R: Wait>(
        &self,
        rt: &R,
        pass: &mut DirPass<K>,
        group: &Units,
    ) -> Result<Listed<SessionInfo>, DirBad> {
        let group = group.copy(self.alloc)?;
        self.infos(rt, pass, DirEntry::SessionsOfGroup(group))
    }

    fn sessions_of_author<R: Wait>(
        &self,
        rt: &R,
        pass: &mut DirPass<K>,
        author: &Units,
    ) -> Result<Listed<SessionInfo>, DirBad> {
        let author = author.copy(self.alloc)?;
        self.infos(rt, pass, DirEntry::SessionsOfAuthor(author))
    }

    fn read_only<R: Wait>(
        &self,
        rt: &R,
        pass: &mut DirPass<K>,
        pad: &PadId,
        drawn: Drawn,
    ) -> Result<Units, DirBad> {
        let pad = pad.copy(self.alloc)?;
        self.text(rt, pass, DirEntry::ReadOnly(pad, drawn))
    }

    fn grant<R: Wait>(
        &self,
        rt: &R,
        pass: &mut DirPass<K>,
        asked: &Units,
        sessions: &[Units],
        token: &Units,
        now: u64,
        drawn: Drawn,
    ) -> Result<Grant, DirBad> {
        let asked = asked.copy(self.alloc)?;
        let sessions = copied_all(self.alloc, sessions)?;
        let token = token.copy(self.alloc)?;
        self.granted(
            rt,
            pass,
            DirEntry::Grant(GrantAsked {
                asked,
                sessions,
                token,
                at: now,
                drawn,
            }),
        )
    }
}

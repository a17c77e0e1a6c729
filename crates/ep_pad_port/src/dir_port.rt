//! The calls of the directory's port, which are those of the one directory.

use crate::house::HouseOf;
use ep_groups::{DirBad, DirPort, Drawn, Listed, SessionInfo};
use ep_house::{DirPass, Directory, PadOver};
use ep_outside::{Keeper, Shelf};
use ep_units::{Grant, PadId, Units};
use std::sync::Wait;

impl<H: Shelf + Drop, P: PadOver<H::D>, K: Keeper + Drop> DirPort for HouseOf<H, P, K> {
    type Store = K;

    type Pass = DirPass<K>;

    ghost begun = { λ house. ⟦<Directory<K> as DirPort>⟧.begun house.directory };

    ghost is_of = { λ house pass. ⟦<Directory<K> as DirPort>⟧.is_of house.directory pass };

    ghost known = { λ pass. ⟦<Directory<K> as DirPort>⟧.known pass };

    fn pass<R: Wait>(&self, rt: &R) -> DirPass<K> {
        self.directory.pass(rt)
    }

    fn create_group<R: Wait>(
        &self,
        rt: &R,
        pass: &mut DirPass<K>,
        drawn: Drawn,
    ) -> Result<Units, DirBad> {
        self.directory.create_group(rt, pass, drawn)
    }

    fn group_for<R: Wait>(
        &self,
        rt: &R,
        pass: &mut DirPass<K>,
        mapper: &Units,
        drawn: Drawn,
    ) -> Result<Units, DirBad> {
        self.directory.group_for(rt, pass, mapper, drawn)
    }

    fn delete_group<R: Wait>(
        &self,
        rt: &R,
        pass: &mut DirPass<K>,
        group: &Units,
    ) -> Result<(), DirBad> {
        self.directory.delete_group(rt, pass, group)
    }

    fn groups<R: Wait>(&self, rt: &R, pass: &mut DirPass<K>) -> Result<Listed<Units>, DirBad> {
        self.directory.groups(rt, pass)
    }

    fn add_group_pad<R: Wait>(
        &self,
        rt: &R,
        pass: &mut DirPass<K>,
        group: &Units,
        name: &Units,
    ) -> Result<PadId, DirBad> {
        self.directory.add_group_pad(rt, pass, group, name)
    }

    fn drop_group_pad<R: Wait>(
        &self,
        rt: &R,
        pass: &mut DirPass<K>,
        pad: &PadId,
    ) -> Result<(), DirBad> {
        self.directory.drop_group_pad(rt, pass, pad)
    }

    fn group_pads<R: Wait>(
        &self,
        rt: &R,
        pass: &mut DirPass<K>,
        group: &Units,
    ) -> Result<Listed<PadId>, DirBad> {
        self.directory.group_pads(rt, pass, group)
    }

    fn create_author<R: Wait>(
        &self,
        rt: &R,
        pass: &mut DirPass<K>,
        name: &Units,
        drawn: Drawn,
    ) -> Result<Units, DirBad> {
        self.directory.create_author(rt, pass, name, drawn)
    }

    fn author_for<R: Wait>(
        &self,
        rt: &R,
        pass: &mut DirPass<K>,
        mapper: &Units,
        name: Option<&Units>,
        drawn: Drawn,
    ) -> Result<Units, DirBad> {
        self.directory.author_for(rt, pass, mapper, name, drawn)
    }

    fn author_name<R: Wait>(
        &self,
        rt: &R,
        pass: &mut DirPass<K>,
        author: &Units,
    ) -> Result<Units, DirBad> {
        self.directory.author_name(rt, pass, author)
    }

    fn create_session<R: Wait>(
        &self,
        rt: &R,
        pass: &mut DirPass<K>,
        group: &Units,
        author: &Units,
        valid_until: u64,
        now: u64,
        drawn: Drawn,
    ) -> Result<Units, DirBad> {
        self.directory
            .create_session(rt, pass, group, author, valid_until, now, drawn)
    }

    fn delete_session<R: Wait>(
        &self,
        rt: &R,
        pass: &mut DirPass<K>,
        id: &Units,
    ) -> Result<(), DirBad> {
        self.directory.delete_session(rt, pass, id)
    }

    fn session<R: Wait>(
        &self,
        rt: &R,
        pass: &mut DirPass<K>,
        id: &Units,
    ) -> Result<SessionInfo, DirBad> {
        self.directory.session(rt, pass, id)
    }

    fn sessions_of_group<R: Wait>(
        &self,
        rt: &R,
        pass: &mut DirPass<K>,
        group: &Units,
    ) -> Result<Listed<SessionInfo>, DirBad> {
        self.directory.sessions_of_group(rt, pass, group)
    }

    fn sessions_of_author<R: Wait>(
        &self,
        rt: &R,
        pass: &mut DirPass<K>,
        author: &Units,
    ) -> Result<Listed<SessionInfo>, DirBad> {
        self.directory.sessions_of_author(rt, pass, author)
    }

    fn read_only<R: Wait>(
        &self,
        rt: &R,
        pass: &mut DirPass<K>,
        pad: &PadId,
        drawn: Drawn,
    ) -> Result<Units, DirBad> {
        self.directory.read_only(rt, pass, pad, drawn)
    }

    fn grant<R: Wait>(
        &self,
        rt: &R,
        pass: &mut DirPass<K>,
        asked: &Units,
        sessions: &[Units],
        token: &Units,
        now: u64,
        drawn: Drawn,
    ) -> Result<Grant, DirBad> {
        self.directory
            .grant(rt, pass, asked, sessions, token, now, drawn)
    }
}

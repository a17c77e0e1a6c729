//! Calls of the directory, by the kind of their reply.

ghost use Rattle.ep_cell.specs.Passes.{IsFrom, first_of, known};
ghost use Rattle.ep_groups.specs.Asking.{Asks};
ghost use Rattle.ep_groups.specs.History.{IsLegal};
ghost use Rattle.ep_house.specs.Replies.{HasGrant, HasPad, HasPads, HasSession, HasSessions, HasText, HasTexts, IsDone};

use crate::directory::{DirPass, Directory};
use ep_groups::{DirBad, DirEntry, DirReply, Listed, SessionInfo};
use ep_outside::Keeper;
use ep_units::{Grant, PadId, Units};
use std::sync::Wait;

impl<K: Keeper + Drop> Directory<K> {
    pub(crate) fn text<R: Wait>(
        &self,
        rt: &R,
        pass: &mut DirPass<K>,
        entry: DirEntry,
    ) -> Result<Units, DirBad>
        requires of { IsFrom self.now.cell pass.old.pass }
        requires kind { HasText entry }
        ensures of { IsFrom self.now.cell pass.new.pass }
        ensures asks { Asks (IsLegal K.always_tells (first_of self.now.cell)) (known pass.old.pass) entry (DirReply.Text result) (known pass.new.pass) }
    {
        let reply = self.cell.call(rt, &mut pass.pass, entry);
        let DirReply::Text(answer) = reply else {
            unreachable!()
        };
        answer
    }

    pub(crate) fn texts<R: Wait>(
        &self,
        rt: &R,
        pass: &mut DirPass<K>,
        entry: DirEntry,
    ) -> Result<Listed<Units>, DirBad>
        requires of { IsFrom self.now.cell pass.old.pass }
        requires kind { HasTexts entry }
        ensures of { IsFrom self.now.cell pass.new.pass }
        ensures asks { Asks (IsLegal K.always_tells (first_of self.now.cell)) (known pass.old.pass) entry (DirReply.Texts result) (known pass.new.pass) }
    {
        let reply = self.cell.call(rt, &mut pass.pass, entry);
        let DirReply::Texts(answer) = reply else {
            unreachable!()
        };
        answer
    }

    pub(crate) fn done<R: Wait>(
        &self,
        rt: &R,
        pass: &mut DirPass<K>,
        entry: DirEntry,
    ) -> Result<(), DirBad>
        requires of { IsFrom self.now.cell pass.old.pass }
        requires kind { IsDone entry }
        ensures of { IsFrom self.now.cell pass.new.pass }
        ensures asks { Asks (IsLegal K.always_tells (first_of self.now.cell)) (known pass.old.pass) entry (DirReply.Done result) (known pass.new.pass) }
    {
        let reply = self.cell.call(rt, &mut pass.pass, entry);
        let DirReply::Done(answer) = reply else {
            unreachable!()
        };
        answer
    }

    pub(crate) fn pad<R: Wait>(
        &self,
        rt: &R,
        pass: &mut DirPass<K>,
        entry: DirEntry,
    ) -> Result<PadId, DirBad>
        requires of { IsFrom self.now.cell pass.old.pass }
        requires kind { HasPad entry }
        ensures of { IsFrom self.now.cell pass.new.pass }
        ensures asks { Asks (IsLegal K.always_tells (first_of self.now.cell)) (known pass.old.pass) entry (DirReply.Pad result) (known pass.new.pass) }
    {
        let reply = self.cell.call(rt, &mut pass.pass, entry);
        let DirReply::Pad(answer) = reply else {
            unreachable!()
        };
        answer
    }

    pub(crate) fn pads<R: Wait>(
        &self,
        rt: &R,
        pass: &mut DirPass<K>,
        entry: DirEntry,
    ) -> Result<Listed<PadId>, DirBad>
        requires of { IsFrom self.now.cell pass.old.pass }
        requires kind { HasPads entry }
        ensures of { IsFrom self.now.cell pass.new.pass }
        ensures asks { Asks (IsLegal K.always_tells (first_of self.now.cell)) (known pass.old.pass) entry (DirReply.Pads result) (known pass.new.pass) }
    {
        let reply = self.cell.call(rt, &mut pass.pass, entry);
        let DirReply::Pads(answer) = reply else {
            unreachable!()
        };
        answer
    }

    pub(crate) fn info<R: Wait>(
        &self,
        rt: &R,
        pass: &mut DirPass<K>,
        entry: DirEntry,
    ) -> Result<SessionInfo, DirBad>
        requires of { IsFrom self.now.cell pass.old.pass }
        requires kind { HasSession entry }
        ensures of { IsFrom self.now.cell pass.new.pass }
        ensures asks { Asks (IsLegal K.always_tells (first_of self.now.cell)) (known pass.old.pass) entry (DirReply.Session result) (known pass.new.pass) }
    {
        let reply = self.cell.call(rt, &mut pass.pass, entry);
        let DirReply::Session(answer) = reply else {
            unreachable!()
        };
        answer
    }

    pub(crate) fn infos<R: Wait>(
        &self,
        rt: &R,
        pass: &mut DirPass<K>,
        entry: DirEntry,
    ) -> Result<Listed<SessionInfo>, DirBad>
        requires of { IsFrom self.now.cell pass.old.pass }
        requires kind { HasSessions entry }
        ensures of { IsFrom self.now.cell pass.new.pass }
        ensures asks { Asks (IsLegal K.always_tells (first_of self.now.cell)) (known pass.old.pass) entry (DirReply.Sessions result) (known pass.new.pass) }
    {
        let reply = self.cell.call(rt, &mut pass.pass, entry);
        let DirReply::Sessions(answer) = reply else {
            unreachable!()
        };
        answer
    }

    pub(crate) fn granted<R: Wait>(
        &self,
        rt: &R,
        pass: &mut DirPass<K>,
        entry: DirEntry,
    ) -> Result<Grant, DirBad>
        requires of { IsFrom self.now.cell pass.old.pass }
        requires kind { HasGrant entry }
        ensures of { IsFrom self.now.cell pass.new.pass }
        ensures asks { Asks (IsLegal K.always_tells (first_of self.now.cell)) (known pass.old.pass) entry (DirReply.Grant result) (known pass.new.pass) }
    {
        let reply = self.cell.call(rt, &mut pass.pass, entry);
        let DirReply::Grant(answer) = reply else {
            unreachable!()
        };
        answer
    }
}

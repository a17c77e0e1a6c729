//! The last birth of a pad.

ghost use Rattle.std.specs.Prelude.{◌≡◌, ◌≤◌, ◌<◌, ◌++◌, ◌∷◌, [], false, true, length, vec_len, IfOk, OnOk};
ghost use Rattle.std.specs.Prelude.{drop, nat_le};
ghost use Rattle.std.specs.List.{take_while};
ghost use Rattle.ep_history.specs.History.{lacks_newline};
ghost use Rattle.ep_revs.specs.Revisions.{last_doc};
ghost use Rattle.ep_step.specs.Revised.{revs_of, AreNewRevs};

use crate::guesses::Guesses;
use crate::nops::Nops;
use ep_apply::Doc;
use ep_cs::Change;
use ep_history::{Nop, PadBad, Rev};
use ep_revs::{Revs, copies_of};
use ep_step::{
    Base, Head, NewRev, Revised, Step, Taken, first_step, first_steps_are_first_revisions,
};
use ep_units::{NoMemory, Session, Units};
use std::alloc::Global;

/// The revisions of a birth, of which there is at least one, and its edits that became nothing.
pub struct Birth {
    pub(crate) revs: Revs,
    pub(crate) nops: Nops,
    guesses: Guesses,
    ghost some: { 1 ≤ length revs.revs },
    ghost ends: { lacks_newline (last_doc revs.revs) ≡ false },
}

impl Drop for Birth {
    fn drop(self) {
        let Birth {
            revs: _,
            nops: _,
            guesses: _,
        } = self;
    }
}

/// Revisions with their documents, behind others. It takes no memory.
fn push_all(revs: &mut Revs, revised: Revised)
    requires made { AreNewRevs revised (last_doc revs.old.revs) }
    requires room { length (revs_of revised) ≤ revs.old.room }
    ensures { revs.new.revs ≡ revs.old.revs ++ revs_of revised }
{
    let Revised { edit, newline } = revised;
    let NewRev { rev, doc } = edit;
    revs.push(rev, doc);
    if let Some(NewRev { rev, doc }) = newline {
        revs.push(rev, doc);
    }
}

impl Birth {
    ghost use Rattle.std.specs.Prelude.{ℕ, ◌+◌, ◌^◌};
    ghost use Rattle.ep_units.specs.Text.{is_well_formed};
    ghost use Rattle.ep_history.specs.Server.{create_fault};
    ghost use Rattle.ep_cs.specs.EditFits.{is_edit};
    ghost use Rattle.ep_cs.specs.Fits.{Fits};
    ghost use Rattle.ep_history.specs.Accept.{at_head, edit_faults};
    ghost use Rattle.ep_history.specs.History.{head, head_doc, doc_at, first_rev, step_revs};
    ghost use Rattle.ep_history.specs.History.{Birth as ABirth};
    ghost use Rattle.ep_history.specs.Pad.{PadState, newest};
    ghost use Rattle.ep_history.specs.Readings.{edited, revs_behind, nop_heads};
    ghost use Rattle.ep_history.specs.Refusals.{first_fault};
    ghost use Rattle.ep_history.specs.declared.seat.Seat.{Seat};
    ghost use Rattle.ep_step.specs.Taking.{IsHeadOf, taken_of, change_of};
    ghost use Rattle.ep_step.specs.Answers.{Refuses};
    ghost use Rattle.ep_step.specs.Step.{step_of};
    ghost use Rattle.ep_units.specs.declared.session.Session.{Session};
    ghost use Rattle.ep_pad_state.specs.Nops.{heads_of, heads_in, HasRoom, SameHeads, StandFor};
    ghost use Rattle.ep_pad_state.specs.Held.{HasRevs, IsBirth};
    ghost use Rattle.ep_pad_state.specs.Making.{CanGrow};

    /// The birth that a text makes, cleaned, where it has at most so many units. Of 2^32 units or more memory is said to be
    /// wanting.
    pub(crate) fn first(alloc: Global, text: &Units, limit: u64, now: u64) -> Result<Birth, PadBad>
        requires { is_well_formed text.now ≡ true }
        ensures revs { IfOk result (λ b. b.revs.revs ≡ first_rev now text.now ∷ []) }
        ensures nops { IfOk result (λ b. StandFor b.nops []) }
        ensures refused { (p : PadState) → limit ≡ p.limits.units → p.present ≡ false → Refuses (create_fault p text.now) result }
    {
        first_steps_are_first_revisions();
        let step = first_step(alloc, text, limit)?;
        let mut revs = Revs::new(alloc);
        revs.reserve_two()?;
        let guesses = Guesses::none(alloc)?;
        push_all(&mut revs, step.into_revs_of_nobody(alloc, now));
        Ok(Birth {
            revs,
            nops: Nops::new(alloc),
            guesses,
        })
    }

    /// The number of its last revision.
    pub(crate) fn last(&self) -> u64
        ensures number { (b : ABirth) → IsBirth self.now b → result ≡ head b }
        ensures count { length self.now.revs.revs ≡ result + 1 }
    {
        match self.revs.head() {
            Some(head) => head,
            None => unreachable!(),
        }
    }

    /// The document of its last revision.
    pub(crate) fn doc(&self) -> &Doc
        ensures document { (b : ABirth) → IsBirth self.now b → result.now ≡ head_doc b }
        ensures last { result.now ≡ last_doc self.now.revs.revs }
        ensures ends { lacks_newline result.now ≡ false }
    {
        self.revs.head_doc()
    }

    /// When its last revision was made.
    pub(crate) fn edited(&self) -> u64
        ensures { (b : ABirth) → IsBirth self.now b → result ≡ edited b }
    {
        self.revs.rev(self.last()).time
    }

    /// Its head, where a document may have so many units.
    pub(crate) fn head(&self, limit: u64) -> Head<'_>
        ensures head { (p : PadState) → HasRevs self.now (newest p) → p.limits.units ≡ limit → IsHeadOf result p }
        ensures rev { length self.now.revs.revs ≡ result.rev + 1 }
        ensures doc { result.doc.now ≡ last_doc self.now.revs.revs }
        ensures limit { result.limit ≡ limit }
    {
        Head {
            rev: self.last(),
            doc: self.doc(),
            limit,
        }
    }

    /// The document of a revision.
    pub(crate) fn doc_at(&self, alloc: Global, r: u64) -> Result<Doc, NoMemory>
        requires { r < length self.now.revs.revs }
        ensures { (b : ABirth) → IsBirth self.now b → IfOk result (λ doc. doc ≡ doc_at b r) }
    {
        self.revs.doc(alloc, r)
    }

    /// So many revisions behind one, all where they are fewer.
    pub(crate) fn behind(&self, alloc: Global, r: u64, n: u64) -> Result<Vec<Rev>, NoMemory>
        requires { r < length self.now.revs.revs }
        ensures revs { (b : ABirth) → IsBirth self.now b → IfOk result (λ vs. vs.items ≡ revs_behind b r n) }
        ensures count { IfOk result (λ vs. r + vec_len vs < length self.now.revs.revs) }
    {
        let later = self.revs.since(r);
        let n = later.len().min(n as usize);
        Ok(copies_of(alloc, &later[..n])?)
    }

    /// The heads at which the session's edits became nothing, without the first ones that were told, up to a revision.
    pub(crate) fn nops_to(
        &self,
        alloc: Global,
        session: Session,
        told: u64,
        to: u64,
    ) -> Result<Vec<u64>, NoMemory>
        ensures { (b : ABirth) → IsBirth self.now b
            → IfOk result (λ heads. heads.items ≡ take_while (λ h. nat_le h to) (drop told (nop_heads session b))) }
    {
        Ok(self.nops.heads_to(alloc, session, told as usize, to)?)
    }

    /// Puts maps of the session's last revision in the place of equal ones, so that both keep one.
    pub(crate) fn share_maps(&self, alloc: Global, session: Session, change: &mut Change)
        ensures { change.new ≡ change.old }
    {
        let rev = self.guesses.rev(session);
        if rev <= self.last() {
            change.share_maps(alloc, &self.revs.rev(rev).change);
        }
    }

    /// An edit that an author bases on a revision, brought to the head. An edit of the head takes no document.
    pub(crate) fn take(
        &self,
        alloc: Global,
        limit: u64,
        base: u64,
        author: &Units,
        change: Change,
    ) -> Result<Taken, PadBad>
        ensures taken { (p : PadState) (l : Seat) → HasRevs self.now (newest p) → p.limits.units ≡ limit → l.author ≡ author.now → l.read_only ≡ false
            → IfOk result (λ taken. taken ≡ taken_of (at_head p base change.edit) (head_doc (newest p))) }
        ensures refused { (p : PadState) (l : Seat) → HasRevs self.now (newest p) → p.limits.units ≡ limit → l.author ≡ author.now → l.read_only ≡ false
            → Refuses (first_fault (edit_faults p l base change)) result }
        ensures fits { IfOk result (λ taken. Fits (change_of taken) (last_doc self.now.revs.revs)) }
    {
        let head = self.head(limit);
        if base > head.rev {
            return head.take(alloc, None, author, change);
        }
        let since = self.revs.since(base);
        if base == head.rev {
            let at = Base {
                doc: head.doc,
                since,
            };
            return head.take(alloc, Some(at), author, change);
        }
        let doc = self.revs.doc(alloc, base)?;
        let at = Base { doc: &doc, since };
        head.take(alloc, Some(at), author, change)
    }

    /// Makes room for a step's revisions, whose numbers have 64 bits.
    pub(crate) fn reserve(&mut self) -> Result<(), NoMemory>
        ensures revs { self.new.revs.revs ≡ self.old.revs.revs }
        ensures nops { self.new.nops ≡ self.old.nops }
        ensures revs_room { OnOk result (2 ≤ self.new.revs.room) }
        ensures numbers { OnOk result (length self.new.revs.revs < 2 ^ 64) }
    {
        if self.last() == u64::MAX {
            return Err(NoMemory);
        }
        self.revs.reserve_two()?;
        Ok(())
    }

    /// Makes room for one edit of a session that becomes nothing.
    pub(crate) fn reserve_nop(&mut self, alloc: Global, session: Session) -> Result<(), NoMemory>
        ensures revs { self.new.revs.revs ≡ self.old.revs.revs }
        ensures nops { SameHeads self.old.nops self.new.nops }
        ensures room { OnOk result (HasRoom session self.new.nops) }
    {
        Ok(self.nops.reserve(alloc, session)?)
    }

    /// The revisions of a step of its head, where there is room for them.
    #[inline(always)]
    pub(crate) fn revisions(
        &self,
        alloc: Global,
        step: Step,
        author: Units,
        session: Session,
        now: u64,
    ) -> Revised
        requires step { step ≡ step_of step.edit.change.edit (last_doc self.now.revs.revs) }
        requires fits { Fits step.edit.change (last_doc self.now.revs.revs) }
        requires room { 2 ≤ self.now.revs.room }
        ensures grows { CanGrow self.now result }
        ensures revs { revs_of result ≡ step_revs (record { author = author; session = session; time = now }) step.edit.change.edit (last_doc self.now.revs.revs) }
        ensures edit { is_edit step.edit.change.edit ≡ true }
    {
        let _normal = step.edit.change.ops();
        step.into_revs(alloc, author, session, now)
    }

    /// The revisions of a step that were made ready. It takes no memory.
    pub(crate) fn lengthen(&mut self, revised: Revised)
        requires { CanGrow self.old revised }
        ensures revs { self.new.revs.revs ≡ self.old.revs.revs ++ revs_of revised }
        ensures nops { self.new.nops ≡ self.old.nops }
    {
        let next = self.last().saturating_add(1);
        self.guesses.put(revised.edit.rev.session, next);
        push_all(&mut self.revs, revised);
    }

    /// An edit that became nothing. It takes no memory.
    pub(crate) fn note(&mut self, nop: Nop)
        requires { HasRoom nop.session self.old.nops }
        ensures revs { self.new.revs.revs ≡ self.old.revs.revs }
        ensures nops { (s : Session) → heads_of s self.new.nops ≡ heads_of s self.old.nops ++ heads_in s (nop ∷ []) }
    {
        self.nops.push_reserved(nop);
    }
}

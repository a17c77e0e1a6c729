//! The revisions of a birth that is there.

ghost use Rattle.std.specs.Prelude.{◌≡◌, ◌++◌, ◌∷◌, [], true, IfOk, OnOk};
ghost use Rattle.ep_units.specs.Text.{is_well_formed};
ghost use Rattle.ep_cs.specs.Doc.{Doc as ADoc};
ghost use Rattle.ep_cs.specs.Edit.{apply};
ghost use Rattle.ep_history.specs.History.{first_rev, made, newline};
ghost use Rattle.ep_history.specs.Pad.{PadState};
ghost use Rattle.ep_history.specs.declared.record.Record.TheVariants as record_of;
ghost use Rattle.ep_step.specs.Revised.{AreNewRevs, IsNewRev, revs_of};
ghost use Rattle.ep_move.specs.Reread.{IsThere, MayFollow};

use ep_apply::Doc;
use ep_cs::Change;
use ep_history::Rev;
use ep_step::{NewRev, Revised, first_step, first_steps_are_first_revisions, next_step};
use ep_units::{NoMemory, Session, Units};
use std::alloc::{AllocError, Global};

/// The revisions of a birth that is there, and the document after the last of them.
pub struct Last {
    pub revs: Vec<Rev>,
    pub doc: Doc,
}

impl Drop for Last {
    fn drop(self) {
        let Last { revs: _, doc: _ } = self;
    }
}

impl Last {
    /// Before its first revision.
    fn begun(alloc: Global) -> Result<Last, NoMemory>
        ensures revs { IfOk result (λ last. last.revs.items ≡ []) }
        ensures doc { IfOk result (λ last. last.doc ≡ newline) }
    {
        let doc = Doc::newline(alloc)?;
        Ok(Last {
            revs: Vec::new(alloc),
            doc,
        })
    }

    /// The birth that a text makes.
    pub(crate) fn first(alloc: Global, time: u64, text: &Units) -> Result<Last, NoMemory>
        requires { is_well_formed text.now ≡ true }
        ensures revs { IfOk result (λ last. last.revs.items ≡ first_rev time text.now ∷ []) }
        ensures doc { IfOk result (λ last. last.doc ≡ apply (first_rev time text.now).change.edit newline) }
    {
        first_steps_are_first_revisions();
        let Ok(step) = first_step(alloc, text, u64::MAX) else {
            return Err(NoMemory);
        };
        let revised = step.into_revs_of_nobody(alloc, time);
        let mut last = Last::begun(alloc)?;
        last.push(revised)?;
        Ok(last)
    }

    /// One more revision.
    fn put(&mut self, new: NewRev) -> Result<(), AllocError>
        requires { IsNewRev new self.old.doc }
        ensures revs { OnOk result (self.new.revs.items ≡ self.old.revs.items ++ new.rev ∷ []) }
        ensures doc { OnOk result (self.new.doc ≡ apply new.rev.change.edit self.old.doc) }
        ensures given { OnOk result (self.new.doc ≡ new.doc) }
    {
        let NewRev { rev, doc } = new;
        self.revs.push(rev)?;
        self.doc = doc;
        Ok(())
    }

    /// The revisions of one step more.
    fn push(&mut self, revised: Revised) -> Result<(), AllocError>
        requires { AreNewRevs revised self.old.doc }
        ensures revs { OnOk result (self.new.revs.items ≡ self.old.revs.items ++ revs_of revised) }
        ensures doc { OnOk result (self.new.doc ≡ made self.old.doc (revs_of revised)) }
    {
        let Revised { edit, newline } = revised;
        self.put(edit)?;
        if let Some(newline) = newline {
            self.put(newline)?;
        }
        Ok(())
    }

    /// Whether a revision's record may come next; then its revisions stand behind these.
    pub(crate) fn next(
        &mut self,
        alloc: Global,
        session: Session,
        time: u64,
        author: Units,
        fixed: bool,
        change: Change,
    ) -> Result<bool, NoMemory>
        ensures { (p : PadState) → IsThere self.old p → IfOk result (MayFollow IsThere p (record_of.Rev session time author fixed change) self.new) }
    {
        let step = next_step(alloc, &self.doc, change, fixed)?;
        match step {
            None => Ok(false),
            Some(step) => {
                let revised = step.into_revs(alloc, author, session, time);
                self.push(revised)?;
                Ok(true)
            }
        }
    }
}

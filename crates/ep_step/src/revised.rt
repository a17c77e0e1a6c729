//! The revisions that a step becomes.

ghost use Rattle.std.specs.Prelude.{◌≡◌};
ghost use Rattle.ep_cs.specs.Doc.{Doc as ADoc};
ghost use Rattle.ep_cs.specs.Edit.{Edit};
ghost use Rattle.ep_cs.specs.Fits.{Fits};
ghost use Rattle.ep_history.specs.History.{by_nobody, step_revs};
ghost use Rattle.ep_step.specs.Step.{made_of, step_of};
ghost use Rattle.ep_step.specs.Revised.{revs_of, IsNewRev, AreNewRevs};

use crate::step::{Made, Step};
use ep_apply::Doc;
use ep_history::Rev;
use ep_units::{Session, Units};
use std::alloc::Global;

/// The session of what nobody did.
const NOBODY: Session = Session { epoch: 0, count: 0 };

/// A revision, and the document after it.
#[derive(Drop)]
pub struct NewRev {
    pub rev: Rev,
    pub doc: Doc,
}

/// The revisions of a step: the edit's, and the newline's where there is one.
#[derive(Drop)]
pub struct Revised {
    pub edit: NewRev,
    pub newline: Option<NewRev>,
}

impl Made {
    /// The revision of who made it, and when.
    fn into_rev(self, author: Units, session: Session, time: u64) -> NewRev
        ensures rev { result.rev ≡ record { change = self.change; author = author; session = session; time = time } }
        ensures doc { result.doc ≡ self.doc }
    {
        let Made { change, doc } = self;
        let rev = Rev {
            change,
            author,
            session,
            time,
        };
        NewRev { rev, doc }
    }
}

impl Step {
    /// The revisions of the step, where this author made the edit in this session. It takes no memory.
    #[inline(always)]
    pub fn into_revs(self, alloc: Global, author: Units, session: Session, time: u64) -> Revised
        ensures revs { (e : Edit) (head : ADoc) → self ≡ step_of e head
            → revs_of result ≡ step_revs (record { author = author; session = session; time = time }) e head }
        ensures made { (e : Edit) (head : ADoc) → self ≡ step_of e head → Fits self.edit.change head → AreNewRevs result head }
    {
        let _document = self.edit.doc.reading();
        let Step { edit, newline } = self;
        let edit = edit.into_rev(author, session, time);
        let newline = match newline {
            None => None,
            Some(made) => Some(made.into_rev(Units::new(alloc), NOBODY, time)),
        };
        Revised { edit, newline }
    }

    /// The revisions of a step that nobody made: the server's.
    pub fn into_revs_of_nobody(self, alloc: Global, time: u64) -> Revised
        ensures revs { (e : Edit) (head : ADoc) → self ≡ step_of e head → revs_of result ≡ step_revs (by_nobody time) e head }
        ensures made { (e : Edit) (head : ADoc) → self ≡ step_of e head → Fits self.edit.change head → AreNewRevs result head }
    {
        self.into_revs(alloc, Units::new(alloc), NOBODY, time)
    }
}

//! Taking an edit: why it is refused, or what it makes of the head.

ghost use Rattle.std.specs.Prelude.{◌≡◌, ℕ, true, Some, Err, IfOk, take};
ghost use Rattle.ep_cs.specs.Fits.{Fits, is_identity};
ghost use Rattle.ep_history.specs.Accept.{at_head, edit_faults};
ghost use Rattle.ep_history.specs.History.{head_doc};
ghost use Rattle.ep_history.specs.Pad.{PadState, newest};
ghost use Rattle.ep_history.specs.Refusals.{first_fault};
ghost use Rattle.ep_history.specs.declared.pad_bad.PadBad.{PadBad as Bad};
ghost use Rattle.ep_history.specs.declared.seat.Seat.{Seat};

use crate::author::first_other;
use crate::newline::lacks_newline;
use crate::rebasing::rebased;
use crate::step::Step;
use ep_apply::{Doc, fits};
use ep_cs::Change;
use ep_history::{PadBad, Rev};
use ep_units::Units;
use std::alloc::Global;

/// The head of a birth: the number of the last revision and its document; and how many units a document may have.
#[derive(Clone, Copy)]
pub struct Head<'a> {
    pub rev: u64,
    pub doc: &'a Doc,
    pub limit: u64,
}

/// The revision that an edit is based on: its document, and the revisions behind it.
#[derive(Clone, Copy)]
pub struct Base<'a> {
    pub doc: &'a Doc,
    pub since: &'a [Rev],
}

/// An edit that is not refused, as a change of the head.
#[derive(Drop)]
pub enum Taken {
    /// Nothing is left of it: the change alters nothing.
    Nop(Change),
    /// It makes a step.
    Step(Step),
}

impl Head<'_> {
    ghost use Rattle.std.specs.Option.{ForSome};
    ghost use Rattle.ep_step.specs.Answers.{Refuses, units_fault};
    ghost use Rattle.ep_step.specs.declared.taking.Taken.TheVariants.{Nop};
    ghost use Rattle.ep_step.specs.Taking.{Leads, IsAsked, taken_of, change_of};

    /// An edit of a base, brought to the head; there is no base where the one that is named is above the head. A session
    /// that may read alone is refused before this is asked.
    ///
    /// It is refused by its base, by an author that it names, where it doesn't fit its base, and last where the
    /// document would be too long, its newline counted: each as `ep_history` says, the first cause that is there. The
    /// first three are asked before memory is taken.
    #[inline(always)]
    pub fn take(
        &self,
        alloc: Global,
        base: Option<Base<'_>>,
        author: &Units,
        change: Change,
    ) -> Result<Taken, PadBad>
        requires { ForSome base (λ at. Leads at self.now) }
        ensures taken { (pad : PadState) (seat : Seat) (r : ℕ) → IsAsked self.now base.entry author.now pad seat r
            → IfOk result (λ taken. taken ≡ taken_of (at_head pad r change.edit) (head_doc (newest pad))) }
        ensures refused { (pad : PadState) (seat : Seat) (r : ℕ) → IsAsked self.now base.entry author.now pad seat r
            → Refuses (first_fault (edit_faults pad seat r change)) result }
        ensures early { (pad : PadState) (seat : Seat) (r : ℕ) (bad : Bad) → IsAsked self.now base.entry author.now pad seat r
            → first_fault (take 4 (edit_faults pad seat r change)) ≡ Some bad → result ≡ Err bad }
        ensures fits { IfOk result (λ taken. Fits (change_of taken) self.now.doc.now) }
    {
        let Some(at) = base else {
            return Err(PadBad::NoBase(self.rev));
        };
        if let Some(op) = first_other(author, &change) {
            return Err(PadBad::Author(op));
        }
        if let Err(why) = fits(at.doc, &change) {
            return Err(PadBad::Fit(why));
        }
        let change = rebased(alloc, at.since, change)?;
        self.ready(alloc, change)
    }

    /// A change of the head: it makes a step, unless it alters nothing.
    fn ready(&self, alloc: Global, change: Change) -> Result<Taken, PadBad>
        requires { Fits change self.now.doc.now }
        ensures taken { IfOk result (λ taken. taken ≡ taken_of change.edit self.now.doc.now) }
        ensures refused { Refuses (units_fault self.now.limit change.edit self.now.doc.now) result }
        ensures fits { IfOk result (λ taken. Fits (change_of taken) self.now.doc.now) }
    {
        if change.is_identity() {
            return self.nothing(change);
        }
        Ok(Taken::Step(Step::within(alloc, self.doc, change, self.limit)?))
    }

    /// A change of the head of which nothing is left. The head's own length is asked.
    fn nothing(&self, change: Change) -> Result<Taken, PadBad>
        requires fits { Fits change self.now.doc.now }
        requires nothing { is_identity change.edit ≡ true }
        ensures taken { IfOk result (λ taken. taken ≡ Nop change) }
        ensures refused { Refuses (units_fault self.now.limit change.edit self.now.doc.now) result }
    {
        let units = u64::from(self.doc.len()) + u64::from(lacks_newline(self.doc));
        if units > self.limit {
            return Err(PadBad::TooLong(units));
        }
        Ok(Taken::Nop(change))
    }
}

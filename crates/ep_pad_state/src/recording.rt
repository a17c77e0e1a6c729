//! Calls that are recorded, made ready.

ghost use Rattle.std.specs.Prelude.{◌≡◌, IfOk};
ghost use Rattle.ep_cs.specs.Edit.{Edit};
ghost use Rattle.ep_history.specs.History.{head_doc};
ghost use Rattle.ep_history.specs.Pad.{PadState, newest};
ghost use Rattle.ep_history.specs.Records.{rev_record};
ghost use Rattle.ep_step.specs.Step.{step_of};

use crate::birth::Birth;
use crate::change::{PadChange, Ready};
use crate::pad::{Last, Pad};
use ep_cs::Change;
use ep_history::{Nop, PadBad, Record};
use ep_step::{Committed, Step, Taken};
use ep_units::{NoMemory, Session, Units};
use std::alloc::Global;

/// The session of what nobody did.
const NOBODY: Session = Session { epoch: 0, count: 0 };

/// The record of a step.
#[inline(always)]
fn step_record(
    alloc: Global,
    step: &Step,
    author: &Units,
    session: Session,
    now: u64,
) -> Result<Record, NoMemory>
    ensures { IfOk result (λ r. (p : PadState) (e : Edit) → step.now ≡ step_of e (head_doc (newest p))
        → r ≡ rev_record p (record { author = author.now; session = session; time = now }) e) }
{
    Ok(Record::Rev {
        session,
        time: now,
        author: author.copy(alloc)?,
        fixed: step.fixed(),
        change: step.edit.change.copy(alloc)?,
    })
}

impl Pad {
    ghost use Rattle.std.specs.Prelude.{true};
    ghost use Rattle.ep_units.specs.Text.{is_well_formed};
    ghost use Rattle.ep_history.specs.Entries.Entry.{Accept, Create, SetText, Delete, SetPublic};
    ghost use Rattle.ep_history.specs.Entries.Answer.{CommitAnswer, BirthAnswer, Done};
    ghost use Rattle.ep_step.specs.Telling.{told_by};
    ghost use Rattle.ep_pad_state.specs.Making.{change_of, IsReady};
    ghost use Rattle.ep_pad_state.specs.Answering.{Readies};

    /// A session's change of a base is brought to the head.
    pub fn accept(
        &mut self,
        alloc: Global,
        session: Session,
        base: u64,
        change: Change,
        now: u64,
    ) -> Result<Ready<Committed>, PadBad>
        ensures answer { Readies self.old (Accept session base change now) (λ c. CommitAnswer (told_by c)) result self.new }
        ensures ready { IfOk result (λ x. IsReady self.new (change_of x)) }
    {
        let mut change = change;
        self.last.share_maps(alloc, session, &mut change);
        self.take(alloc, session, base, change, now)
    }

    /// The same, of a change whose maps are as they are to be kept.
    fn take(
        &mut self,
        alloc: Global,
        session: Session,
        base: u64,
        change: Change,
        now: u64,
    ) -> Result<Ready<Committed>, PadBad>
        ensures answer { Readies self.old (Accept session base change now) (λ c. CommitAnswer (told_by c)) result self.new }
        ensures ready { IfOk result (λ x. IsReady self.new (change_of x)) }
    {
        let author = self.seats.writer(session)?;
        let birth = match &mut self.last {
            Last::There(birth) => birth,
            Last::Gone(_head) => return Err(PadBad::Gone),
        };
        birth.reserve()?;
        let taken = birth.take(alloc, self.limits.units, base, author, change)?;
        let last = birth.last();
        let answer = taken.committed(alloc, last)?;
        match taken {
            Taken::Nop(_change) => {
                birth.reserve_nop(alloc, session)?;
                Ok(Ready {
                    record: Record::Nop { session, time: now },
                    answer,
                    change: PadChange::Nop(Nop {
                        session,
                        time: now,
                        rev: last,
                    }),
                })
            }
            Taken::Step(step) => {
                let kept = step_record(alloc, &step, author, session, now)?;
                let revised = birth.revisions(alloc, step, Units::new(alloc), session, now);
                Ok(Ready {
                    record: kept,
                    answer,
                    change: PadChange::Revisions(revised),
                })
            }
        }
    }

    /// The pad is made with a text; its birth is answered.
    pub fn create(&self, alloc: Global, text: &Units, now: u64) -> Result<Ready<u64>, PadBad>
        requires { is_well_formed text.now ≡ true }
        ensures answer { Readies self.now (Create text.now now) BirthAnswer result self.now }
        ensures ready { IfOk result (λ x. IsReady self.now (change_of x)) }
    {
        if self.last.present() {
            return Err(PadBad::Exists);
        }
        let first = Birth::first(alloc, text, self.limits.units, now)?;
        let Some(birth) = self.births.checked_add(1) else {
            return Err(PadBad::NoMemory);
        };
        Ok(Ready {
            record: Record::Create {
                birth,
                time: now,
                text: text.clean(alloc)?,
            },
            answer: birth,
            change: PadChange::Birth(first),
        })
    }

    /// The server's text is set.
    pub fn set_text(
        &mut self,
        alloc: Global,
        text: &Units,
        now: u64,
    ) -> Result<Ready<Committed>, PadBad>
        requires { is_well_formed text.now ≡ true }
        ensures answer { Readies self.old (SetText text.now now) (λ c. CommitAnswer (told_by c)) result self.new }
        ensures ready { IfOk result (λ x. IsReady self.new (change_of x)) }
    {
        let Last::There(birth) = &mut self.last else {
            return Err(PadBad::Gone);
        };
        birth.reserve()?;
        let head = birth.head(self.limits.units);
        let step = head.set_text(alloc, text)?;
        let answer = Committed {
            rev: head.rev + 1,
            fixed: step.fixed(),
            nop: false,
            change: step.edit.change.copy(alloc)?,
        };
        let nobody = Units::new(alloc);
        let kept = step_record(alloc, &step, &nobody, NOBODY, now)?;
        let revised = birth.revisions(alloc, step, nobody, NOBODY, now);
        Ok(Ready {
            record: kept,
            answer,
            change: PadChange::Revisions(revised),
        })
    }

    /// The pad is deleted. Its memory is given back once this is made.
    pub fn delete(&self, now: u64) -> Result<Ready<()>, PadBad>
        ensures answer { Readies self.now (Delete now) (λ _. Done) result self.now }
        ensures ready { IfOk result (λ x. IsReady self.now (change_of x)) }
    {
        self.birth()?;
        Ok(Ready {
            record: Record::Delete { time: now },
            answer: (),
            change: PadChange::Deletion,
        })
    }

    /// Whether anybody may enter a group's pad.
    pub fn set_public(&self, on: bool) -> Result<Ready<()>, PadBad>
        ensures answer { Readies self.now (SetPublic on) (λ _. Done) result self.now }
        ensures ready { IfOk result (λ x. IsReady self.now (change_of x)) }
    {
        self.birth()?;
        Ok(Ready {
            record: Record::Public { on },
            answer: (),
            change: PadChange::Public(on),
        })
    }
}

//! Records that are read back.

ghost use Rattle.std.specs.Prelude.{◌≡◌, IfOk};

use crate::birth::Birth;
use crate::change::PadChange;
use crate::pad::{Last, Pad};
use ep_cs::Change;
use ep_history::{Nop, Record};
use ep_seats::Seats;
use ep_step::next_step;
use ep_units::{NoMemory, Session, Units};
use std::alloc::Global;

impl Pad {
    ghost use Rattle.std.specs.Prelude.{MatchResult};
    ghost use Rattle.ep_history.specs.Pad.{PadState};
    ghost use Rattle.ep_history.specs.declared.record.Record.TheVariants as record_of;
    ghost use Rattle.ep_pad_state.specs.Held.{IsPad};
    ghost use Rattle.ep_pad_state.specs.Rereading.{IsReread, IsNextChange, StandsStill, WhereThere};

    /// Whether a record may come next; then the pad is the next one, and else it is as it was.
    pub fn next(&mut self, alloc: Global, told: Record) -> Result<bool, NoMemory>
        ensures { (p : PadState) → IsPad self.old p → MatchResult result (IsReread p told self.new) (λ _. IsPad self.new p) }
    {
        match self.change_of(alloc, told)? {
            None => Ok(false),
            Some(change) => {
                self.commit(change);
                Ok(true)
            }
        }
    }

    /// What a record makes of the pad, where it may come next.
    fn change_of(&mut self, alloc: Global, told: Record) -> Result<Option<PadChange>, NoMemory>
        ensures stays { StandsStill self.old self.new }
        ensures next { IfOk result (IsNextChange self.new told) }
    {
        match told {
            Record::Open { epoch } => Ok(self.opening(alloc, epoch)),
            Record::Create { birth, time, text } => self.first(alloc, birth, time, &text),
            Record::Rev {
                session,
                time,
                author,
                fixed,
                change,
            } => {
                let mut change = change;
                self.last.share_maps(alloc, session, &mut change);
                self.revisions(alloc, session, time, author, fixed, change)
            }
            Record::Delete { time: _time } => Ok(self.where_there(PadChange::Deletion)),
            Record::Public { on } => Ok(self.where_there(PadChange::Public(on))),
            Record::Nop { session, time } => self.nop(alloc, session, time),
        }
    }

    /// A change, where the last birth is there.
    fn where_there(&self, change: PadChange) -> Option<PadChange>
        ensures { WhereThere self.now change result }
    {
        if self.last.present() {
            Some(change)
        } else {
            None
        }
    }

    fn opening(&self, alloc: Global, epoch: u64) -> Option<PadChange>
        ensures { IsNextChange self.now (record_of.Open epoch) result }
    {
        if epoch == 0 || epoch - 1 != self.epoch() {
            return None;
        }
        Some(PadChange::Opening(Seats::new(alloc, epoch)))
    }

    fn first(
        &self,
        alloc: Global,
        birth: u64,
        time: u64,
        text: &Units,
    ) -> Result<Option<PadChange>, NoMemory>
        ensures { IfOk result (IsNextChange self.now (record_of.Create birth time text.now)) }
    {
        if self.epoch() == 0 || self.last.present() || birth == 0 || birth - 1 != self.births {
            return Ok(None);
        }
        if !text.well_formed() {
            return Ok(None);
        }
        let cleaned = text.clean(alloc)?;
        if cleaned != *text {
            return Ok(None);
        }
        let Ok(first) = Birth::first(alloc, text, u64::MAX, time) else {
            return Err(NoMemory);
        };
        Ok(Some(PadChange::Birth(first)))
    }

    fn revisions(
        &mut self,
        alloc: Global,
        session: Session,
        time: u64,
        author: Units,
        fixed: bool,
        change: Change,
    ) -> Result<Option<PadChange>, NoMemory>
        ensures stays { StandsStill self.old self.new }
        ensures next { IfOk result (IsNextChange self.new (record_of.Rev session time author fixed change)) }
    {
        let Last::There(birth) = &mut self.last else {
            return Ok(None);
        };
        birth.reserve()?;
        let step = next_step(alloc, birth.doc(), change, fixed)?;
        match step {
            None => Ok(None),
            Some(step) => {
                let revised = birth.revisions(alloc, step, author, session, time);
                Ok(Some(PadChange::Revisions(revised)))
            }
        }
    }

    fn nop(
        &mut self,
        alloc: Global,
        session: Session,
        time: u64,
    ) -> Result<Option<PadChange>, NoMemory>
        ensures stays { StandsStill self.old self.new }
        ensures next { IfOk result (IsNextChange self.new (record_of.Nop session time)) }
    {
        let Last::There(birth) = &mut self.last else {
            return Ok(None);
        };
        birth.reserve_nop(alloc, session)?;
        let rev = birth.last();
        Ok(Some(PadChange::Nop(Nop { session, time, rev })))
    }
}

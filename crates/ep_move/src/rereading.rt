//! Records, one after another.

ghost use Rattle.std.specs.Prelude.{◌≡◌, ◌↔◌, suc, IfOk, IsSome, IsTrue, None};
ghost use Rattle.ep_units.specs.Clean.{clean};
ghost use Rattle.ep_history.specs.Pad.{PadState};
ghost use Rattle.ep_history.specs.Records.{unopened};
ghost use Rattle.ep_history.specs.declared.record.Record.TheVariants as record_of;
ghost use Rattle.ep_verify.specs.Verdicts.{no_limits};
ghost use Rattle.ep_move.specs.Born.{IsBorn, MayBear};
ghost use Rattle.ep_move.specs.Reread.{IsLast, IsReread, MayFollow};

use crate::last::Last;
use ep_cs::Change;
use ep_history::Record;
use ep_units::{NoMemory, Session, Units};
use std::alloc::Global;

/// What records tell of a pad: how often it was opened and made, who may enter, and its last birth, where that is there.
pub struct Reread {
    epoch: u64,
    births: u64,
    pub public: bool,
    pub last: Option<Last>,
}

impl Drop for Reread {
    fn drop(self) {
        let Reread {
            epoch: _,
            births: _,
            public: _,
            last: _,
        } = self;
    }
}

fn is_same(a: &Units, b: &Units) -> bool
    ensures { IsTrue result ↔ (a.now ≡ b.now) }
{
    *a == *b
}

/// Whether cleaning leaves a text as it is.
fn is_clean(alloc: Global, text: &Units) -> Result<bool, NoMemory>
    ensures { IfOk result (λ is. IsTrue is ↔ (clean text.now ≡ text.now)) }
{
    let cleaned = text.clean(alloc)?;
    Ok(is_same(&cleaned, text))
}

impl Reread {
    /// Before the first record.
    pub fn unopened() -> Reread
        ensures { IsReread result (unopened no_limits) }
    {
        Reread {
            epoch: 0,
            births: 0,
            public: false,
            last: None,
        }
    }

    /// Whether a record may come next; then it is the next pad's.
    pub fn next(&mut self, alloc: Global, told: Record) -> Result<bool, NoMemory>
        ensures { (p : PadState) → IsReread self.old p → IfOk result (MayFollow IsReread p told self.new) }
    {
        match told {
            Record::Open { epoch } => Ok(self.opened(epoch)),
            Record::Create { birth, time, text } => self.created(alloc, birth, time, &text),
            Record::Rev {
                session,
                time,
                author,
                fixed,
                change,
            } => self.revised(alloc, session, time, author, fixed, change),
            Record::Delete { time: _time } => Ok(self.deleted()),
            Record::Public { on } => Ok(self.published(on)),
            Record::Nop {
                session: _session,
                time: _time,
            } => Ok(self.is_there()),
        }
    }

    fn is_there(&self) -> bool
        ensures { IsTrue result ↔ IsSome self.now.last }
    {
        self.last.is_some()
    }

    fn opened(&mut self, epoch: u64) -> bool
        ensures goes { IsTrue result ↔ (epoch ≡ suc self.old.epoch) }
        ensures new { IsTrue result → self.new ≡ record self.old { epoch = epoch } }
    {
        if epoch == 0 || epoch - 1 != self.epoch {
            return false;
        }
        self.epoch = epoch;
        true
    }

    /// Whether the next birth may have this number.
    fn may_bear(&self, birth: u64) -> bool
        ensures { IsTrue result ↔ MayBear self.now birth }
    {
        self.epoch > 0 && self.last.is_none() && birth > 0 && birth - 1 == self.births
    }

    fn created(
        &mut self,
        alloc: Global,
        birth: u64,
        time: u64,
        text: &Units,
    ) -> Result<bool, NoMemory>
        ensures { IfOk result (IsBorn self.old self.new birth time text.now) }
    {
        if !self.may_bear(birth) || !text.well_formed() {
            return Ok(false);
        }
        if !is_clean(alloc, text)? {
            return Ok(false);
        }
        let first = Last::first(alloc, time, text)?;
        self.last = Some(first);
        self.births = birth;
        self.public = false;
        Ok(true)
    }

    fn revised(
        &mut self,
        alloc: Global,
        session: Session,
        time: u64,
        author: Units,
        fixed: bool,
        change: Change,
    ) -> Result<bool, NoMemory>
        ensures follows { (p : PadState) → IsLast self.old.last p → IfOk result (MayFollow IsLast p (record_of.Rev session time author fixed change) self.new.last) }
        ensures stays { self.new ≡ record self.old { last = self.new.last } }
    {
        match &mut self.last {
            Some(last) => last.next(alloc, session, time, author, fixed, change),
            None => Ok(false),
        }
    }

    fn deleted(&mut self) -> bool
        ensures goes { IsTrue result ↔ IsSome self.old.last }
        ensures new { self.new ≡ record self.old { last = None } }
    {
        let was = self.is_there();
        self.last = None;
        was
    }

    fn published(&mut self, on: bool) -> bool
        ensures goes { IsTrue result ↔ IsSome self.old.last }
        ensures new { self.new ≡ record self.old { public = on } }
    {
        let is = self.is_there();
        self.public = on;
        is
    }
}

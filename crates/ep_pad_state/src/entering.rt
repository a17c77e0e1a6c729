//! Who enters a pad, and who leaves it.

use crate::answers::{CatchUp, Welcome};
use crate::birth::Birth;
use crate::change::{PadChange, Ready};
use crate::pad::Pad;
use ep_history::{PadBad, Record};
use ep_units::{Grant, NoMemory, Session, Units};
use std::alloc::Global;

/// What comes of a login: the author has entered; or the pad is absent, and is entered once it is made.
#[derive(Drop)]
pub enum LoggedIn {
    Entered(Welcome),
    Makes(Ready<Welcome>),
}

impl Pad {
    ghost use Rattle.std.specs.Prelude.{◌≡◌, ◌+◌, ◌<◌, ◌^◌, ℕ, [], true, false, MatchResult, IfOk};
    ghost use Rattle.std.specs.Option.{option_copied};
    ghost use Rattle.ep_history.specs.Pad.{PadState, create, next_session, with_session};
    ghost use Rattle.ep_history.specs.Readings.{welcome};
    ghost use Rattle.ep_history.specs.Records.{create_record};
    ghost use Rattle.ep_history.specs.Entries.{outcome};
    ghost use Rattle.ep_history.specs.Entries.Entry.{Login, Resume, Leave};
    ghost use Rattle.ep_history.specs.Entries.Answer.{ResumeAnswer, Done};
    ghost use Rattle.ep_history.specs.declared.pad_bad.PadBad.TheVariants.{NoMemory as LacksMemory};
    ghost use Rattle.ep_seats.specs.Kept.{HasNext};
    ghost use Rattle.ep_pad_state.specs.Held.{IsPad};
    ghost use Rattle.ep_pad_state.specs.Making.{after, change_of, IsReady};
    ghost use Rattle.ep_pad_state.specs.Answering.{Changes, LogsIn, IsMade, IsRefused, catch_up_of, welcome_of};

    /// Somebody logs in with a grant. An absent pad is made for the one who does, with no text.
    pub fn login(&mut self, alloc: Global, grant: &Grant, now: u64) -> Result<LoggedIn, PadBad>
        ensures answer { (p : PadState) → IsPad self.old p
            → MatchResult result (LogsIn p (outcome p (Login grant.now now)) self.new)
            (λ bad. IsRefused (outcome p (Login grant.now now)) bad × IsPad self.new p) }
        ensures ready { IfOk result (IsMade self.new) }
    {
        self.seats.check_login(&self.facts(), grant)?;
        if self.last.present() {
            Ok(LoggedIn::Entered(self.enter(alloc, grant)?))
        } else {
            Ok(LoggedIn::Makes(self.first_login(alloc, grant, now)?))
        }
    }

    /// Somebody comes back at a revision with a grant, and may name the birth and the author.
    pub fn resume(
        &mut self,
        alloc: Global,
        grant: &Grant,
        rev: u64,
        birth: Option<u64>,
        author: Option<&Units>,
    ) -> Result<CatchUp, PadBad>
        ensures { (now : ℕ) → Changes self.old (Resume grant.now rev birth (option_copied author.entry) now) (λ x. ResumeAnswer (catch_up_of x)) result self.new }
    {
        self.seats
            .check_resume(&self.facts(), grant, rev, birth, author)?;
        let last = self.birth()?;
        let (head, time) = (last.last(), last.edited());
        let session = self.sit(alloc, grant)?;
        Ok(CatchUp {
            session,
            head,
            birth: self.births,
            time,
        })
    }

    /// A session leaves.
    pub fn leave(&mut self, session: Session) -> Result<(), PadBad>
        ensures { Changes self.old (Leave session) (λ _. Done) result self.new }
    {
        self.seats.leave(session)?;
        Ok(())
    }

    /// A new session of a pad that is there.
    fn sit(&mut self, alloc: Global, grant: &Grant) -> Result<Session, NoMemory>
        requires { HasNext self.old.seats }
        ensures session { (p : PadState) → IsPad self.old p → p.present ≡ true
            → MatchResult result (λ s. (s ≡ next_session p) × IsPad self.new (with_session p grant.now.author grant.now.read_only)) (λ _. IsPad self.new p) }
        ensures births { self.new.births ≡ self.old.births }
    {
        let author = grant.author.copy(alloc)?;
        self.seats.reserve()?;
        Ok(self.seats.enter(author, grant.read_only))
    }

    fn enter(&mut self, alloc: Global, grant: &Grant) -> Result<Welcome, PadBad>
        requires { HasNext self.old.seats }
        ensures { (p : PadState) → IsPad self.old p → p.present ≡ true
            → MatchResult result (λ w. (welcome_of w ≡ welcome p grant.now) × IsPad self.new (with_session p grant.now.author grant.now.read_only))
            (λ bad. (bad ≡ LacksMemory) × IsPad self.new p) }
    {
        let birth = self.birth()?;
        let (rev, time) = (birth.last(), birth.edited());
        let doc = birth.doc().copy(alloc)?;
        let author = grant.author.copy(alloc)?;
        let session = self.sit(alloc, grant)?;
        Ok(Welcome {
            session,
            birth: self.births,
            rev,
            doc,
            author,
            read_only: grant.read_only,
            time,
        })
    }

    fn first_login(
        &mut self,
        alloc: Global,
        grant: &Grant,
        now: u64,
    ) -> Result<Ready<Welcome>, PadBad>
        requires { HasNext self.old.seats }
        ensures answer { (p : PadState) → IsPad self.old p → p.present ≡ false
            → IsPad self.new p × MatchResult result
            (λ x. (x.record ≡ create_record p now []) × (welcome_of x.answer ≡ welcome (create p now []) grant.now)
            × (after (change_of x) p ≡ with_session (create p now []) grant.now.author grant.now.read_only))
            (λ bad. bad ≡ LacksMemory) }
        ensures ready { IfOk result (λ x. IsReady self.new (change_of x)) }
    {
        let Some(number) = self.births.checked_add(1) else {
            return Err(PadBad::NoMemory);
        };
        let Ok(birth) = Birth::first(alloc, &Units::new(alloc), u64::MAX, now) else {
            return Err(PadBad::NoMemory);
        };
        self.seats.reserve()?;
        let answer = Welcome {
            session: self.seats.next_session(),
            birth: number,
            rev: 0,
            doc: birth.doc().copy(alloc)?,
            author: grant.author.copy(alloc)?,
            read_only: grant.read_only,
            time: now,
        };
        let kept = Record::Create {
            birth: number,
            time: now,
            text: Units::new(alloc),
        };
        let change = PadChange::FirstLogin {
            birth,
            author: grant.author.copy(alloc)?,
            read_only: grant.read_only,
        };
        Ok(Ready {
            record: kept,
            answer,
            change,
        })
    }
}

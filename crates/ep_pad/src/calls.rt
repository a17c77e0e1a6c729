//! The calls.

ghost use Rattle.std.specs.Prelude.{◌≡◌, ◌≤◌, true, IfErr};
ghost use Rattle.std.specs.Option.{option_copied};
ghost use Rattle.ep_units.specs.Text.{is_well_formed};
ghost use Rattle.ep_history.specs.Entries.Entry.{Login, Resume, Accept, Fetch, Leave, Create, SetText, Delete, SetPublic, ReadText, ReadHistory, ReadStatus};
ghost use Rattle.ep_history.specs.Entries.Answer.{LoginAnswer, ResumeAnswer, CommitAnswer, FetchAnswer, BirthAnswer, TextAnswer, HistoryAnswer, StatusAnswer, Done};
ghost use Rattle.ep_step.specs.Telling.{told_by};
ghost use Rattle.ep_pad_state.specs.Answering.{welcome_of, catch_up_of, fetched_of, piece_of, status_of};
ghost use Rattle.ep_history.specs.declared.pad_bad.PadBad.TheVariants as lacks;
ghost use Rattle.ep_pad.specs.Crashes.{FetchesFirst, IsUncalled, StepsOver};

use crate::machine::PadMachine;
use ep_apply::Doc;
use ep_cs::Change;
use ep_history::PadBad;
use ep_outside::Disk;
use ep_pad_state::{CatchUp, Committed, Fetched, LoggedIn, PadStatus, Piece, Welcome};
use ep_units::{Grant, Session, Units};

// Of the calls that record something: where memory is wanting, an open machine made no device call (`unmade`).
impl<D: Disk> PadMachine<D> {
    /// Somebody logs in with a grant, at this moment. An absent pad is made, with no text, for the one who may.
    pub fn login(&mut self, grant: &Grant, now: u64) -> Result<Welcome, PadBad>
        ensures steps { StepsOver D.told D.failures D.moment D.since D.is_steady D.stops_alone D.left self.old (Login grant.now now) (λ x. LoginAnswer (welcome_of x)) result self.new }
        ensures unmade { self.old.is_open ≡ true → IfErr result (λ bad. bad ≡ lacks.NoMemory → IsUncalled D.told D.failures D.left self.old.disk self.new.disk) }
    {
        self.wake()?;
        match self.pad.login(self.alloc, grant, now)? {
            LoggedIn::Entered(welcome) => Ok(welcome),
            LoggedIn::Makes(ready) => self.keep(ready),
        }
    }

    /// Somebody comes back at a revision with a grant, and may name the birth and the author.
    pub fn resume(
        &mut self,
        grant: &Grant,
        rev: u64,
        birth: Option<u64>,
        author: Option<&Units>,
        now: u64,
    ) -> Result<CatchUp, PadBad>
        ensures { StepsOver D.told D.failures D.moment D.since D.is_steady D.stops_alone D.left self.old (Resume grant.now rev birth (option_copied author.entry) now) (λ x. ResumeAnswer (catch_up_of x)) result self.new }
    {
        self.wake()?;
        self.pad.resume(self.alloc, grant, rev, birth, author)
    }

    /// A session's change of a revision is committed, rebased through the later ones.
    pub fn accept(
        &mut self,
        session: Session,
        base: u64,
        change: Change,
        now: u64,
    ) -> Result<Committed, PadBad>
        ensures steps { StepsOver D.told D.failures D.moment D.since D.is_steady D.stops_alone D.left self.old (Accept session base change now) (λ x. CommitAnswer (told_by x)) result self.new }
        ensures unmade { self.old.is_open ≡ true → IfErr result (λ bad. bad ≡ lacks.NoMemory → IsUncalled D.told D.failures D.left self.old.disk self.new.disk) }
    {
        self.wake()?;
        self.take(session, base, change, now)
    }

    /// The revisions behind one that a session has heard, at most 64, and what it is to be told of its edits that became
    /// nothing.
    pub fn fetch(&mut self, session: Session, from: u64, told: u64) -> Result<Fetched, PadBad>
        ensures { StepsOver D.told D.failures D.moment D.since D.is_steady D.stops_alone D.left self.old (Fetch session from told) (λ x. FetchAnswer (fetched_of x)) result self.new }
    {
        self.wake()?;
        self.pad.fetch(self.alloc, session, from, told)
    }

    /// The same, but of the revisions the first ones alone, and of the edits those that lie within them.
    pub fn fetch_first(
        &mut self,
        session: Session,
        from: u64,
        told: u64,
        most: u64,
    ) -> Result<Fetched, PadBad>
        requires { most ≤ 64 }
        ensures { FetchesFirst D.told D.failures D.moment D.since D.is_steady D.stops_alone D.left self.old session from told most result self.new }
    {
        self.wake()?;
        self.pad.fetch_first(self.alloc, session, from, told, most)
    }

    /// A session leaves.
    pub fn leave(&mut self, session: Session) -> Result<(), PadBad>
        ensures { StepsOver D.told D.failures D.moment D.since D.is_steady D.stops_alone D.left self.old (Leave session) (λ _. Done) result self.new }
    {
        self.wake()?;
        self.pad.leave(session)
    }

    /// The pad is made with a text, and its birth is answered.
    pub fn create(&mut self, text: &Units, now: u64) -> Result<u64, PadBad>
        requires { is_well_formed text.now ≡ true }
        ensures steps { StepsOver D.told D.failures D.moment D.since D.is_steady D.stops_alone D.left self.old (Create text.now now) BirthAnswer result self.new }
        ensures unmade { self.old.is_open ≡ true → IfErr result (λ bad. bad ≡ lacks.NoMemory → IsUncalled D.told D.failures D.left self.old.disk self.new.disk) }
    {
        self.wake()?;
        let ready = self.pad.create(self.alloc, text, now)?;
        self.keep(ready)
    }

    /// The server's text is set.
    pub fn set_text(&mut self, text: &Units, now: u64) -> Result<Committed, PadBad>
        requires { is_well_formed text.now ≡ true }
        ensures steps { StepsOver D.told D.failures D.moment D.since D.is_steady D.stops_alone D.left self.old (SetText text.now now) (λ x. CommitAnswer (told_by x)) result self.new }
        ensures unmade { self.old.is_open ≡ true → IfErr result (λ bad. bad ≡ lacks.NoMemory → IsUncalled D.told D.failures D.left self.old.disk self.new.disk) }
    {
        self.wake()?;
        let ready = self.pad.set_text(self.alloc, text, now)?;
        self.keep(ready)
    }

    /// The pad is deleted, and its sessions end.
    pub fn delete(&mut self, now: u64) -> Result<(), PadBad>
        ensures steps { StepsOver D.told D.failures D.moment D.since D.is_steady D.stops_alone D.left self.old (Delete now) (λ _. Done) result self.new }
        ensures unmade { self.old.is_open ≡ true → IfErr result (λ bad. bad ≡ lacks.NoMemory → IsUncalled D.told D.failures D.left self.old.disk self.new.disk) }
    {
        self.wake()?;
        let ready = self.pad.delete(now)?;
        self.keep(ready)
    }

    /// Whether anybody may enter a group's pad.
    pub fn set_public(&mut self, on: bool) -> Result<(), PadBad>
        ensures steps { StepsOver D.told D.failures D.moment D.since D.is_steady D.stops_alone D.left self.old (SetPublic on) (λ _. Done) result self.new }
        ensures unmade { self.old.is_open ≡ true → IfErr result (λ bad. bad ≡ lacks.NoMemory → IsUncalled D.told D.failures D.left self.old.disk self.new.disk) }
    {
        self.wake()?;
        let ready = self.pad.set_public(on)?;
        self.keep(ready)
    }

    /// The document of a revision, or of the head.
    pub fn text(&mut self, rev: Option<u64>) -> Result<Doc, PadBad>
        ensures { StepsOver D.told D.failures D.moment D.since D.is_steady D.stops_alone D.left self.old (ReadText rev) TextAnswer result self.new }
    {
        self.wake()?;
        self.pad.text(self.alloc, rev)
    }

    /// The document of a revision, and so many revisions behind it, all where they are fewer.
    pub fn history(&mut self, session: Session, start: u64, count: u64) -> Result<Piece, PadBad>
        requires { count ≤ 10000 }
        ensures { StepsOver D.told D.failures D.moment D.since D.is_steady D.stops_alone D.left self.old (ReadHistory session start count) (λ x. HistoryAnswer (piece_of x)) result self.new }
    {
        self.wake()?;
        self.pad.history(self.alloc, session, start, count)
    }

    /// The pad as a whole.
    pub fn status(&mut self) -> Result<PadStatus, PadBad>
        ensures { StepsOver D.told D.failures D.moment D.since D.is_steady D.stops_alone D.left self.old ReadStatus (λ x. StatusAnswer (status_of x)) result self.new }
    {
        self.wake()?;
        self.pad.status()
    }
}

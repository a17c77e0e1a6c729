//! The calls as entries with replies, so that a pad is a `Machine`.

ghost use Rattle.std.specs.Prelude.{◌≡◌, Err};
ghost use Rattle.ep_pad.specs.Entries.{MayAsk, Suits, entry_of, reply_of};
ghost use Rattle.ep_pad.specs.Crashes.{MakesOver};

use crate::machine::PadMachine;
use ep_apply::Doc;
use ep_cs::Change;
use ep_history::PadBad;
use ep_outside::{Disk, Machine};
use ep_pad_state::{CatchUp, Committed, Fetched, PadStatus, Piece, Welcome};
use ep_units::{Grant, Session, Units};

/// What is asked of a pad. `now` is the moment, in milliseconds.
#[derive(Drop)]
pub enum PadEntry {
    Login {
        grant: Grant,
        now: u64,
    },
    Resume {
        grant: Grant,
        rev: u64,
        birth: Option<u64>,
        author: Option<Units>,
        now: u64,
    },
    Accept {
        session: Session,
        base: u64,
        change: Change,
        now: u64,
    },
    Fetch {
        session: Session,
        from: u64,
        told: u64,
    },
    Leave {
        session: Session,
    },
    Create {
        text: Units,
        now: u64,
    },
    SetText {
        text: Units,
        now: u64,
    },
    Delete {
        now: u64,
    },
    SetPublic {
        on: bool,
    },
    Text {
        rev: Option<u64>,
    },
    History {
        session: Session,
        start: u64,
        count: u64,
    },
    Status,
}

/// What a pad replies.
#[derive(Drop)]
pub enum PadReply {
    Welcome(Result<Welcome, PadBad>),
    CatchUp(Result<CatchUp, PadBad>),
    Committed(Result<Committed, PadBad>),
    Fetched(Result<Fetched, PadBad>),
    Done(Result<(), PadBad>),
    Birth(Result<u64, PadBad>),
    Text(Result<Doc, PadBad>),
    Piece(Result<Piece, PadBad>),
    Status(Result<PadStatus, PadBad>),
}

impl PadEntry {
    /// The reply to it where it is refused for this cause.
    pub(crate) fn refused(self, why: PadBad) -> PadReply
        ensures suits { Suits self result }
        ensures reply { reply_of result ≡ Err why }
    {
        match self {
            PadEntry::Login { grant: _, now: _ } => PadReply::Welcome(Err(why)),
            PadEntry::Resume {
                grant: _,
                rev: _,
                birth: _,
                author: _,
                now: _,
            } => PadReply::CatchUp(Err(why)),
            PadEntry::Accept {
                session: _,
                base: _,
                change: _,
                now: _,
            } => PadReply::Committed(Err(why)),
            PadEntry::Fetch {
                session: _,
                from: _,
                told: _,
            } => PadReply::Fetched(Err(why)),
            PadEntry::Leave { session: _ } => PadReply::Done(Err(why)),
            PadEntry::Create { text: _, now: _ } => PadReply::Birth(Err(why)),
            PadEntry::SetText { text: _, now: _ } => PadReply::Committed(Err(why)),
            PadEntry::Delete { now: _ } => PadReply::Done(Err(why)),
            PadEntry::SetPublic { on: _ } => PadReply::Done(Err(why)),
            PadEntry::Text { rev: _ } => PadReply::Text(Err(why)),
            PadEntry::History {
                session: _,
                start: _,
                count: _,
            } => PadReply::Piece(Err(why)),
            PadEntry::Status => PadReply::Status(Err(why)),
        }
    }
}

impl<D: Disk> PadMachine<D> {
    fn answer(&mut self, entry: PadEntry) -> PadReply
        requires { MayAsk (entry_of entry) }
        ensures makes { MakesOver D.told D.failures D.moment D.since D.is_steady D.stops_alone D.left self.old (entry_of entry) (reply_of result) self.new }
        ensures suits { Suits entry result }
    {
        match entry {
            PadEntry::Login { grant, now } => PadReply::Welcome(self.login(&grant, now)),
            PadEntry::Resume {
                grant,
                rev,
                birth,
                author,
                now,
            } => PadReply::CatchUp(self.resume(&grant, rev, birth, author.as_ref(), now)),
            PadEntry::Accept {
                session,
                base,
                change,
                now,
            } => PadReply::Committed(self.accept(session, base, change, now)),
            PadEntry::Fetch {
                session,
                from,
                told,
            } => PadReply::Fetched(self.fetch(session, from, told)),
            PadEntry::Leave { session } => PadReply::Done(self.leave(session)),
            PadEntry::Create { text, now } => PadReply::Birth(self.create(&text, now)),
            PadEntry::SetText { text, now } => PadReply::Committed(self.set_text(&text, now)),
            PadEntry::Delete { now } => PadReply::Done(self.delete(now)),
            PadEntry::SetPublic { on } => PadReply::Done(self.set_public(on)),
            PadEntry::Text { rev } => PadReply::Text(self.text(rev)),
            PadEntry::History {
                session,
                start,
                count,
            } => PadReply::Piece(self.history(session, start, count)),
            PadEntry::Status => PadReply::Status(self.status()),
        }
    }
}

impl<D: Disk + Drop> Machine for PadMachine<D> {
    ghost use Rattle.ep_pad.specs.Entries.{MayAsk, entry_of};
    ghost use Rattle.ep_pad.specs.Histories.{HasMade, IsLegalAfter};

    type Entry = PadEntry;

    type Reply = PadReply;

    ghost allows = { λ e. MayAsk (entry_of e) };

    ghost stands = { HasMade D.told D.failures };

    ghost legal = { IsLegalAfter D.told D.failures };

    ghost stands_legal = { λ begun m h made. (λ told. let x = made.0 told in (x.0, x.1, x.2, x.3), made.1) };

    fn call(&mut self, entry: PadEntry) -> PadReply {
        self.answer(entry)
    }
}

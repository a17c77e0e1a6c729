//! The sessions of an opening.

ghost use Rattle.std.specs.Prelude.{◌≡◌, ◌+◌, ◌≤◌, ◌<◌, ◌++◌, ◌∷◌, [], ℕ, true, false, length, map, slice_set, Some, IfOk, IfErr, OnOk, OnErr, MatchOption};
ghost use Rattle.std.specs.List.{find, list_any};
ghost use Rattle.std.specs.Option.{option_copied};
ghost use Rattle.ep_history.specs.Lists.{at};
ghost use Rattle.ep_history.specs.Pad.{PadState, AreSingle, seat_of, next_session, with_session, leave, delete, live_count, has_live};
ghost use Rattle.ep_history.specs.Readings.{dead_fault};
ghost use Rattle.ep_seats.specs.Kept.{StandsFor, Tells, Becomes, HasNext, live_seat, RefusesAll};
ghost use Rattle.ep_seats.specs.Places.{sits, sits_at, replaced_place, IsSingle, place_for};
ghost use Rattle.ep_seats.specs.declared.place.Place.TheVariants as place;

use crate::place::Place;
use ep_history::{PadBad, Why};
use ep_units::{NoMemory, Session, Units};
use std::alloc::Global;
use std::marker::Model;

/// The sessions of one opening of a pad.
///
/// `places` has one place for each session, in order; `live` has the indices of those where somebody sits, in rising
/// order, so that who enters is compared with the live ones alone.
pub struct Seats {
    epoch: u64,
    places: Vec<Place>,
    live: Vec<usize>,
}

impl Drop for Seats {
    fn drop(self) {
        let Seats {
            epoch: _,
            places: _,
            live: _,
        } = self;
    }
}

impl Model for Seats {
    ghost use Rattle.ep_seats.specs.Kept.{KeptSeats};

    ghost Value = { KeptSeats };

    ghost use Rattle.ep_seats.specs.Held.{kept_of, IsHeld};

    ghost view = { kept_of };

    ghost invariant = { IsHeld };
}

/// A live session.
#[derive(Clone, Copy)]
pub struct Live<'a> {
    pub author: &'a Units,
    pub read_only: bool,
}

impl Seats {
    /// The opening of this number, counted from 1, which nobody has entered yet.
    pub fn new(alloc: Global, epoch: u64) -> Seats
        ensures { (pad : PadState) → pad.epoch ≡ epoch → pad.sessions ≡ [] → StandsFor result pad }
    {
        Seats {
            epoch,
            places: Vec::new(alloc),
            live: Vec::new(alloc),
        }
    }

    /// The number of the opening.
    pub fn epoch(&self) -> u64
        ensures { Tells self.now (λ pad. pad.epoch) result }
    {
        self.epoch
    }

    /// How many sessions are live, no two of them of one author.
    pub fn live_count(&self) -> u64
        ensures live { Tells self.now (λ pad. live_count pad.sessions) result }
        ensures single { (pad : PadState) → StandsFor self.now pad → AreSingle pad.sessions }
    {
        self.live.len() as u64
    }

    /// Whether an author has a live session.
    pub fn has_live(&self, author: &Units) -> bool
        ensures { Tells self.now (λ pad. has_live author.now pad.sessions) result }
    {
        self.find_author(author).is_some()
    }

    /// A live session; any other is refused by why it isn't live.
    pub fn live(&self, session: Session) -> Result<Live<'_>, PadBad>
        ensures live { IfOk result (λ l. Tells self.now (λ pad. seat_of pad session) (Some (live_seat l.author.now l.read_only))) }
        ensures dead { IfErr result (λ bad. Tells self.now (λ pad. dead_fault pad session) (Some bad)) }
    {
        match self.place(session) {
            None => Err(PadBad::Dead(Why::Reopened(self.epoch))),
            Some(Place::Ended(why)) => Err(PadBad::Dead(*why)),
            Some(Place::Sits { author, read_only }) => Ok(Live {
                author,
                read_only: *read_only,
            }),
        }
    }

    /// The author of a live session that may write. Every edit of any other session is refused for this, whatever it is.
    pub fn writer(&self, session: Session) -> Result<&Units, PadBad>
        ensures writes { IfOk result (λ author. Tells self.now (λ pad. seat_of pad session) (Some (live_seat author.now false))) }
        ensures refused { IfErr result (λ bad. RefusesAll self.now session bad) }
    {
        let live = self.live(session)?;
        if live.read_only {
            return Err(PadBad::ReadOnly);
        }
        Ok(live.author)
    }

    /// How many sessions the opening made.
    pub(crate) fn made(&self) -> u64
        ensures { result ≡ length self.now.places }
    {
        self.places.len() as u64
    }

    /// The session that the next one to enter gets.
    pub fn next_session(&self) -> Session
        requires { HasNext self.now }
        ensures { Tells self.now next_session result }
    {
        Session {
            epoch: self.epoch,
            count: self.made() + 1,
        }
    }

    /// Makes room for one more session.
    pub fn reserve(&mut self) -> Result<(), NoMemory>
        ensures room { OnOk result (0 < self.new.room) }
        ensures kept { self.new ≡ record self.old { room = self.new.room } }
    {
        self.places.reserve(1)?;
        self.live.reserve(1)?;
        Ok(())
    }

    /// A new session, which ends the older one of its author. It takes no memory.
    pub fn enter(&mut self, author: Units, read_only: bool) -> Session
        requires room { 0 < self.old.room }
        requires next { HasNext self.old }
        ensures entered { Becomes self.old (λ pad. with_session pad author read_only) self.new }
        ensures session { Tells self.old next_session result }
    {
        let session = self.next_session();
        self.end_older(&author, Why::Replaced(session));
        self.sit(author, read_only);
        session
    }

    /// A session leaves; one that isn't live is refused.
    pub fn leave(&mut self, session: Session) -> Result<(), PadBad>
        ensures left { OnOk result (Becomes self.old (λ pad. leave pad session) self.new) }
        ensures live { OnOk result (Tells self.old (λ pad. dead_fault pad session) None) }
        ensures dead { IfErr result (λ bad. Tells self.old (λ pad. dead_fault pad session) (Some bad)) }
        ensures kept { OnErr result (self.new ≡ self.old) }
    {
        self.live(session)?;
        self.end(session.count as usize - 1, Why::Left);
        Ok(())
    }

    /// The pad's birth of this number, its last one, is deleted, and every live session ends.
    pub fn end_all(&mut self, birth: u64)
        ensures { (pad : PadState) → StandsFor self.old pad → length pad.births ≡ birth → StandsFor self.new (delete pad) }
    {
        while let Some(i) = self.live.pop() {
            self.places[i] = Place::Ended(Why::Deleted(birth));
        }
    }

    /// The place of a session, where this opening made it.
    fn place(&self, session: Session) -> Option<&Place>
        ensures { option_copied result ≡ place_for self.now session }
    {
        if session.epoch != self.epoch || session.count == 0 {
            return None;
        }
        self.places.get(session.count as usize - 1)
    }

    /// The index of the one place where an author sits.
    fn find_author(&self, author: &Units) -> Option<usize>
        ensures single { IsSingle self.now.places }
        ensures found { MatchOption result (list_any (sits author.now) self.now.places ≡ false) (λ i. sits_at author.now (at self.now.places i) ≡ true) }
    {
        first_of(&self.places, &self.live, author)
    }

    fn end(&mut self, i: usize, why: Why)
        requires { i < length self.old.places }
        ensures places { self.new.places ≡ slice_set self.old.places i (place.Ended why) }
        ensures epoch { self.new.epoch ≡ self.old.epoch }
        ensures room { self.old.room ≤ self.new.room }
    {
        self.places[i] = Place::Ended(why);
        self.live.retain(|place| *place != i);
    }

    fn end_older(&mut self, author: &Units, why: Why)
        ensures places { self.new.places ≡ map (replaced_place author.now why) self.old.places }
        ensures epoch { self.new.epoch ≡ self.old.epoch }
        ensures room { self.old.room ≤ self.new.room }
    {
        if let Some(i) = self.find_author(author) {
            self.end(i, why);
        }
    }

    fn sit(&mut self, author: Units, read_only: bool)
        requires room { 0 < self.old.room }
        requires nobody { list_any (sits author) self.old.places ≡ false }
        ensures places { self.new.places ≡ self.old.places ++ place.Sits author read_only ∷ [] }
        ensures epoch { self.new.epoch ≡ self.old.epoch }
    {
        self.live.push_reserved(self.places.len());
        self.places.push_reserved(Place::Sits { author, read_only });
    }
}

/// The first of these places where an author sits.
fn first_of(places: &[Place], live: &[usize], author: &Units) -> Option<usize>
    ensures { result ≡ find (λ i. sits_at author.now (at places.now i)) live.now }
{
    live.iter().copied().find(|i| sits_at(places, *i, author))
}

fn sits_at(places: &[Place], i: usize, author: &Units) -> bool
    ensures { result ≡ sits_at author.now (at places.now i) }
{
    places.get(i).is_some_and(|place| place.is_of(author))
}

//! What is to be recorded, made ready.

ghost use Rattle.std.specs.Prelude.{◌≡◌};

use crate::birth::Birth;
use crate::pad::{Last, Pad};
use ep_history::{Nop, Record};
use ep_seats::Seats;
use ep_step::Revised;
use ep_units::Units;

/// What a pad becomes, with all memory that it takes.
#[derive(Drop)]
pub enum PadChange {
    /// The revisions of a step.
    Revisions(Revised),
    /// An edit that became nothing.
    Nop(Nop),
    /// One birth more.
    Birth(Birth),
    /// One birth more, which this author enters.
    FirstLogin {
        birth: Birth,
        author: Units,
        read_only: bool,
    },
    Deletion,
    /// Whether anybody may enter.
    Public(bool),
    /// The next opening, which nobody has entered yet.
    Opening(Seats),
}

/// A call that isn't refused: what is to be recorded, what is answered then, and what the pad becomes. The record alone has
/// the author of a step's edit, whose text need not be kept twice.
#[derive(Drop)]
pub struct Ready<A> {
    pub record: Record,
    pub answer: A,
    pub change: PadChange,
}

impl PadChange {
    ghost use Rattle.ep_pad_state.specs.Making.{filled};

    /// What its record kept for it is given to it. It takes no memory.
    pub fn fill(&mut self, entry: Record)
        ensures { self.new ≡ filled self.old entry }
    {
        if let PadChange::Revisions(revised) = self {
            if let Record::Rev { author, .. } = entry {
                revised.edit.rev.author = author;
            }
        }
    }
}

impl Pad {
    ghost use Rattle.std.specs.Prelude.{◌∷◌, []};
    ghost use Rattle.ep_history.specs.Pad.{PadState, with_revs, with_nops, delete};
    ghost use Rattle.ep_step.specs.Revised.{revs_of};
    ghost use Rattle.ep_pad_state.specs.Held.{IsPad, Keeps};
    ghost use Rattle.ep_pad_state.specs.Making.{after, with_birth, IsReady, TakesRevs, TakesNop, TakesBirth};

    /// Makes a change that was made ready for this pad as it is. It takes no memory.
    pub fn commit(&mut self, change: PadChange)
        requires { IsReady self.old change }
        ensures { (p : PadState) → IsPad self.old p → IsPad self.new (after change p) }
    {
        match change {
            PadChange::Revisions(revised) => self.lengthen(revised),
            PadChange::Nop(nop) => self.note(nop),
            PadChange::Birth(birth) => self.bear(birth),
            PadChange::FirstLogin {
                birth,
                author,
                read_only,
            } => {
                self.bear(birth);
                self.seats.enter(author, read_only);
            }
            PadChange::Deletion => self.vanish(),
            PadChange::Public(on) => self.public = on,
            PadChange::Opening(seats) => self.seats = seats,
        }
    }

    fn lengthen(&mut self, revised: Revised)
        requires { TakesRevs self.old.last revised }
        ensures { (p : PadState) → IsPad self.old p → Keeps self.new (with_revs p (revs_of revised)) }
    {
        if let Last::There(birth) = &mut self.last {
            birth.lengthen(revised);
        }
    }

    fn note(&mut self, nop: Nop)
        requires { TakesNop self.old.last nop }
        ensures { (p : PadState) → IsPad self.old p → Keeps self.new (with_nops p (nop ∷ [])) }
    {
        if let Last::There(birth) = &mut self.last {
            birth.note(nop);
        }
    }

    fn bear(&mut self, birth: Birth)
        requires { TakesBirth self.old birth }
        ensures keeps { (p : PadState) → Keeps self.old p → Keeps self.new (with_birth p birth.revs.revs) }
        ensures seats { self.new.seats ≡ self.old.seats }
    {
        self.births += 1;
        self.last = Last::There(birth);
        self.public = false;
    }

    fn vanish(&mut self)
        ensures { (p : PadState) → Keeps self.old p → Keeps self.new (delete p) }
    {
        let head = self.last.head();
        self.last = Last::Gone(head);
        self.seats.end_all(self.births);
    }
}

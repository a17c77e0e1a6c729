//! A pad in memory.

ghost use Rattle.std.specs.Prelude.{◌≡◌};

use crate::birth::Birth;
use ep_cs::Change;
use ep_history::PadBad;
use ep_outside::Limits;
use ep_seats::{PadFacts, Seats};
use ep_units::Session;
use std::alloc::Global;

/// The last birth.
#[derive(Drop)]
pub enum Last {
    There(Birth),
    /// It is gone, and this was its last revision; 0 where there was no birth yet.
    Gone(u64),
}

/// An open pad: how many times it was made, its last birth, whether anybody may enter it, and the sessions of this
/// opening.
pub struct Pad {
    pub(crate) limits: Limits,
    pub(crate) seats: Seats,
    pub(crate) births: u64,
    pub(crate) last: Last,
    pub(crate) public: bool,
}

impl Drop for Pad {
    fn drop(self) {
        let Pad {
            limits: _,
            seats: _,
            births: _,
            last: _,
            public: _,
        } = self;
    }
}

impl Last {
    ghost use Rattle.ep_history.specs.Pad.{PadState, newest};
    ghost use Rattle.ep_history.specs.History.{head};
    ghost use Rattle.ep_pad_state.specs.Held.{IsLast};

    /// The number of its last revision.
    pub(crate) fn head(&self) -> u64
        ensures { (p : PadState) → IsLast self.now p → result ≡ head (newest p) }
    {
        match self {
            Last::There(birth) => birth.last(),
            Last::Gone(head) => *head,
        }
    }

    /// Whether it is there.
    pub(crate) fn present(&self) -> bool
        ensures { (p : PadState) → IsLast self.now p → result ≡ p.present }
    {
        matches!(self, Last::There(_))
    }

    /// Puts maps of the session's last revision in the place of equal ones, so that both keep one.
    pub(crate) fn share_maps(&self, alloc: Global, session: Session, change: &mut Change)
        ensures { change.new ≡ change.old }
    {
        if let Last::There(birth) = self {
            birth.share_maps(alloc, session, change);
        }
    }
}

impl Pad {
    ghost use Rattle.std.specs.Prelude.{true, false, MatchResult};
    ghost use Rattle.ep_history.specs.Pad.{PadState, newest};
    ghost use Rattle.ep_history.specs.Records.{unopened};
    ghost use Rattle.ep_history.specs.declared.pad_bad.PadBad.TheVariants.{Gone};
    ghost use Rattle.ep_seats.specs.Entering.{facts_of};
    ghost use Rattle.ep_pad_state.specs.Held.{IsBirth, IsPad, Keeps};

    /// The pad before its first record.
    pub fn unopened(alloc: Global, limits: Limits) -> Pad
        ensures { IsPad result (unopened limits) }
    {
        Pad {
            limits,
            seats: Seats::new(alloc, 0),
            births: 0,
            last: Last::Gone(0),
            public: false,
        }
    }

    /// The number of the opening; 0 before the first.
    pub fn epoch(&self) -> u64
        ensures { (p : PadState) → IsPad self.now p → result ≡ p.epoch }
    {
        self.seats.epoch()
    }

    /// What decides who may enter, beside the sessions.
    pub(crate) fn facts(&self) -> PadFacts
        ensures { (p : PadState) → Keeps self.now p → facts_of p ≡ result }
    {
        PadFacts {
            limits: self.limits,
            present: self.last.present(),
            public: self.public,
            births: self.births,
            head: self.last.head(),
        }
    }

    /// The last birth where it is there.
    pub(crate) fn birth(&self) -> Result<&Birth, PadBad>
        ensures { (p : PadState) → Keeps self.now p
            → MatchResult result (λ birth. (p.present ≡ true) × IsBirth birth.now (newest p)) (λ bad. (bad ≡ Gone) × (p.present ≡ false)) }
    {
        match &self.last {
            Last::There(birth) => Ok(birth),
            Last::Gone(_) => Err(PadBad::Gone),
        }
    }
}

//! Who may enter.

ghost use Rattle.std.specs.Prelude.{◌≡◌, OnOk};
ghost use Rattle.std.specs.Option.{option_copied};
ghost use Rattle.ep_units.specs.PadId.{has_group};
ghost use Rattle.ep_history.specs.Pad.{PadState};
ghost use Rattle.ep_history.specs.Refusals.{first_fault, full_faults, login_fault, resume_fault, makes_none};
ghost use Rattle.ep_seats.specs.Kept.{StandsFor, HasNext};
ghost use Rattle.ep_seats.specs.Entering.{answered, TellsWith, is_closed_to};

use crate::seats::Seats;
use ep_history::PadBad;
use ep_outside::Limits;
use ep_units::{Grant, PadId, Units};

/// What decides who may enter a pad, beside its sessions.
#[derive(Clone, Copy, Debug, PartialEq, Eq)]
pub struct PadFacts {
    pub limits: Limits,
    pub present: bool,
    pub public: bool,
    /// How many times the pad was made.
    pub births: u64,
    /// The last revision of the last birth.
    pub head: u64,
}

impl PadFacts {
    /// Whether the pad is of a group and closed to who isn't a member.
    fn is_closed_to(&self, grant: &Grant) -> bool
        ensures { result ≡ is_closed_to self.now grant.now }
    {
        has_group(&grant.pad) && !grant.member && !self.public
    }
}

impl Seats {
    /// Refuses an author where too many sessions are live and none is the author's, or too many were made.
    pub fn check_full(&self, limits: &Limits, author: &Units) -> Result<(), PadBad>
        ensures refused { (pad : PadState) → StandsFor self.now pad → pad.limits ≡ limits.now → result ≡ answered (first_fault (full_faults pad author.now)) }
        ensures next { OnOk result (HasNext self.now) }
    {
        if limits.live <= self.live_count() && !self.has_live(author) {
            return Err(PadBad::Full(limits.live));
        }
        if limits.logins <= self.made() {
            return Err(PadBad::Full(limits.logins));
        }
        Ok(())
    }

    /// Refuses a login, for each reason in its order.
    pub fn check_login(&self, facts: &PadFacts, grant: &Grant) -> Result<(), PadBad>
        ensures refused { TellsWith self.now facts.now (λ pad. answered (login_fault pad grant.now)) result }
        ensures next { OnOk result (HasNext self.now) }
    {
        if !facts.present && makes_none(grant) {
            return Err(PadBad::Denied(4));
        }
        if facts.present && facts.is_closed_to(grant) {
            return Err(PadBad::Denied(6));
        }
        self.check_full(&facts.limits, &grant.author)
    }

    /// Refuses a resumption at a revision, for each reason in its order. Who comes back may name the birth and the author.
    pub fn check_resume(
        &self,
        facts: &PadFacts,
        grant: &Grant,
        rev: u64,
        birth: Option<u64>,
        author: Option<&Units>,
    ) -> Result<(), PadBad>
        ensures refused { TellsWith self.now facts.now (λ pad. answered (resume_fault pad grant.now rev birth (option_copied author.entry))) result }
        ensures next { OnOk result (HasNext self.now) }
    {
        if facts.present && facts.is_closed_to(grant) {
            return Err(PadBad::Denied(6));
        }
        if author.is_some_and(|named| *named != grant.author) {
            return Err(PadBad::Denied(7));
        }
        self.check_full(&facts.limits, &grant.author)?;
        if !facts.present || birth.is_some_and(|named| named != facts.births) {
            return Err(PadBad::Gone);
        }
        if facts.head < rev {
            return Err(PadBad::BadRev(facts.head));
        }
        Ok(())
    }
}

/// Whether the grant makes no pad where none is.
fn makes_none(grant: &Grant) -> bool
    ensures { result ≡ makes_none grant.now }
{
    has_group(&grant.pad) || grant.read_only
}

fn has_group(pad: &PadId) -> bool
    ensures { result ≡ has_group pad.now }
{
    pad.group().is_some()
}

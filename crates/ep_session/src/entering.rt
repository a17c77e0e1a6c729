//! Who makes an absent pad, and what the others are told of it.

ghost use Rattle.std.specs.Prelude.{◌≡◌};
ghost use Rattle.ep_units.specs.PadId.{has_group};
ghost use Rattle.ep_history.specs.Refusals.{is_other, makes_none};
ghost use Rattle.ep_session.specs.Ends.{absent_fault, end_of_pass, may_make};

use crate::end::End;
use ep_pad::{PadBad, PassBad};
use ep_units::{Grant, PadId};
use ep_wire_words::Resume;

fn has_group(pad: &PadId) -> bool
    ensures { result ≡ has_group pad.now }
{
    pad.group().is_some()
}

fn makes_none(grant: &Grant) -> bool
    ensures { result ≡ makes_none grant.now }
{
    has_group(&grant.pad) || grant.read_only
}

/// Whether who comes makes the pad where it is absent.
pub fn may_make(grant: &Grant, resume: &Option<Resume>) -> bool
    ensures { result ≡ may_make grant.now resume.now }
{
    match resume {
        None => !makes_none(grant),
        Some(_) => false,
    }
}

fn names_other(grant: &Grant, again: &Resume) -> bool
    ensures { result ≡ is_other grant.now.author again.now.author }
{
    match &again.author {
        Some(named) => *named != grant.author,
        None => false,
    }
}

fn absent_fault(grant: &Grant, resume: &Option<Resume>) -> PadBad
    ensures { result ≡ absent_fault grant.now resume.now }
{
    match resume {
        None => PadBad::Denied(4),
        Some(again) => {
            if names_other(grant, again) {
                PadBad::Denied(7)
            } else {
                PadBad::Gone
            }
        }
    }
}

/// The end that a refused pass brings.
pub fn end_of_pass(grant: &Grant, resume: &Option<Resume>, bad: PassBad) -> End
    ensures { result ≡ end_of_pass grant.now resume.now bad }
{
    match bad {
        PassBad::Pads(n) => End::Pads(n),
        PassBad::Shelf(count) => End::ShelfFault(count),
        PassBad::Absent => End::from(absent_fault(grant, resume)),
        PassBad::NoMemory => End::NoMemory,
    }
}

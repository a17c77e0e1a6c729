//! A turn: one message is heard, what it asks for is done, and all that is new is told.

ghost use Rattle.std.specs.Prelude.{◌≡◌, ◌≤◌, [], ◌∷◌};
ghost use Rattle.ep_cell.specs.History.{pairs};
ghost use Rattle.ep_pad.specs.Lazy.{IsLegalFrom};
ghost use Rattle.ep_session.specs.Session.{Hear};
ghost use Rattle.ep_session.specs.Says.{Done, Ended, IsCaused, IsFault};

use crate::act::act;
use crate::end::End;
use crate::fetch::catch_up;
use crate::hear::hear;
use crate::place::Place;
use ep_link::Link;
use ep_outside::Clock;
use ep_pad::PadPort;
use std::alloc::Global;
use std::sync::Wait;

/// One turn.
pub fn turn<R: Wait, L: Link, P: PadPort, C: Clock>(
    rt: &R,
    alloc: Global,
    pads: &P,
    pass: &mut P::Pass,
    link: &mut L,
    clock: &C,
    place: &mut Place,
) -> Result<(), End>
    requires of { P.is_of pads.now pass.old }
    ensures of { P.is_of pads.now pass.new }
    ensures pad { (P.name_of pass.new ≡ P.name_of pass.old) × (P.cell_of pass.new ≡ P.cell_of pass.old) × (P.begun pass.new ≡ P.begun pass.old) }
    ensures legal { IsLegalFrom P.Store.told P.Store.failures (P.begun pass.old) (pairs (P.known pass.old).seen) → IsLegalFrom P.Store.told P.Store.failures (P.begun pass.new) (pairs (P.known pass.new).seen) }
    ensures done { Done (C.may_show clock.now) (L.traffic link.old) (L.traffic link.new) (P.known pass.old) (P.known pass.new) place.old place.new (Hear ∷ []) result (λ _. Hear ∷ []) }
    ensures cause { IsCaused result (L.failures link.old) (L.failures link.new) }
    ensures later { L.failures link.old ≤ L.failures link.new }
{
    let asked = hear(rt, alloc, link)?;
    act(rt, alloc, pads, pass, link, clock, place, asked)?;
    catch_up(rt, alloc, pads, pass, link, place)
}

/// Turns, until the session ends.
pub fn turns<R: Wait, L: Link, P: PadPort, C: Clock>(
    rt: &R,
    alloc: Global,
    pads: &P,
    pass: &mut P::Pass,
    link: &mut L,
    clock: &C,
    place: &mut Place,
) -> End
    requires of { P.is_of pads.now pass.old }
    ensures of { P.is_of pads.now pass.new }
    ensures pad { (P.name_of pass.new ≡ P.name_of pass.old) × (P.cell_of pass.new ≡ P.cell_of pass.old) × (P.begun pass.new ≡ P.begun pass.old) }
    ensures legal { IsLegalFrom P.Store.told P.Store.failures (P.begun pass.old) (pairs (P.known pass.old).seen) → IsLegalFrom P.Store.told P.Store.failures (P.begun pass.new) (pairs (P.known pass.new).seen) }
    ensures done { Ended (C.may_show clock.now) (L.traffic link.old) (L.traffic link.new) (P.known pass.old) (P.known pass.new) place.old place.new (Hear ∷ []) result }
    ensures cause { IsFault result (L.failures link.old) (L.failures link.new) }
    ensures later { L.failures link.old ≤ L.failures link.new }
{
    'turns: for _ in rt.forever() {
        match turn(rt, alloc, pads, pass, link, clock, place) {
            Ok(()) => {}
            Err(end) => return end,
        }
    }
    unreachable!()
}

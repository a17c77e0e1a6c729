//! What is new in the pad.

ghost use Rattle.std.specs.Prelude.{◌≡◌, ◌≤◌, [], ◌∷◌, if◌then◌else◌};
ghost use Rattle.ep_cell.specs.History.{pairs};
ghost use Rattle.ep_pad.specs.Lazy.{IsLegalFrom};
ghost use Rattle.ep_session.specs.Session.{Fetch};
ghost use Rattle.ep_session.specs.Says.{Done, IsCaused, no_moment};

use crate::end::End;
use crate::place::{Place, counted};
use crate::say::tell_all;
use ep_link::Link;
use ep_pad::PadPort;
use std::alloc::Global;
use std::sync::Wait;

// Fetches once, tells what came, and says whether that was all.
fn fetch<R: Wait, L: Link, P: PadPort>(
    rt: &R,
    alloc: Global,
    pads: &P,
    pass: &mut P::Pass,
    link: &mut L,
    place: &mut Place,
) -> Result<bool, End>
    requires of { P.is_of pads.now pass.old }
    ensures of { P.is_of pads.now pass.new }
    ensures pad { (P.name_of pass.new ≡ P.name_of pass.old) × (P.cell_of pass.new ≡ P.cell_of pass.old) × (P.begun pass.new ≡ P.begun pass.old) }
    ensures legal { IsLegalFrom P.Store.told P.Store.failures (P.begun pass.old) (pairs (P.known pass.old).seen) → IsLegalFrom P.Store.told P.Store.failures (P.begun pass.new) (pairs (P.known pass.new).seen) }
    ensures done { Done no_moment (L.traffic link.old) (L.traffic link.new) (P.known pass.old) (P.known pass.new) place.old place.new (Fetch ∷ []) result (λ full. if full then [] else Fetch ∷ []) }
    ensures cause { IsCaused result (L.failures link.old) (L.failures link.new) }
    ensures later { L.failures link.old ≤ L.failures link.new }
{
    let fetched = ep_pad_calls::fetch(rt, pads, pass, place.me, place.rev, place.nops)?;
    let full = fetched.head == counted(place.rev, fetched.revs.len() as u64);
    tell_all(rt, alloc, link, place, fetched.revs, &fetched.nops)?;
    Ok(full)
}

/// Fetches all that is new, and tells it.
pub fn catch_up<R: Wait, L: Link, P: PadPort>(
    rt: &R,
    alloc: Global,
    pads: &P,
    pass: &mut P::Pass,
    link: &mut L,
    place: &mut Place,
) -> Result<(), End>
    requires of { P.is_of pads.now pass.old }
    ensures of { P.is_of pads.now pass.new }
    ensures pad { (P.name_of pass.new ≡ P.name_of pass.old) × (P.cell_of pass.new ≡ P.cell_of pass.old) × (P.begun pass.new ≡ P.begun pass.old) }
    ensures legal { IsLegalFrom P.Store.told P.Store.failures (P.begun pass.old) (pairs (P.known pass.old).seen) → IsLegalFrom P.Store.told P.Store.failures (P.begun pass.new) (pairs (P.known pass.new).seen) }
    ensures done { Done no_moment (L.traffic link.old) (L.traffic link.new) (P.known pass.old) (P.known pass.new) place.old place.new (Fetch ∷ []) result (λ _. []) }
    ensures cause { IsCaused result (L.failures link.old) (L.failures link.new) }
    ensures later { L.failures link.old ≤ L.failures link.new }
{
    'fetches: for _ in rt.forever() {
        if fetch(rt, alloc, pads, pass, link, place)? {
            return Ok(());
        }
    }
    unreachable!()
}

//! A session on its pad: the login or the resumption, and then turns until it ends.

ghost use Rattle.std.specs.Prelude.{◌≡◌, ◌≤◌, [], ◌∷◌, None, IfSome};
ghost use Rattle.ep_cell.specs.History.{pairs};
ghost use Rattle.ep_groups.specs.History.{IsLegal};
ghost use Rattle.ep_pad.specs.Lazy.{IsLegalFrom};
ghost use Rattle.ep_session.specs.Passing.{IsGiven, own, own_of};
ghost use Rattle.ep_session.specs.Session.{Ask, Enter, Fetch, Hear, joining};
ghost use Rattle.ep_session.specs.Says.{Came, Done, Ended, IsCaused, IsFault};

use crate::begin::{log_in, rejoin};
use crate::end::End;
use crate::entering::{end_of_pass, may_make};
use crate::fetch::catch_up;
use crate::place::Place;
use crate::ready::Ready;
use crate::turn::turns;
use ep_dir_records::Drawn;
use ep_groups::DirPort;
use ep_link::Link;
use ep_outside::Clock;
use ep_pad::PadPort;
use ep_units::Grant;
use ep_wire_words::Resume;
use std::alloc::Global;
use std::sync::Wait;

fn join<R: Wait, L: Link, P: PadPort, C: Clock>(
    rt: &R,
    alloc: Global,
    pads: &P,
    pass: &mut P::Pass,
    link: &mut L,
    clock: &C,
    place: &mut Place,
    grant: &Grant,
    resume: Option<Resume>,
) -> Result<(), End>
    requires of { P.is_of pads.now pass.old }
    ensures of { P.is_of pads.now pass.new }
    ensures pad { (P.name_of pass.new ≡ P.name_of pass.old) × (P.cell_of pass.new ≡ P.cell_of pass.old) × (P.begun pass.new ≡ P.begun pass.old) }
    ensures legal { IsLegalFrom P.Store.told P.Store.failures (P.begun pass.old) (pairs (P.known pass.old).seen) → IsLegalFrom P.Store.told P.Store.failures (P.begun pass.new) (pairs (P.known pass.new).seen) }
    ensures done { Done (C.may_show clock.now) (L.traffic link.old) (L.traffic link.new) (P.known pass.old) (P.known pass.new) place.old place.new (joining grant.now resume ∷ []) result (λ _. Fetch ∷ Hear ∷ []) }
    ensures cause { IsCaused result (L.failures link.old) (L.failures link.new) }
    ensures later { L.failures link.old ≤ L.failures link.new }
{
    match resume {
        None => log_in(rt, alloc, pads, pass, link, clock, place, grant),
        Some(again) => rejoin(rt, alloc, pads, pass, link, clock, place, grant, &again),
    }
}

// The login or the resumption, and then all that is new.
fn begin<R: Wait, L: Link, P: PadPort, C: Clock>(
    rt: &R,
    alloc: Global,
    pads: &P,
    pass: &mut P::Pass,
    link: &mut L,
    clock: &C,
    place: &mut Place,
    grant: &Grant,
    resume: Option<Resume>,
) -> Result<(), End>
    requires of { P.is_of pads.now pass.old }
    ensures of { P.is_of pads.now pass.new }
    ensures pad { (P.name_of pass.new ≡ P.name_of pass.old) × (P.cell_of pass.new ≡ P.cell_of pass.old) × (P.begun pass.new ≡ P.begun pass.old) }
    ensures legal { IsLegalFrom P.Store.told P.Store.failures (P.begun pass.old) (pairs (P.known pass.old).seen) → IsLegalFrom P.Store.told P.Store.failures (P.begun pass.new) (pairs (P.known pass.new).seen) }
    ensures done { Done (C.may_show clock.now) (L.traffic link.old) (L.traffic link.new) (P.known pass.old) (P.known pass.new) place.old place.new (joining grant.now resume ∷ []) result (λ _. Hear ∷ []) }
    ensures cause { IsCaused result (L.failures link.old) (L.failures link.new) }
    ensures later { L.failures link.old ≤ L.failures link.new }
{
    join(rt, alloc, pads, pass, link, clock, place, grant, resume)?;
    catch_up(rt, alloc, pads, pass, link, place)
}

// The login or the resumption, and then all turns.
fn on_pad<R: Wait, L: Link, P: PadPort, C: Clock>(
    rt: &R,
    alloc: Global,
    pads: &P,
    pass: &mut P::Pass,
    link: &mut L,
    clock: &C,
    place: &mut Place,
    grant: &Grant,
    resume: Option<Resume>,
) -> End
    requires of { P.is_of pads.now pass.old }
    ensures of { P.is_of pads.now pass.new }
    ensures pad { (P.name_of pass.new ≡ P.name_of pass.old) × (P.cell_of pass.new ≡ P.cell_of pass.old) × (P.begun pass.new ≡ P.begun pass.old) }
    ensures legal { IsLegalFrom P.Store.told P.Store.failures (P.begun pass.old) (pairs (P.known pass.old).seen) → IsLegalFrom P.Store.told P.Store.failures (P.begun pass.new) (pairs (P.known pass.new).seen) }
    ensures done { Ended (C.may_show clock.now) (L.traffic link.old) (L.traffic link.new) (P.known pass.old) (P.known pass.new) place.old place.new (joining grant.now resume ∷ []) result }
    ensures cause { IsFault result (L.failures link.old) (L.failures link.new) }
    ensures later { L.failures link.old ≤ L.failures link.new }
{
    match begin(rt, alloc, pads, pass, link, clock, place, grant, resume) {
        Ok(()) => turns(rt, alloc, pads, pass, link, clock, place),
        Err(end) => end,
    }
}

/// What a session of a grant holds at its end, and why it ended.
pub struct Housed<O, A> {
    pub hall: O,
    pub pass: Option<A>,
    pub end: End,
}

/// A session of a grant.
pub fn in_house<R: Wait, L: Link, P: PadPort, C: Clock>(
    rt: &R,
    alloc: Global,
    pads: &P,
    link: &mut L,
    clock: &C,
    place: &mut Place,
    grant: &Grant,
    resume: Option<Resume>,
) -> Housed<P::Hall, P::Pass>
    ensures hall { P.is_hall pads.now result.hall }
    ensures register { P.is_register (P.limits_of pads.now) (pairs (P.hall_known result.hall).seen) }
    ensures of { IfSome result.pass (λ pass. P.is_of pads.now pass) }
    ensures limits { IfSome result.pass (λ pass. (P.begun pass).limits ≡ P.limits_of pads.now) }
    ensures legal { IfSome result.pass (λ pass. IsLegalFrom P.Store.told P.Store.failures (P.begun pass) (pairs (P.known pass).seen)) }
    ensures one { IfSome result.pass (λ pass. IsGiven (own (P.hall_known result.hall)) (P.name_of pass) (P.cell_of pass)) }
    ensures came { Came (C.may_show clock.now) (L.traffic link.old) (L.traffic link.new) [] (own (P.hall_known result.hall)) (own_of P.known result.pass) place.old place.new (Enter grant.now resume ∷ []) result.end }
    ensures stays { result.pass ≡ None → place.new ≡ place.old }
    ensures cause { IsFault result.end (L.failures link.old) (L.failures link.new) }
    ensures later { L.failures link.old ≤ L.failures link.new }
{
    let mut hall = pads.hall(rt);
    match pads.pass(rt, &mut hall, &grant.pad, may_make(grant, &resume)) {
        Ok(mut pass) => {
            let end = on_pad(
                rt, alloc, pads, &mut pass, link, clock, place, grant, resume,
            );
            Housed {
                hall,
                pass: Some(pass),
                end,
            }
        }
        Err(bad) => Housed {
            hall,
            pass: None,
            end: end_of_pass(grant, &resume, bad),
        },
    }
}

/// What a session holds at its end, and why it ended.
pub struct Seated<O, A, B> {
    pub hall: Option<O>,
    pub pass: Option<A>,
    pub desk: Option<B>,
    pub end: End,
}

/// A session of a first message.
pub fn at_desk<R: Wait, L: Link, P: PadPort, G: DirPort, C: Clock>(
    rt: &R,
    alloc: Global,
    pads: &P,
    dir: &G,
    link: &mut L,
    clock: &C,
    place: &mut Place,
    drawn: Drawn,
    ready: Ready,
) -> Seated<P::Hall, P::Pass, G::Pass>
    ensures desk { IfSome result.desk (λ desk. G.is_of dir.now desk) }
    ensures asked { IfSome result.desk (λ desk. IsLegal G.Store.always_tells (G.begun dir.now) (pairs (G.known desk).seen)) }
    ensures hall { IfSome result.hall (λ hall. P.is_hall pads.now hall) }
    ensures register { IfSome result.hall (λ hall. P.is_register (P.limits_of pads.now) (pairs (P.hall_known hall).seen)) }
    ensures of { IfSome result.pass (λ pass. P.is_of pads.now pass) }
    ensures limits { IfSome result.pass (λ pass. (P.begun pass).limits ≡ P.limits_of pads.now) }
    ensures legal { IfSome result.pass (λ pass. IsLegalFrom P.Store.told P.Store.failures (P.begun pass) (pairs (P.known pass).seen)) }
    ensures one { IfSome result.pass (λ pass. IsGiven (own_of P.hall_known result.hall) (P.name_of pass) (P.cell_of pass)) }
    ensures came { Came (C.may_show clock.now) (L.traffic link.old) (L.traffic link.new) (own_of G.known result.desk) (own_of P.hall_known result.hall) (own_of P.known result.pass) place.old place.new (Ask drawn ready ∷ []) result.end }
    ensures stays { result.pass ≡ None → place.new ≡ place.old }
    ensures cause { IsFault result.end (L.failures link.old) (L.failures link.new) }
    ensures later { L.failures link.old ≤ L.failures link.new }
{
    let mut desk = dir.pass(rt);
    let now = clock.now_ms();
    match dir.grant(
        rt,
        &mut desk,
        &ready.pad,
        ready.looked_at(),
        &ready.token,
        now / 1000,
        drawn,
    ) {
        Ok(grant) => {
            let Housed { hall, pass, end } = in_house(
                rt,
                alloc,
                pads,
                link,
                clock,
                place,
                &grant,
                ready.resume,
            );
            Seated {
                hall: Some(hall),
                pass,
                desk: Some(desk),
                end,
            }
        }
        Err(bad) => Seated {
            hall: None,
            pass: None,
            desk: Some(desk),
            end: End::from(bad),
        },
    }
}

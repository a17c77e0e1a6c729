//! One connection, served from its first message to its end.

ghost use Rattle.std.specs.Prelude.{◌≡◌, ◌≤◌, ◌&&◌, [], ◌∷◌, None, false, true, IfSome};
ghost use Rattle.ep_cell.specs.History.{pairs};
ghost use Rattle.ep_groups.specs.History.{IsLegal};
ghost use Rattle.ep_pad.specs.Lazy.{IsLegalFrom};
ghost use Rattle.ep_dir_records.specs.declared.ids.Drawn.{Drawn as AnyDrawn};
ghost use Rattle.ep_session.specs.Drawing.{DrawsAll};
ghost use Rattle.ep_session.specs.Ends.{closing_of, leaves};
ghost use Rattle.ep_session.specs.Passing.{IfBoth, IsGiven, own, own_of};
ghost use Rattle.ep_session.specs.Session.{Greet, nowhere};
ghost use Rattle.ep_session.specs.Says.{Came, IsCaused, IsFault};
ghost use Rattle.ep_session.specs.Served.{Closes, LeavesBy, Served, last_of};

use crate::begin::greet;
use crate::drawing::draw;
use crate::end::End;
use crate::place::Place;
use crate::say::say;
use crate::serve::{Seated, at_desk};
use ep_dir_records::Drawn;
use ep_groups::DirPort;
use ep_link::Link;
use ep_outside::{Clock, Draws};
use ep_pad::PadPort;
use ep_units::Session;
use ep_wire_words::ServerMsg;
use std::alloc::Global;
use std::sync::Wait;

/// What a session was: its passes, what it answered, and why it ended.
#[derive(Drop)]
pub struct Report<O, A, B> {
    /// Its pass of the registry of pads, where the directory gave a grant.
    pub hall: Option<O>,
    /// Its pass of the pad, where the registry gave one.
    pub pass: Option<A>,
    /// Its pass of the directory, where a first message was read.
    pub desk: Option<B>,
    /// The session that the login or the resumption answered.
    pub session: Option<Session>,
    /// The revision that the client began at.
    pub start: u64,
    /// The last revision that was told, or the start.
    pub cursor: u64,
    /// How many of its edits were committed.
    pub taken: u64,
    pub end: End,
}

// Sends the closing, where the end has one.
fn close<R: Wait, L: Link>(rt: &R, alloc: Global, link: &mut L, reason: &End) -> Result<(), End>
    ensures closes { Closes reason.now (L.traffic link.old) (L.traffic link.new) result }
    ensures stays { closing_of reason.now ≡ None → L.failures link.new ≡ L.failures link.old }
    ensures cause { IsCaused result (L.failures link.old) (L.failures link.new) }
    ensures later { L.failures link.old ≤ L.failures link.new }
{
    match reason.closing() {
        None => Ok(()),
        Some(word) => say(rt, alloc, link, &ServerMsg::Closing(word)),
    }
}

// The end at last, and whether a session that ended so is left.
fn last(reason: End, closed: Result<(), End>) -> (bool, End)
    ensures leaves { result.0 ≡ leaves reason (last_of reason closed) }
    ensures end { result.1 ≡ last_of reason closed }
{
    let is_gone = reason.is_gone();
    let end = match closed {
        Ok(()) => reason,
        Err(fault) => fault,
    };
    (!is_gone && end.is_left(), end)
}

fn both(one: bool, other: bool) -> bool
    ensures { result ≡ (one && other) }
{
    one && other
}

// Leaves the pad.
fn leave_pad<R: Wait, P: PadPort>(rt: &R, pads: &P, pass: &mut P::Pass, place: &Place)
    requires of { P.is_of pads.now pass.old }
    ensures left { LeavesBy true place.now (own (P.known pass.old)) (own (P.known pass.new)) }
    ensures of { P.is_of pads.now pass.new }
    ensures legal { IsLegalFrom P.Store.told P.Store.failures (P.begun pass.new) (pairs (P.known pass.new).seen) }
    ensures pad { (P.name_of pass.new ≡ P.name_of pass.old) × (P.cell_of pass.new ≡ P.cell_of pass.old) × (P.begun pass.new ≡ P.begun pass.old) }
{
    drop(ep_pad_calls::leave(rt, pads, pass, place.me));
}

// Leaves the pad, where it is to.
fn leave<R: Wait, P: PadPort>(
    rt: &R,
    pads: &P,
    pass: Option<P::Pass>,
    place: &Place,
    leaves: bool,
) -> Option<P::Pass>
    requires none { pass ≡ None → leaves ≡ false }
    requires of { IfSome pass (λ pass. P.is_of pads.now pass) }
    requires legal { IfSome pass (λ pass. IsLegalFrom P.Store.told P.Store.failures (P.begun pass) (pairs (P.known pass).seen)) }
    ensures left { LeavesBy leaves place.now (own_of P.known pass) (own_of P.known result) }
    ensures of { IfSome result (λ pass. P.is_of pads.now pass) }
    ensures legal { IfSome result (λ pass. IsLegalFrom P.Store.told P.Store.failures (P.begun pass) (pairs (P.known pass).seen)) }
    ensures pad { IfBoth pass result (λ old new. (P.name_of new ≡ P.name_of old) × (P.cell_of new ≡ P.cell_of old) × (P.begun new ≡ P.begun old)) }
{
    match pass {
        None => None,
        Some(mut pass) => {
            if !leaves {
                return Some(pass);
            }
            leave_pad(rt, pads, &mut pass, place);
            Some(pass)
        }
    }
}

// All of a session but its closing and its leaving.
fn seat<R: Wait, L: Link, P: PadPort, G: DirPort, C: Clock>(
    rt: &R,
    alloc: Global,
    pads: &P,
    dir: &G,
    link: &mut L,
    clock: &C,
    place: &mut Place,
    drawn: Drawn,
) -> Seated<P::Hall, P::Pass, G::Pass>
    requires { place.old ≡ nowhere }
    ensures desk { IfSome result.desk (λ desk. G.is_of dir.now desk) }
    ensures asked { IfSome result.desk (λ desk. IsLegal G.Store.always_tells (G.begun dir.now) (pairs (G.known desk).seen)) }
    ensures hall { IfSome result.hall (λ hall. P.is_hall pads.now hall) }
    ensures register { IfSome result.hall (λ hall. P.is_register (P.limits_of pads.now) (pairs (P.hall_known hall).seen)) }
    ensures of { IfSome result.pass (λ pass. P.is_of pads.now pass) }
    ensures limits { IfSome result.pass (λ pass. (P.begun pass).limits ≡ P.limits_of pads.now) }
    ensures legal { IfSome result.pass (λ pass. IsLegalFrom P.Store.told P.Store.failures (P.begun pass) (pairs (P.known pass).seen)) }
    ensures one { IfSome result.pass (λ pass. IsGiven (own_of P.hall_known result.hall) (P.name_of pass) (P.cell_of pass)) }
    ensures came { Came (C.may_show clock.now) (L.traffic link.old) (L.traffic link.new) (own_of G.known result.desk) (own_of P.hall_known result.hall) (own_of P.known result.pass) nowhere place.new (Greet drawn ∷ []) result.end }
    ensures stays { result.pass ≡ None → place.new.inside ≡ false }
    ensures cause { IsFault result.end (L.failures link.old) (L.failures link.new) }
    ensures later { L.failures link.old ≤ L.failures link.new }
{
    match greet(rt, alloc, link) {
        Ok(ready) => at_desk(rt, alloc, pads, dir, link, clock, place, drawn, ready),
        Err(end) => Seated {
            hall: None,
            pass: None,
            desk: None,
            end,
        },
    }
}

/// Serves one connection. Ten numbers are drawn for it first.
pub fn serve_session<R: Wait, L: Link, P: PadPort, G: DirPort, C: Clock, D: Draws>(
    rt: &R,
    alloc: Global,
    pads: &P,
    dir: &G,
    link: &mut L,
    clock: &C,
    draws: &mut D,
) -> Report<P::Hall, P::Pass, G::Pass>
    ensures served { (drawn : AnyDrawn) × DrawsAll (D.to_come draws.old) (D.to_come draws.new) drawn.digits × Served (C.may_show clock.now) (L.traffic link.old) (L.traffic link.new) drawn (own_of G.known result.desk) (own_of P.hall_known result.hall) (own_of P.known result.pass) result.session result.start result.cursor result.taken result.end }
    // The passes are of these ports, and what they have seen is legal.
    ensures desk { IfSome result.desk (λ desk. G.is_of dir.now desk) }
    ensures asked { IfSome result.desk (λ desk. IsLegal G.Store.always_tells (G.begun dir.now) (pairs (G.known desk).seen)) }
    ensures hall { IfSome result.hall (λ hall. P.is_hall pads.now hall) }
    ensures register { IfSome result.hall (λ hall. P.is_register (P.limits_of pads.now) (pairs (P.hall_known hall).seen)) }
    ensures of { IfSome result.pass (λ pass. P.is_of pads.now pass) }
    ensures limits { IfSome result.pass (λ pass. (P.begun pass).limits ≡ P.limits_of pads.now) }
    ensures legal { IfSome result.pass (λ pass. IsLegalFrom P.Store.told P.Store.failures (P.begun pass) (pairs (P.known pass).seen)) }
    // The pass is the one that the registry gave.
    ensures one { IfSome result.pass (λ pass. IsGiven (own_of P.hall_known result.hall) (P.name_of pass) (P.cell_of pass)) }
    // A fault of the link is told with its count, which rose.
    ensures cause { IsFault result.end (L.failures link.old) (L.failures link.new) }
    ensures later { L.failures link.old ≤ L.failures link.new }
{
    let drawn = draw(draws);
    let mut place = Place::nowhere();
    let Seated {
        hall,
        pass,
        desk,
        end: reason,
    } = seat(rt, alloc, pads, dir, link, clock, &mut place, drawn);
    let closed = close(rt, alloc, link, &reason);
    let (leaves, end) = last(reason, closed);
    let pass = leave(rt, pads, pass, &place, both(place.inside, leaves));
    Report {
        hall,
        pass,
        desk,
        session: place.session(),
        start: place.start,
        cursor: place.rev,
        taken: place.taken,
        end,
    }
}

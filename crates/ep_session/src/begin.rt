//! How a session begins: the first message, the grant, the pass of the pad, and the login or the resumption.

ghost use Rattle.std.specs.Prelude.{◌≡◌, ◌⊎◌, ◌≤◌, ℕ, [], ◌∷◌, Err};
ghost use Rattle.ep_cell.specs.History.{pairs};
ghost use Rattle.ep_pad.specs.Lazy.{IsLegalFrom};
ghost use Rattle.ep_dir_records.specs.declared.ids.Drawn.{Drawn as AnyDrawn};
ghost use Rattle.ep_session.specs.Session.{Ask, Fetch, Greet, Hear, Login, Rejoin, admitted, is_short, nowhere};
ghost use Rattle.ep_session.specs.Says.{BegunAs, Done, Greets, IsCaused, OnLink, first_of};
ghost use Rattle.ep_session.specs.declared.end.End.TheVariants as ends;
ghost use Rattle.ep_session.specs.declared.place.Place.{Place as AnyPlace};

use crate::end::{BadKind, End};
use crate::hear::MOST_BYTES;
use crate::place::Place;
use crate::ready::Ready;
use crate::say::say;
use ep_link::{Link, LinkGot};
use ep_outside::{Clock, Text};
use ep_pad::PadPort;
use ep_units::Grant;
use ep_wire::read_client;
use ep_wire_words::{ClientMsg, Member, Resume, ServerMsg, WireBad};
use std::alloc::Global;
use std::sync::Wait;

// Who comes with a short token goes on.
fn admit(alloc: Global, ready: Ready) -> Result<Ready, End>
    ensures admitted { (result ≡ Err ends.NoMemory) ⊎ ((at : AnyPlace) (drawn : AnyDrawn) → admitted at drawn ready (is_short ready.token) ≡ first_of result at drawn) }
    ensures cause { (before now : ℕ) → IsCaused result before now }
{
    if ready.has_short_token(alloc)? {
        Ok(ready)
    } else {
        Err(End::Bad(BadKind::Wire(WireBad::Shape(Member::Token))))
    }
}

// What a first text asks for.
fn read_first(alloc: Global, text: &Text) -> Result<Ready, End>
    ensures begun { BegunAs text.now result }
    ensures cause { (before now : ℕ) → IsCaused result before now }
{
    match read_client(alloc, text.as_str(), MOST_BYTES) {
        Ok(
            ClientMsg::Ready {
                pad,
                token,
                sessions,
                resume,
            },
        ) => admit(
            alloc,
            Ready {
                pad,
                token,
                sessions,
                resume,
            },
        ),
        Ok(ClientMsg::Edit { .. } | ClientMsg::Slide { .. } | ClientMsg::Other) => {
            Err(End::Bad(BadKind::NotReady))
        }
        Err(bad) => Err(End::from(bad)),
    }
}

// Receives once: the first message, or nothing yet.
fn greet_once<R: Wait, L: Link>(rt: &R, alloc: Global, link: &mut L) -> Result<Option<Ready>, End>
    ensures heard { Greets (L.traffic link.old) (L.traffic link.new) result }
    ensures cause { IsCaused result (L.failures link.old) (L.failures link.new) }
    ensures later { L.failures link.old ≤ L.failures link.new }
{
    match link.recv(rt) {
        LinkGot::Message(text) => Ok(Some(read_first(alloc, &text)?)),
        LinkGot::Binary => Err(End::Bad(BadKind::Binary)),
        LinkGot::Nothing => Ok(None),
        LinkGot::Closed => Err(End::Closed),
        LinkGot::Failed => Err(End::LinkFault(link.faults())),
        LinkGot::NoMemory => Err(End::NoMemory),
    }
}

/// Receives until a first message comes.
pub fn greet<R: Wait, L: Link>(rt: &R, alloc: Global, link: &mut L) -> Result<Ready, End>
    ensures done { (drawn : AnyDrawn) → OnLink (L.traffic link.old) (L.traffic link.new) nowhere nowhere (Greet drawn ∷ []) result (λ ready. Ask drawn ready ∷ []) }
    ensures cause { IsCaused result (L.failures link.old) (L.failures link.new) }
    ensures later { L.failures link.old ≤ L.failures link.new }
{
    'waits: for _ in rt.forever() {
        match greet_once(rt, alloc, link) {
            Ok(Some(ready)) => return Ok(ready),
            Ok(None) => {}
            Err(end) => return Err(end),
        }
    }
    unreachable!()
}

/// Logs in, and sends the document.
pub fn log_in<R: Wait, L: Link, P: PadPort, C: Clock>(
    rt: &R,
    alloc: Global,
    pads: &P,
    pass: &mut P::Pass,
    link: &mut L,
    clock: &C,
    place: &mut Place,
    grant: &Grant,
) -> Result<(), End>
    requires of { P.is_of pads.now pass.old }
    ensures of { P.is_of pads.now pass.new }
    ensures pad { (P.name_of pass.new ≡ P.name_of pass.old) × (P.cell_of pass.new ≡ P.cell_of pass.old) × (P.begun pass.new ≡ P.begun pass.old) }
    ensures legal { IsLegalFrom P.Store.told P.Store.failures (P.begun pass.old) (pairs (P.known pass.old).seen) → IsLegalFrom P.Store.told P.Store.failures (P.begun pass.new) (pairs (P.known pass.new).seen) }
    ensures done { Done (C.may_show clock.now) (L.traffic link.old) (L.traffic link.new) (P.known pass.old) (P.known pass.new) place.old place.new (Login grant.now ∷ []) result (λ _. Fetch ∷ Hear ∷ []) }
    ensures cause { IsCaused result (L.failures link.old) (L.failures link.new) }
    ensures later { L.failures link.old ≤ L.failures link.new }
{
    let welcome = ep_pad_calls::login(rt, pads, pass, grant, clock.now_ms())?;
    *place = Place {
        inside: true,
        me: welcome.session,
        birth: welcome.birth,
        start: welcome.rev,
        rev: welcome.rev,
        time: welcome.time,
        caught: welcome.rev,
        nops: 0,
        taken: 0,
    };
    let vars = ServerMsg::Vars {
        pad: grant.asked.copy(alloc)?,
        author: welcome.author,
        read_only: welcome.read_only,
        session: welcome.session,
        birth: welcome.birth,
        rev: welcome.rev,
        doc: welcome.doc,
        time: welcome.time,
    };
    say(rt, alloc, link, &vars)
}

/// Comes back, and tells a client that missed nothing so.
pub fn rejoin<R: Wait, L: Link, P: PadPort, C: Clock>(
    rt: &R,
    alloc: Global,
    pads: &P,
    pass: &mut P::Pass,
    link: &mut L,
    clock: &C,
    place: &mut Place,
    grant: &Grant,
    again: &Resume,
) -> Result<(), End>
    requires of { P.is_of pads.now pass.old }
    ensures of { P.is_of pads.now pass.new }
    ensures pad { (P.name_of pass.new ≡ P.name_of pass.old) × (P.cell_of pass.new ≡ P.cell_of pass.old) × (P.begun pass.new ≡ P.begun pass.old) }
    ensures legal { IsLegalFrom P.Store.told P.Store.failures (P.begun pass.old) (pairs (P.known pass.old).seen) → IsLegalFrom P.Store.told P.Store.failures (P.begun pass.new) (pairs (P.known pass.new).seen) }
    ensures done { Done (C.may_show clock.now) (L.traffic link.old) (L.traffic link.new) (P.known pass.old) (P.known pass.new) place.old place.new (Rejoin grant.now again.now ∷ []) result (λ _. Fetch ∷ Hear ∷ []) }
    ensures cause { IsCaused result (L.failures link.old) (L.failures link.new) }
    ensures later { L.failures link.old ≤ L.failures link.new }
{
    let caught = ep_pad_calls::resume(
        rt,
        pads,
        pass,
        grant,
        again.rev,
        again.birth,
        again.author.as_ref(),
        clock.now_ms(),
    )?;
    *place = Place {
        inside: true,
        me: caught.session,
        birth: caught.birth,
        start: again.rev,
        rev: again.rev,
        time: caught.time,
        caught: caught.head,
        nops: 0,
        taken: 0,
    };
    if again.rev != caught.head {
        return Ok(());
    }
    let none = ServerMsg::ReconnectNone {
        current: caught.session,
        birth: caught.birth,
        head: caught.head,
        rev: caught.head,
    };
    say(rt, alloc, link, &none)
}

//! What a message asks for, done.

ghost use Rattle.std.specs.Prelude.{◌≡◌, ◌≤◌, ℕ, Option, List, [], ◌∷◌, IfOk};
ghost use Rattle.ep_cell.specs.History.{pairs};
ghost use Rattle.ep_cs.specs.Made.{AreMade};
ghost use Rattle.ep_pad.specs.Lazy.{IsLegalFrom};
ghost use Rattle.ep_slider.specs.Slides.{AreSlides};
ghost use Rattle.ep_link.specs.declared.passed.Passed.{Passed};
ghost use Rattle.ep_session.specs.Session.{Look, Show, Take, changes_of, unfit};
ghost use Rattle.ep_session.specs.Says.{Done, IsAllowed, IsCaused, OnLink, due_of, no_moment};

use crate::end::End;
use crate::hear::Asked;
use crate::place::{Place, counted};
use crate::say::say;
use ep_apply::{Doc, apply, fits};
use ep_cs::{Change, FitBad};
use ep_history::Rev;
use ep_link::Link;
use ep_outside::Clock;
use ep_pad::{PadBad, PadPort, Piece};
use ep_slider::{SlideBad, slide};
use ep_units::NoMemory;
use ep_wire_words::{Listed, ServerMsg};
use std::alloc::Global;
use std::sync::Wait;

// Brings an edit to the pad.
fn take<R: Wait, P: PadPort, C: Clock>(
    rt: &R,
    pads: &P,
    pass: &mut P::Pass,
    clock: &C,
    place: &mut Place,
    base: u64,
    change: Change,
) -> Result<(), End>
    requires of { P.is_of pads.now pass.old }
    ensures of { P.is_of pads.now pass.new }
    ensures pad { (P.name_of pass.new ≡ P.name_of pass.old) × (P.cell_of pass.new ≡ P.cell_of pass.old) × (P.begun pass.new ≡ P.begun pass.old) }
    ensures legal { IsLegalFrom P.Store.told P.Store.failures (P.begun pass.old) (pairs (P.known pass.old).seen) → IsLegalFrom P.Store.told P.Store.failures (P.begun pass.new) (pairs (P.known pass.new).seen) }
    ensures done { (sent : Option (List Passed)) → Done (C.may_show clock.now) sent sent (P.known pass.old) (P.known pass.new) place.old place.new (Take base change ∷ []) result (λ _. []) }
    ensures cause { (before now : ℕ) → IsCaused result before now }
{
    let now = clock.now_ms();
    ep_pad_calls::accept(rt, pads, pass, place.me, base, change, now)?;
    place.taken = counted(place.taken, 1);
    Ok(())
}

// The changes of revisions.
fn changes_of(alloc: Global, revs: Vec<Rev>) -> Result<Vec<Change>, NoMemory>
    ensures { IfOk result (λ cs. cs.items ≡ changes_of revs.items) }
{
    let mut changes = Vec::with_capacity(alloc, revs.len())?;
    for rev in revs {
        changes.push(rev.change)?;
    }
    Ok(changes)
}

// Why the first change that doesn't fit the document before it does not.
fn unfit(alloc: Global, doc: &Doc, changes: &[Change]) -> Result<Option<FitBad>, NoMemory>
    ensures exact { IfOk result (λ why. why ≡ unfit doc.now changes.now) }
    ensures made { result ≡ Ok None → AreMade doc.now changes.now }
{
    let mut now = doc.copy(alloc)?;
    for change in changes {
        if let Err(why) = fits(&now, change) {
            return Ok(Some(why));
        }
        now = apply(alloc, &now, change)?;
    }
    Ok(None)
}

// A piece of history whose changes fit.
#[derive(Drop)]
struct Steps {
    doc: Doc,
    changes: Vec<Change>,
}

// The changes of a piece of history, unless one doesn't fit.
fn make_steps(alloc: Global, piece: Piece) -> Result<Steps, End>
    ensures { StepsOf piece.doc (changes_of piece.revs.items) result }
{
    let changes = changes_of(alloc, piece.revs)?;
    match unfit(alloc, &piece.doc, &changes)? {
        Some(why) => Err(End::Broken(PadBad::Fit(why))),
        None => Ok(Steps {
            doc: piece.doc,
            changes,
        }),
    }
}

// Sends the steps of a timeslider: from a revision on, of so many changes each, under the client's number.
fn show<R: Wait, L: Link>(
    rt: &R,
    alloc: Global,
    link: &mut L,
    asked: (u64, u64, u64),
    steps: &Steps,
) -> Result<(), End>
    requires step { (1 ≤ asked.1) × (asked.1 ≤ 100) }
    requires made { AreMade steps.now.doc steps.now.changes.items }
    ensures done { (at : Place) → OnLink (L.traffic link.old) (L.traffic link.new) at at (Show asked.0 asked.1 asked.2 steps.now.doc steps.now.changes.items ∷ []) result (λ _. []) }
    ensures cause { IsCaused result (L.failures link.old) (L.failures link.new) }
    ensures later { L.failures link.old ≤ L.failures link.new }
{
    let (start, granularity, request) = asked;
    let Ok(slides) = slide(alloc, &steps.doc, &steps.changes, granularity as u32) else {
        return Err(End::NoMemory);
    };
    let msg = ServerMsg::Slid {
        start,
        reached: counted(start, steps.changes.len() as u64),
        granularity,
        request,
        forward: Listed {
            items: slides.forward,
        },
        backward: Listed {
            items: slides.backward,
        },
    };
    say(rt, alloc, link, &msg)
}

// Reads a piece of history, and sends its steps.
fn look<R: Wait, L: Link, P: PadPort>(
    rt: &R,
    alloc: Global,
    pads: &P,
    pass: &mut P::Pass,
    link: &mut L,
    place: &Place,
    asked: (u64, u64, u64),
) -> Result<(), End>
    requires of { P.is_of pads.now pass.old }
    requires step { (1 ≤ asked.1) × (asked.1 ≤ 100) }
    ensures of { P.is_of pads.now pass.new }
    ensures pad { (P.name_of pass.new ≡ P.name_of pass.old) × (P.cell_of pass.new ≡ P.cell_of pass.old) × (P.begun pass.new ≡ P.begun pass.old) }
    ensures legal { IsLegalFrom P.Store.told P.Store.failures (P.begun pass.old) (pairs (P.known pass.old).seen) → IsLegalFrom P.Store.told P.Store.failures (P.begun pass.new) (pairs (P.known pass.new).seen) }
    ensures done { Done no_moment (L.traffic link.old) (L.traffic link.new) (P.known pass.old) (P.known pass.new) place.now place.now (Look asked.0 asked.1 asked.2 ∷ []) result (λ _. []) }
    ensures cause { IsCaused result (L.failures link.old) (L.failures link.new) }
    ensures later { L.failures link.old ≤ L.failures link.new }
{
    let piece = ep_pad_calls::history(rt, pads, pass, place.me, asked.0, 100 * asked.1)?;
    let steps = make_steps(alloc, piece)?;
    show(rt, alloc, link, asked, &steps)
}

/// Does what a message asks for.
pub fn act<R: Wait, L: Link, P: PadPort, C: Clock>(
    rt: &R,
    alloc: Global,
    pads: &P,
    pass: &mut P::Pass,
    link: &mut L,
    clock: &C,
    place: &mut Place,
    asked: Asked,
) -> Result<(), End>
    requires of { P.is_of pads.now pass.old }
    requires allowed { IsAllowed asked }
    ensures of { P.is_of pads.now pass.new }
    ensures pad { (P.name_of pass.new ≡ P.name_of pass.old) × (P.cell_of pass.new ≡ P.cell_of pass.old) × (P.begun pass.new ≡ P.begun pass.old) }
    ensures legal { IsLegalFrom P.Store.told P.Store.failures (P.begun pass.old) (pairs (P.known pass.old).seen) → IsLegalFrom P.Store.told P.Store.failures (P.begun pass.new) (pairs (P.known pass.new).seen) }
    ensures done { Done (C.may_show clock.now) (L.traffic link.old) (L.traffic link.new) (P.known pass.old) (P.known pass.new) place.old place.new (due_of asked) result (λ _. []) }
    ensures cause { IsCaused result (L.failures link.old) (L.failures link.new) }
    ensures later { L.failures link.old ≤ L.failures link.new }
{
    match asked {
        Asked::Nothing => Ok(()),
        Asked::Edit(base, change) => take(rt, pads, pass, clock, place, base, change),
        Asked::Slide(start, granularity, request) => look(
            rt,
            alloc,
            pads,
            pass,
            link,
            place,
            (start, granularity, request),
        ),
    }
}

ghost use Rattle.ep_session.specs.Steps.{StepsOf};
ghost use Rattle.ep_session.specs.declared.place.Place.{Place};

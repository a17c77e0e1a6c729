//! Messages that go out.

ghost use Rattle.std.specs.Prelude.{◌≡◌, ◌≤◌, ◌+◌, [], length, drop, OnOk, OnErr, IfOk, string_bytes};
ghost use Rattle.ep_session.specs.Session.{counted, due_at, news_due, nop_telling, nop_told, nops_due, telling, text_of, told};
ghost use Rattle.ep_session.specs.Says.{IsCaused, OnLink, SendsAs};

use crate::end::End;
use crate::place::{Place, counted};
use ep_history::Rev;
use ep_link::{Link, LinkBad};
use ep_units::Session;
use ep_wire::write_server;
use ep_wire_words::ServerMsg;
use std::alloc::Global;
use std::sync::Wait;

// Sends a text.
fn send<R: Wait, L: Link>(rt: &R, link: &mut L, text: &str) -> Result<(), End>
    ensures sent { (m : ServerMsg) → text.now ≡ text_of m → SendsAs m (L.traffic link.old) (L.traffic link.new) result }
    ensures cause { IsCaused result (L.failures link.old) (L.failures link.new) }
    ensures later { L.failures link.old ≤ L.failures link.new }
{
    match link.send(rt, text) {
        Ok(()) => Ok(()),
        Err(LinkBad::Failed) => Err(End::LinkFault(link.faults())),
        Err(LinkBad::NoMemory) => Err(End::NoMemory),
    }
}

/// Sends a message.
pub fn say<R: Wait, L: Link>(
    rt: &R,
    alloc: Global,
    link: &mut L,
    msg: &ServerMsg,
) -> Result<(), End>
    ensures sent { SendsAs msg.now (L.traffic link.old) (L.traffic link.new) result }
    ensures cause { IsCaused result (L.failures link.old) (L.failures link.new) }
    ensures later { L.failures link.old ≤ L.failures link.new }
{
    let text = write_server(alloc, msg)?;
    send(rt, link, text.as_str())
}

fn is_me(me: Session, other: Session) -> bool
    ensures { result ≡ is_session me other }
{
    me.epoch == other.epoch && me.count == other.count
}

// What tells of the next revision.
fn telling(place: &Place, rev: Rev) -> ServerMsg
    ensures { result ≡ telling place.now rev }
{
    let number = counted(place.rev, 1);
    if place.rev < place.caught {
        ServerMsg::Reconnect {
            current: place.me,
            birth: place.birth,
            head: place.caught,
            rev: number,
            change: rev.change,
            author: rev.author,
            session: rev.session,
            time: rev.time,
        }
    } else if is_me(place.me, rev.session) {
        ServerMsg::Accepted {
            rev: number,
            session: place.me,
        }
    } else {
        ServerMsg::News {
            rev: number,
            change: rev.change,
            author: rev.author,
            session: rev.session,
            time: rev.time,
            delta: rev.time.saturating_sub(place.time),
        }
    }
}

// Tells of the next revision.
fn tell<R: Wait, L: Link>(
    rt: &R,
    alloc: Global,
    link: &mut L,
    place: &mut Place,
    rev: Rev,
) -> Result<(), End>
    ensures sent { SendsAs (telling place.old rev) (L.traffic link.old) (L.traffic link.new) result }
    ensures ok { OnOk result (place.new ≡ told place.old rev) }
    ensures err { OnErr result (place.new ≡ place.old) }
    ensures cause { IsCaused result (L.failures link.old) (L.failures link.new) }
    ensures later { L.failures link.old ≤ L.failures link.new }
{
    let time = rev.time;
    say(rt, alloc, link, &telling(place, rev))?;
    place.rev = counted(place.rev, 1);
    place.time = time;
    Ok(())
}

// Tells that an edit has become nothing.
fn tell_nop<R: Wait, L: Link>(
    rt: &R,
    alloc: Global,
    link: &mut L,
    place: &mut Place,
) -> Result<(), End>
    ensures sent { SendsAs (nop_telling place.old) (L.traffic link.old) (L.traffic link.new) result }
    ensures ok { OnOk result (place.new ≡ nop_told place.old) }
    ensures err { OnErr result (place.new ≡ place.old) }
    ensures cause { IsCaused result (L.failures link.old) (L.failures link.new) }
    ensures later { L.failures link.old ≤ L.failures link.new }
{
    let msg = ServerMsg::Accepted {
        rev: place.rev,
        session: place.me,
    };
    say(rt, alloc, link, &msg)?;
    place.nops = counted(place.nops, 1);
    Ok(())
}

// Tells that so many edits have become nothing.
fn tell_nops<R: Wait, L: Link>(
    rt: &R,
    alloc: Global,
    link: &mut L,
    place: &mut Place,
    count: usize,
) -> Result<(), End>
    ensures done { OnLink (L.traffic link.old) (L.traffic link.new) place.old place.new (nops_due count) result (λ _. []) }
    ensures rev { place.new.rev ≡ place.old.rev }
    ensures cause { IsCaused result (L.failures link.old) (L.failures link.new) }
    ensures later { L.failures link.old ≤ L.failures link.new }
{
    for told in 0..count {
        tell_nop(rt, alloc, link, place)?;
    }
    Ok(())
}

// How many of the first ones became nothing at a revision or before it.
fn due_at(rev: u64, nops: &[u64]) -> usize
    ensures due { result ≡ due_at rev nops.now }
    ensures few { result ≤ length nops.now }
{
    for (at, head) in nops.iter().enumerate() {
        if *head > rev {
            return at;
        }
    }
    nops.len()
}

/// Tells of revisions in order, and that edits have become nothing, each behind the revisions up to the head of then.
pub fn tell_all<R: Wait, L: Link>(
    rt: &R,
    alloc: Global,
    link: &mut L,
    place: &mut Place,
    revs: Vec<Rev>,
    nops: &[u64],
) -> Result<(), End>
    ensures done { OnLink (L.traffic link.old) (L.traffic link.new) place.old place.new (news_due place.old.rev revs.items nops.now) result (λ _. []) }
    ensures cause { IsCaused result (L.failures link.old) (L.failures link.new) }
    ensures later { L.failures link.old ≤ L.failures link.new }
{
    let mut rest = nops;
    for rev in revs {
        let count = due_at(place.rev, rest);
        let (_, later) = rest.split_at(count);
        tell_nops(rt, alloc, link, place, count)?;
        tell(rt, alloc, link, place, rev)?;
        rest = later;
    }
    tell_nops(rt, alloc, link, place, rest.len())
}

ghost use Rattle.ep_history.specs.History.{is_session};

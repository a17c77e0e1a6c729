//! Messages that come in.

ghost use Rattle.std.specs.Prelude.{◌≡◌, ◌≤◌, ℕ, IfOk};
ghost use Rattle.ep_session.specs.Says.{AskedBy, Hears, IsAllowed, IsCaused};

use crate::end::{BadKind, End};
use ep_cs::Change;
use ep_link::{Link, LinkGot};
use ep_outside::Text;
use ep_slider::SlideBad;
use ep_wire::read_client;
use ep_wire_words::ClientMsg;
use std::alloc::Global;
use std::sync::Wait;

/// The most bytes of a message.
pub const MOST_BYTES: u64 = 4_194_304;

/// What a message asks for, beside what is new.
#[derive(Drop)]
pub enum Asked {
    Nothing,
    /// An edit of a revision.
    Edit(u64, Change),
    /// Steps from a revision on, of so many revisions each, under a number of the client's.
    Slide(u64, u64, u64),
}

// What a text asks for.
fn read(alloc: Global, text: &Text) -> Result<Asked, End>
    ensures asked { AskedBy text.now result }
    ensures allowed { IfOk result IsAllowed }
    ensures cause { (before now : ℕ) → IsCaused result before now }
{
    match read_client(alloc, text.as_str(), MOST_BYTES) {
        Ok(ClientMsg::Edit { base, change }) => Ok(Asked::Edit(base, change)),
        Ok(
            ClientMsg::Slide {
                start,
                granularity,
                request,
            },
        ) => {
            if granularity < 1 || granularity > 100 {
                return Err(End::Bad(BadKind::Slide(SlideBad::Granularity)));
            }
            Ok(Asked::Slide(start, granularity, request))
        }
        Ok(ClientMsg::Other) => Ok(Asked::Nothing),
        Ok(ClientMsg::Ready { .. }) => Err(End::Bad(BadKind::NotReady)),
        Err(bad) => Err(End::from(bad)),
    }
}

/// Receives once.
pub fn hear<R: Wait, L: Link>(rt: &R, alloc: Global, link: &mut L) -> Result<Asked, End>
    ensures heard { Hears (L.traffic link.old) (L.traffic link.new) result }
    ensures allowed { IfOk result IsAllowed }
    ensures cause { IsCaused result (L.failures link.old) (L.failures link.new) }
    ensures later { L.failures link.old ≤ L.failures link.new }
{
    match link.recv(rt) {
        LinkGot::Message(text) => read(alloc, &text),
        LinkGot::Binary => Err(End::Bad(BadKind::Binary)),
        LinkGot::Nothing => Ok(Asked::Nothing),
        LinkGot::Closed => Err(End::Closed),
        LinkGot::Failed => Err(End::LinkFault(link.faults())),
        LinkGot::NoMemory => Err(End::NoMemory),
    }
}

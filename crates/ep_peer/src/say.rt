//! Messages that go out.

ghost use Rattle.std.specs.Prelude.{◌≡◌, ◌≤◌, IfOk};
ghost use Rattle.ep_peer.specs.Writer.{Listening, Opening, First, Goes, ready, text_of_msg};
ghost use Rattle.ep_peer.specs.Parts.{Done, IsLinkCaused, IsUnsent, SendsAs};
ghost use Rattle.ep_wire_words.specs.declared.client.ClientMsg.{ClientMsg as AnyMsg};

use crate::bad::PeerBad;
use ep_link::{Link, LinkBad};
use ep_units::{NoMemory, Units};
use ep_wire::write_client;
use ep_wire_words::{ClientMsg, Listed};
use std::alloc::Global;
use std::sync::Wait;

/// Why a message was not sent.
#[derive(Clone, Copy, Debug, PartialEq, Eq)]
pub enum SayBad {
    /// The link failed: its count of faults is this now.
    Fault(u64),
    NoMemory,
}

impl From<NoMemory> for SayBad {
    ghost use Rattle.std.specs.Prelude.{◌≡◌};
    ghost use Rattle.ep_peer.specs.declared.say.SayBad.TheVariants as bad;

    ghost from_gives = { λ _ e. e ≡ bad.NoMemory };

    fn from(_error: NoMemory) -> SayBad {
        SayBad::NoMemory
    }
}

impl From<SayBad> for PeerBad {
    ghost use Rattle.std.specs.Prelude.{◌≡◌};
    ghost use Rattle.ep_peer.specs.Parts.{bad_of_say};

    ghost from_gives = { λ bad e. e ≡ bad_of_say bad };

    fn from(bad: SayBad) -> PeerBad {
        match bad {
            SayBad::Fault(count) => PeerBad::LinkFault(count),
            SayBad::NoMemory => PeerBad::NoMemory,
        }
    }
}

// Sends a text.
fn send<R: Wait, L: Link>(rt: &R, link: &mut L, text: &str) -> Result<(), SayBad>
    ensures sent { (m : AnyMsg) → text.now ≡ text_of_msg m → SendsAs m (L.traffic link.old) (L.traffic link.new) result }
    ensures cause { IsUnsent result (L.failures link.old) (L.failures link.new) }
    ensures later { L.failures link.old ≤ L.failures link.new }
{
    match link.send(rt, text) {
        Ok(()) => Ok(()),
        Err(LinkBad::Failed) => Err(SayBad::Fault(link.faults())),
        Err(LinkBad::NoMemory) => Err(SayBad::NoMemory),
    }
}

/// Sends a message.
pub fn say<R: Wait, L: Link>(
    rt: &R,
    alloc: Global,
    link: &mut L,
    msg: &ClientMsg,
) -> Result<(), SayBad>
    ensures sent { SendsAs msg.now (L.traffic link.old) (L.traffic link.new) result }
    ensures cause { IsUnsent result (L.failures link.old) (L.failures link.new) }
    ensures later { L.failures link.old ≤ L.failures link.new }
{
    let text = write_client(alloc, msg)?;
    send(rt, link, text.as_str())
}

// The first message.
fn ready(alloc: Global, pad: &Units, token: &Units) -> Result<ClientMsg, NoMemory>
    ensures { IfOk result (λ m. m ≡ ready pad.now token.now) }
{
    Ok(ClientMsg::Ready {
        pad: pad.copy(alloc)?,
        token: token.copy(alloc)?,
        sessions: Listed::new(alloc),
        resume: None,
    })
}

/// Says which pad it wants, and by which token.
pub fn open<R: Wait, L: Link>(
    rt: &R,
    alloc: Global,
    link: &mut L,
    pad: &Units,
    token: &Units,
) -> Result<(), PeerBad>
    ensures done { Done (L.traffic link.old) (L.traffic link.new) (Goes (Opening pad.now token.now)) result (λ _. Goes (Listening First)) }
    ensures cause { IsLinkCaused result (L.failures link.old) (L.failures link.new) }
    ensures later { L.failures link.old ≤ L.failures link.new }
{
    let first = ready(alloc, pad, token)?;
    say(rt, alloc, link, &first)?;
    Ok(())
}

//! A whole writer.

ghost use Rattle.std.specs.Prelude.{◌≡◌, ◌≤◌, IfOk, OnOk};
ghost use Rattle.ep_outside.specs.Outside.{IsAtEnd};
ghost use Rattle.ep_peer.specs.Parts.{Done, IsCaused, IsLinkCaused};
ghost use Rattle.ep_peer.specs.Writer.{Goes, Opening, Reading, written};
ghost use Rattle.ep_peer.specs.Writes.{Writes};

use crate::bad::PeerBad;
use crate::hear::greet;
use crate::lines::write_lines;
use crate::say::open;
use ep_client::Client;
use ep_link::Link;
use ep_outside::Source;
use ep_units::{NoMemory, Units};
use std::alloc::Global;
use std::sync::Wait;

/// The pad as a writer sees it at its end.
#[derive(Drop)]
pub struct Written {
    /// The last revision that it heard.
    pub rev: u64,
    pub text: Units,
}

// What a client sees.
fn shown(alloc: Global, client: &Client) -> Result<Written, NoMemory>
    ensures { IfOk result (λ w. w ≡ written client.now) }
{
    Ok(Written {
        rev: client.rev(),
        text: client.view().text(alloc)?,
    })
}

// Enters a pad by a token, and starts with its document.
fn enter<R: Wait, L: Link>(
    rt: &R,
    alloc: Global,
    link: &mut L,
    pad: &Units,
    token: &Units,
) -> Result<Client, PeerBad>
    ensures done { Done (L.traffic link.old) (L.traffic link.new) (Goes (Opening pad.now token.now)) result (λ client. Goes (Reading 0 client)) }
    ensures cause { IsLinkCaused result (L.failures link.old) (L.failures link.new) }
    ensures later { L.failures link.old ≤ L.failures link.new }
{
    open(rt, alloc, link, pad, token)?;
    greet(rt, alloc, link)
}

/// Enters a pad by a token over a link, and writes all lines that the source has left, each once the one before is
/// committed. The lines count from 1. After an `Err` what went out is a beginning of what would have been sent.
pub fn write_session<R: Wait, L: Link, S: Source>(
    rt: &R,
    alloc: Global,
    link: &mut L,
    source: &mut S,
    pad: &Units,
    token: &Units,
) -> Result<Written, PeerBad>
    // What passed on the link and what was read of the source are of one walk, which answered so.
    ensures writes { Writes (L.traffic link.old) (L.traffic link.new) (S.left source.old) (Goes (Opening pad.now token.now)) result (λ w. w) }
    ensures read { OnOk result (IsAtEnd (S.left source.new)) }
    // A fault is told with its count, which rose.
    ensures cause { IsCaused result (L.failures link.old) (L.failures link.new) (S.failures source.old) (S.failures source.new) }
    ensures link_later { L.failures link.old ≤ L.failures link.new }
    ensures source_later { S.failures source.old ≤ S.failures source.new }
{
    let mut client = enter(rt, alloc, link, pad, token)?;
    write_lines(rt, alloc, link, source, &mut client)?;
    Ok(shown(alloc, &client)?)
}

//! Messages that come in.

ghost use Rattle.std.specs.Prelude.{◌≡◌, ◌≤◌, ℕ};
ghost use Rattle.ep_peer.specs.Writer.{Awaited as AnyAwaited, Commit, First, Goes, Listening, Reading, accepted, begun, goes_on, is_closing, news_of, told_later, told_news};
ghost use Rattle.ep_peer.specs.Parts.{Comes, Done, IsLinkCaused, ReadAs, Receives, read_to};

use crate::bad::PeerBad;
use ep_client::{Client, Heard, Told};
use ep_link::{Link, LinkGot};
use ep_outside::Text;
use ep_wire::read_server;
use ep_wire_words::ServerMsg;
use std::alloc::Global;
use std::sync::Wait;

/// The most bytes of a message from a server.
pub const MOST_BYTES: u64 = 16_777_216;

/// A message that was received, with its text.
#[derive(Drop)]
pub struct Received {
    pub text: Text,
    pub msg: ServerMsg,
}

// Reads a message.
fn read(alloc: Global, text: Text) -> Result<Received, PeerBad>
    ensures read { ReadAs text result }
    ensures cause { (before now : ℕ) → IsLinkCaused result before now }
{
    match read_server(alloc, text.as_str(), MOST_BYTES) {
        Ok(msg) => Ok(Received { text, msg }),
        Err(bad) => Err(PeerBad::from(bad)),
    }
}

// Receives once: a message, or nothing yet.
fn receive<R: Wait, L: Link>(
    rt: &R,
    alloc: Global,
    link: &mut L,
) -> Result<Option<Received>, PeerBad>
    ensures received { Receives (L.traffic link.old) (L.traffic link.new) result }
    ensures cause { IsLinkCaused result (L.failures link.old) (L.failures link.new) }
    ensures later { L.failures link.old ≤ L.failures link.new }
{
    match link.recv(rt) {
        LinkGot::Message(text) => Ok(Some(read(alloc, text)?)),
        LinkGot::Binary => Err(PeerBad::Turn),
        LinkGot::Nothing => Ok(None),
        LinkGot::Closed => Err(PeerBad::LinkClosed),
        LinkGot::Failed => Err(PeerBad::LinkFault(link.faults())),
        LinkGot::NoMemory => Err(PeerBad::NoMemory),
    }
}

// Receives until a message comes.
fn listen<R: Wait, L: Link>(rt: &R, alloc: Global, link: &mut L) -> Result<Received, PeerBad>
    ensures done { (w : AnyAwaited) → Done (L.traffic link.old) (L.traffic link.new) (Goes (Listening w)) result (read_to w) }
    ensures cause { IsLinkCaused result (L.failures link.old) (L.failures link.new) }
    ensures later { L.failures link.old ≤ L.failures link.new }
{
    'waits: for _ in rt.forever() {
        match receive(rt, alloc, link) {
            Ok(Some(received)) => return Ok(received),
            Ok(None) => {}
            Err(bad) => return Err(bad),
        }
    }
    unreachable!()
}

// The client that a first message starts.
fn start(alloc: Global, received: Received) -> Result<Client, PeerBad>
    ensures started { Comes (begun received.text received.msg) result (λ client. Goes (Reading 0 client)) }
    ensures cause { (before now : ℕ) → IsLinkCaused result before now }
{
    let Received { text, msg } = received;
    match msg {
        ServerMsg::Vars {
            session,
            rev,
            doc,
            ..
        } => Ok(Client::start(alloc, doc, rev, session)?),
        ServerMsg::Closing(_) => Err(PeerBad::Refused(text)),
        ServerMsg::Accepted { .. }
        | ServerMsg::News { .. }
        | ServerMsg::Reconnect { .. }
        | ServerMsg::ReconnectNone { .. }
        | ServerMsg::Slid { .. } => Err(PeerBad::Turn),
    }
}

/// Receives the document, with which a client starts.
pub fn greet<R: Wait, L: Link>(rt: &R, alloc: Global, link: &mut L) -> Result<Client, PeerBad>
    ensures done { Done (L.traffic link.old) (L.traffic link.new) (Goes (Listening First)) result (λ client. Goes (Reading 0 client)) }
    ensures cause { IsLinkCaused result (L.failures link.old) (L.failures link.new) }
    ensures later { L.failures link.old ≤ L.failures link.new }
{
    let received = listen(rt, alloc, link)?;
    start(alloc, received)
}

// A commit of the client's own revision says that what it submitted has become nothing.
fn accepted(client: &Client, rev: u64) -> Heard
    ensures { result ≡ accepted client.now rev }
{
    if rev == client.rev() {
        Heard::Nop { rev }
    } else {
        Heard::Commit { rev }
    }
}

// What a client hears of a message.
fn news_of(client: &Client, msg: ServerMsg) -> Option<Heard>
    ensures { result ≡ news_of client.now msg }
{
    match msg {
        ServerMsg::Accepted { rev, .. } => Some(accepted(client, rev)),
        ServerMsg::News {
            rev,
            change,
            session,
            ..
        } => Some(Heard::Rev {
            rev,
            change,
            session,
        }),
        ServerMsg::Vars { .. }
        | ServerMsg::Reconnect { .. }
        | ServerMsg::ReconnectNone { .. }
        | ServerMsg::Slid { .. }
        | ServerMsg::Closing(_) => None,
    }
}

fn is_closing(msg: &ServerMsg) -> bool
    ensures { result ≡ is_closing msg.now }
{
    match msg {
        ServerMsg::Closing(_) => true,
        _ => false,
    }
}

// A client hears news.
fn hear_news(alloc: Global, client: &mut Client, news: Option<Heard>) -> Result<Told, PeerBad>
    ensures heard { (n : ℕ) → Comes (told_news n client.old news) result (goes_on n client.new) }
    ensures cause { (before now : ℕ) → IsLinkCaused result before now }
{
    let Some(news) = news else {
        return Err(PeerBad::Turn);
    };
    match client.hear(alloc, &news) {
        Ok(told) => Ok(told),
        Err(bad) => Err(PeerBad::from(bad)),
    }
}

// A client hears a message.
fn hear(alloc: Global, client: &mut Client, received: Received) -> Result<Told, PeerBad>
    ensures heard { (n : ℕ) → Comes (told_later n client.old received.text received.msg) result (goes_on n client.new) }
    ensures cause { (before now : ℕ) → IsLinkCaused result before now }
{
    let Received { text, msg } = received;
    if is_closing(&msg) {
        return Err(PeerBad::Refused(text));
    }
    let news = news_of(client, msg);
    hear_news(alloc, client, news)
}

/// Hears all that comes, up to the commit of what the client submitted.
pub fn await_commit<R: Wait, L: Link>(
    rt: &R,
    alloc: Global,
    link: &mut L,
    client: &mut Client,
) -> Result<(), PeerBad>
    ensures done { (n : ℕ) → Done (L.traffic link.old) (L.traffic link.new) (Goes (Listening (Commit n client.old))) result (λ _. Goes (Reading n client.new)) }
    ensures cause { IsLinkCaused result (L.failures link.old) (L.failures link.new) }
    ensures later { L.failures link.old ≤ L.failures link.new }
{
    'hears: for _ in rt.forever() {
        match hear_next(rt, alloc, link, client) {
            Ok(Told::Commit) => return Ok(()),
            Ok(Told::News) => {}
            Err(bad) => return Err(bad),
        }
    }
    unreachable!()
}

// Hears the next message.
fn hear_next<R: Wait, L: Link>(
    rt: &R,
    alloc: Global,
    link: &mut L,
    client: &mut Client,
) -> Result<Told, PeerBad>
    ensures done { (n : ℕ) → Done (L.traffic link.old) (L.traffic link.new) (Goes (Listening (Commit n client.old))) result (goes_on n client.new) }
    ensures cause { IsLinkCaused result (L.failures link.old) (L.failures link.new) }
    ensures later { L.failures link.old ≤ L.failures link.new }
{
    let received = listen(rt, alloc, link)?;
    hear(alloc, client, received)
}

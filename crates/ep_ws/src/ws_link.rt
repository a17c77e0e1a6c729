//! A WebSocket as a link.

ghost use Rattle.std.specs.Prelude.{◌≡◌, ◌≤◌, IfOk, IsErrOf};
ghost use Rattle.ep_outside.specs.Outside.{HasRisen};

use crate::frames::{Keys, Socket};
use crate::greeting::{ask, greet};
use crate::patience::{MOST_TURNS, Patience, Since};
use crate::places::{Place, Share};
use crate::talk::Talk;
use crate::vigil::Vigil;
use crate::watch::{WakeEar, Watch};
use ep_link::{Link, LinkBad, LinkGot};
use ep_outside::Device;
use mio::net::TcpStream;
use std::alloc::Global;
use std::io::ErrorKind;
use std::net::{Net, SocketAddr};
use std::random::RandomSource;
use std::sync::Wait;
use std::time::Clock;
use std::{io, mem};
use tungstenite::{Error, RandomKeys};

/// The most bytes of a message from a caller that the socket itself takes. It is twice what a reader takes, so that the
/// reader does the refusing.
const CALLERS_BYTES: usize = 8_388_608;

/// The same of a message from a server.
const SERVERS_BYTES: usize = 33_554_432;

/// Where a link stands.
#[derive(Drop)]
enum Line<R> {
    /// The peer's handshake is still to be heard.
    Fresh(Fresh),
    Open(Talk<R>),
    /// The peer is gone, or its handshake was refused.
    Closed,
    /// It failed, or never was.
    Broken,
}

/// A peer before its handshake.
#[derive(Drop)]
struct Fresh {
    stream: TcpStream,
    watch: Watch,
    share: Share,
}

impl Fresh {
    fn over<N: Net>(
        net: &N,
        alloc: Global,
        mut stream: TcpStream,
        place: &Place,
    ) -> io::Result<Fresh> {
        // Without it a short message may lie for a while; that is no reason to refuse a caller.
        let _ = stream.set_nodelay(true);
        Ok(Fresh {
            watch: Watch::over(net, alloc, &mut stream)?,
            share: place.share()?,
            stream,
        })
    }

    // Hears the peer's handshake.
    fn greeted<R: RandomSource + Clock + Drop>(
        self,
        rt: &R,
        alloc: Global,
        patience: Patience,
    ) -> Result<Talk<R>, Error> {
        let Fresh {
            stream,
            mut watch,
            share,
        } = self;
        let stream = greet(rt, alloc, stream, patience, &mut watch)?;
        let socket = Socket::new(alloc, stream, Keys::Bare, CALLERS_BYTES, Some(share));
        Ok(Talk::new(socket, watch, Some(Vigil::begin(rt, patience))))
    }
}

/// A WebSocket as a link.
///
/// A link that was taken at a door makes its handshake at the first receive. A caller who then is silent, or takes too
/// long for a message, is let go: the link is closed. A link that failed fails from then on; one for whose message there
/// was no memory is closed, since what follows would be taken for that message. However it ends, the peer is told why by
/// a close.
pub struct WsLink<R: RandomSource + Clock + Drop> {
    rt: R,
    alloc: Global,
    line: Line<R>,
    patience: Patience,
    // none for a link to a server
    place: Option<Place>,
    faults: u64,
}

impl<R: RandomSource + Clock + Drop> Drop for WsLink<R> {
    fn drop(self) {
        let WsLink {
            rt,
            alloc: _,
            line,
            patience: _,
            place: _,
            faults: _,
        } = self;
        if let Line::Open(talk) = line {
            talk.end(&rt);
        }
    }
}

impl<R: Net + RandomSource + Clock + Copy + Drop> WsLink<R> {
    /// A link to a server at an address as `127.0.0.1:9001`, once the client's handshake is made, in ten seconds at
    /// most. One that is refused is `Failed`.
    pub fn connect(rt: R, alloc: Global, address: &str) -> Result<WsLink<R>, LinkBad>
        ensures { IfOk result (λ l. ⟦<WsLink<R> as Device>⟧.failures l ≡ 0) }
    {
        match called(&rt, alloc, address) {
            Ok(talk) => Ok(WsLink {
                rt,
                alloc,
                line: Line::Open(talk),
                patience: Patience::USUAL,
                place: None,
                faults: 0,
            }),
            Err(Error::OutOfMemory) => Err(LinkBad::NoMemory),
            Err(_) => Err(LinkBad::Failed),
        }
    }

    /// A link to a peer that asked for it, over its stream, which does not block. Where the stream cannot be waited
    /// for, each call fails.
    pub fn taken(
        rt: R,
        alloc: Global,
        stream: TcpStream,
        patience: Patience,
        place: Place,
    ) -> WsLink<R>
        ensures { ⟦<WsLink<R> as Device>⟧.failures result ≡ 0 }
    {
        let line = match Fresh::over(&rt, alloc, stream, &place) {
            Ok(fresh) => Line::Fresh(fresh),
            Err(_) => Line::Broken,
        };
        WsLink {
            rt,
            alloc,
            line,
            patience,
            place: Some(place),
            faults: 0,
        }
    }
}

impl<R: RandomSource + Clock + Copy + Drop> WsLink<R> {
    // Hears the peer's handshake, where that is still to be done. What is answered is a refusal.
    fn open(&mut self) -> Option<LinkGot>
        ensures { self.new.faults ≡ self.old.faults }
    {
        match mem::replace(&mut self.line, Line::Closed) {
            Line::Fresh(fresh) => match fresh.greeted(&self.rt, self.alloc, self.patience) {
                Ok(talk) => {
                    self.line = Line::Open(talk);
                    None
                }
                Err(Error::OutOfMemory) => Some(LinkGot::NoMemory),
                Err(_) => Some(LinkGot::Closed),
            },
            line => {
                self.line = line;
                None
            }
        }
    }

    fn heard(&mut self) -> LinkGot
        ensures { self.new.faults ≡ self.old.faults }
    {
        if let Some(refused) = self.open() {
            return refused;
        }
        match &mut self.line {
            Line::Open(talk) => talk.recv(&self.rt),
            Line::Closed => LinkGot::Closed,
            Line::Fresh(_) | Line::Broken => LinkGot::Failed,
        }
    }

    fn sent(&mut self, text: &str) -> Result<(), LinkBad>
        ensures { self.new.faults ≡ self.old.faults }
    {
        match &mut self.line {
            Line::Open(talk) => talk.send(&self.rt, text),
            _ => Err(LinkBad::Failed),
        }
    }

    // Ends the conversation, where there is one.
    fn leave(&mut self, line: Line<R>)
        ensures { self.new.faults ≡ self.old.faults }
    {
        if let Line::Open(talk) = mem::replace(&mut self.line, line) {
            talk.end(&self.rt);
        }
    }

    // Counts a fault, after which the link is broken.
    fn fail(&mut self)
        ensures { HasRisen self.old.faults self.new.faults }
    {
        self.faults = self.faults.saturating_add(1);
        self.leave(Line::Broken);
    }
}

impl<R: RandomSource + Clock + Drop> Device for WsLink<R> {
    ghost use Rattle.std.specs.Prelude.{false};
    ghost use Rattle.std.proofs.Common.{sym, true≢false};

    ghost failures = { λ l. l.faults };

    ghost is_steady = { λ _. false };

    ghost never_fails = { λ _ h. absurd (true≢false (sym h)) };

    fn faults(&self) -> u64 {
        self.faults
    }
}

impl<R: RandomSource + Clock + Copy + Drop> Link for WsLink<R> {
    ghost use Rattle.std.specs.Prelude.{None};

    type Ear = WakeEar;

    ghost traffic = { λ _. None };

    fn recv<W: Wait>(&mut self, _rt: &W) -> LinkGot {
        match self.heard() {
            LinkGot::Failed => {
                self.fail();
                LinkGot::Failed
            }
            LinkGot::NoMemory => {
                self.leave(Line::Closed);
                LinkGot::NoMemory
            }
            got => got,
        }
    }

    fn send<W: Wait>(&mut self, _rt: &W, text: &str) -> Result<(), LinkBad> {
        match self.sent(text) {
            Err(LinkBad::Failed) => {
                self.fail();
                Err(LinkBad::Failed)
            }
            sent => sent,
        }
    }

    fn ear(&self) -> Option<WakeEar> {
        match &self.line {
            Line::Fresh(fresh) => fresh.watch.ear(),
            Line::Open(talk) => talk.watch().ear(),
            _ => None,
        }
    }
}

// A connection to an address, as `127.0.0.1:9001`, and the client's handshake over it, in ten seconds in all.
fn called<R: Net + RandomSource + Clock + Copy + Drop>(
    rt: &R,
    alloc: Global,
    address: &str,
) -> Result<Talk<R>, Error> {
    let Ok(addr) = address.parse::<SocketAddr>() else {
        return Err(Error::Url);
    };
    let since = Since::now(rt);
    let mut stream = TcpStream::connect(rt, addr)?;
    let mut watch = Watch::over(rt, alloc, &mut stream)?;
    reach(rt, since, &stream, &mut watch)?;
    let _ = stream.set_nodelay(true);
    let stream = ask(rt, alloc, stream, address, since, &mut watch)?;
    let keys = Keys::Drawn(RandomKeys::new(*rt));
    let socket = Socket::new(alloc, stream, keys, SERVERS_BYTES, None);
    Ok(Talk::new(socket, watch, None))
}

// Waits until the connection is made.
fn reach<C: Clock>(
    clock: &C,
    since: Since,
    stream: &TcpStream,
    watch: &mut Watch,
) -> io::Result<()> {
    for _ in 0..MOST_TURNS {
        let Some(left) = since.left_of(Patience::USUAL.call, clock) else {
            return Err(io::Error::from(ErrorKind::TimedOut));
        };
        watch.wait_for_socket(left)?;
        if let Some(error) = stream.take_error()? {
            return Err(error);
        }
        if stream.peer_addr().is_ok() {
            return Ok(());
        }
    }
    Err(io::Error::from(ErrorKind::TimedOut))
}

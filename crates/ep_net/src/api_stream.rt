//! A caller of the API over a socket, as a source and a sink.

ghost use Rattle.std.specs.Prelude.{◌≡◌};
ghost use Rattle.std.specs.Io.{ReadsAtMost};
ghost use Rattle.ep_outside.specs.Outside.{HasRisen};

use ep_outside::{Device, Failed, Got, Sink, Source};
use ep_ws::{MOST_TURNS, Patience, Place, Since, Waiting, is_gone, part, would_block};
use mio::net::TcpStream;
use mio::{Interest, Token};
use std::alloc::Global;
use std::io;
use std::io::{Error, ErrorKind, Read, Write};
use std::net::Net;
use std::time::Clock;

const SOCKET: Token = Token(0);

/// A socket that does not block, and how long its peer is still waited for.
#[derive(Drop)]
struct Peer {
    stream: TcpStream,
    waiting: Waiting,
    since: Since,
}

impl Peer {
    fn over<N: Net>(
        net: &N,
        alloc: Global,
        since: Since,
        mut stream: TcpStream,
    ) -> io::Result<Peer> {
        let waiting = Waiting::new(net, alloc)?;
        waiting.add(&mut stream, SOCKET, Interest::READABLE | Interest::WRITABLE)?;
        // Without it the end of a reply may lie for a while; that is no reason to refuse a caller.
        let _ = stream.set_nodelay(true);
        Ok(Peer {
            stream,
            waiting,
            since,
        })
    }

    // Waits until the peer sent or took something, for as long as there is patience.
    fn wait<C: Clock>(&mut self, clock: &C) -> io::Result<()> {
        match self.since.left_of(Patience::USUAL.call, clock) {
            Some(left) => self.waiting.wait(left),
            None => Err(Error::from(ErrorKind::TimedOut)),
        }
    }

    // So many bytes came; none where the peer sends no more.
    fn read<C: Clock>(&mut self, clock: &C, room: &mut [u8]) -> io::Result<usize>
        ensures { ReadsAtMost result room.new }
    {
        for _ in 0..MOST_TURNS {
            match self.stream.read(room) {
                Err(error) if would_block(&error) => self.wait(clock)?,
                Err(error) if is_gone(&error) => return Ok(0),
                read => return read,
            }
        }
        Err(Error::from(ErrorKind::TimedOut))
    }

    fn write<C: Clock>(&mut self, clock: &C, bytes: &[u8]) -> io::Result<()> {
        let mut rest = bytes;
        for _ in 0..MOST_TURNS {
            if rest.is_empty() {
                return Ok(());
            }
            match self.stream.write(rest) {
                Ok(0) => return Err(Error::from(ErrorKind::WriteZero)),
                Ok(n) => rest = &rest[n..],
                Err(error) if would_block(&error) => self.wait(clock)?,
                Err(error) => return Err(error),
            }
        }
        Err(Error::from(ErrorKind::TimedOut))
    }
}

/// A caller of the API, over its socket.
///
/// It is waited for ten seconds in all, from its taking on: what would have to wait longer fails. A peer that is gone
/// has sent all, also where it left by a reset. One that failed is closed, and fails from then on. At the end what still
/// comes is read away for a while, so that a caller who sends more than is read hears its reply.
pub struct ApiStream<C: Clock + Drop> {
    clock: C,
    // none where it failed, or could not be waited for
    peer: Option<Peer>,
    place: Place,
    faults: u64,
}

impl<C: Clock + Drop> Drop for ApiStream<C> {
    fn drop(self) {
        let ApiStream {
            clock,
            peer,
            place: _,
            faults: _,
        } = self;
        if let Some(mut peer) = peer {
            part(&clock, &mut peer.stream, &mut peer.waiting);
        }
    }
}

impl<C: Clock + Drop> ApiStream<C> {
    /// A caller over its stream, which does not block. Where the stream cannot be waited for, each call fails.
    pub fn taken<N: Net>(
        net: &N,
        alloc: Global,
        clock: C,
        stream: TcpStream,
        place: Place,
    ) -> ApiStream<C>
        ensures { ⟦<ApiStream<C> as Device>⟧.failures result ≡ 0 }
    {
        let since = Since::now(&clock);
        ApiStream {
            clock,
            peer: Peer::over(net, alloc, since, stream).ok(),
            place,
            faults: 0,
        }
    }
}

impl<C: Clock + Drop> ApiStream<C> {
    // Counts a fault, and closes the socket.
    fn fail(&mut self)
        ensures { HasRisen self.old.faults self.new.faults }
    {
        self.faults = self.faults.saturating_add(1);
        self.peer = None;
    }
}

impl<C: Clock + Drop> Device for ApiStream<C> {
    ghost use Rattle.std.specs.Prelude.{false};
    ghost use Rattle.std.proofs.Common.{sym, true≢false};

    ghost failures = { λ s. s.faults };

    ghost is_steady = { λ _. false };

    ghost never_fails = { λ _ h. absurd (true≢false (sym h)) };

    fn faults(&self) -> u64 {
        self.faults
    }
}

impl<C: Clock + Drop> Source for ApiStream<C> {
    ghost use Rattle.std.specs.Prelude.{None};

    ghost left = { λ _. None };

    fn read(&mut self, room: &mut [u8]) -> Got {
        let read = match &mut self.peer {
            Some(peer) => peer.read(&self.clock, room),
            None => Err(Error::from(ErrorKind::NotConnected)),
        };
        match read {
            Ok(0) => Got::End,
            Ok(n) => Got::Bytes(n),
            Err(_) => {
                self.fail();
                Got::Failed
            }
        }
    }
}

impl<C: Clock + Drop> Sink for ApiStream<C> {
    ghost use Rattle.std.specs.Prelude.{None};

    ghost held = { λ _. None };

    fn write(&mut self, bytes: &[u8]) -> Result<(), Failed> {
        let written = match &mut self.peer {
            Some(peer) => peer.write(&self.clock, bytes),
            None => Err(Error::from(ErrorKind::NotConnected)),
        };
        match written {
            Ok(()) => Ok(()),
            Err(_) => {
                self.fail();
                Err(Failed)
            }
        }
    }
}

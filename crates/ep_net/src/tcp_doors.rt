//! Two listening sockets as doors.

ghost use Rattle.std.specs.Prelude.{◌≡◌, IfOk};
ghost use Rattle.ep_outside.specs.Outside.{HasRisen};

use crate::api_stream::ApiStream;
use ep_doors::{Came, Doors};
use ep_link::LinkBad;
use ep_outside::Device;
use ep_units::NoMemory;
use ep_ws::{Bounds, MOST_TURNS, Patience, Place, Places, Waiting, WsLink, is_gone, would_block};
use mio::net::{TcpListener, TcpStream};
use mio::{Interest, Token};
use std::alloc::Global;
use std::io;
use std::io::{Error, ErrorKind};
use std::net::{Net, SocketAddr};
use std::random::RandomSource;
use std::sync::Wait;
use std::time::Clock;

/// An accept waits so many milliseconds at most.
const WAIT_MS: u64 = 20;

/// The errors of the system where it, or this process, has as many open files as it may.
const ENFILE: i32 = 23;

const EMFILE: i32 = 24;

/// What accept(2) hands on of the network and of the next connection, and not of the door: EPERM (a firewall's), ENONET,
/// EPROTO, ENOPROTOOPT, EOPNOTSUPP, ENETDOWN, ENETUNREACH, ECONNABORTED, ETIMEDOUT, EHOSTDOWN, EHOSTUNREACH.
const OF_ONE_CALLER: [i32; 11] = [1, 64, 71, 92, 95, 100, 101, 103, 110, 112, 113];

const PADS: Token = Token(0);

const API: Token = Token(1);

#[derive(Clone, Copy)]
enum Door {
    Pads,
    Api,
}

impl Door {
    fn other(self) -> Door {
        match self {
            Door::Pads => Door::Api,
            Door::Api => Door::Pads,
        }
    }
}

/// A socket that was taken at a door.
#[derive(Drop)]
struct Caller {
    door: Door,
    stream: TcpStream,
    place: Place,
}

/// Both sockets, and whose turn it is.
#[derive(Drop)]
struct Listening {
    pads: TcpListener,
    api: TcpListener,
    waiting: Waiting,
    // the door that is tried first, since the other had the last caller
    first: Door,
    places: Places,
}

fn bind<N: Net>(net: &N, address: &str) -> io::Result<TcpListener> {
    let Ok(address) = address.parse::<SocketAddr>() else {
        return Err(Error::from(ErrorKind::InvalidInput));
    };
    TcpListener::bind(net, address)
}

impl Listening {
    fn open<N: Net>(
        net: &N,
        alloc: Global,
        pads: &str,
        api: &str,
        bounds: Bounds,
    ) -> io::Result<Listening> {
        let mut pads = bind(net, pads)?;
        let mut api = bind(net, api)?;
        let waiting = Waiting::new(net, alloc)?;
        waiting.add(&mut pads, PADS, Interest::READABLE)?;
        waiting.add(&mut api, API, Interest::READABLE)?;
        Ok(Listening {
            pads,
            api,
            waiting,
            first: Door::Pads,
            places: Places::new(alloc, bounds)?,
        })
    }

    // A caller who is there, or who comes in about 20 milliseconds. As long as all places are taken, who comes stays at
    // the door.
    fn next(&mut self) -> io::Result<Option<Caller>> {
        if let Some(caller) = self.there()? {
            return Ok(Some(caller));
        }
        self.waiting.wait(WAIT_MS)?;
        self.there()
    }

    fn there(&mut self) -> io::Result<Option<Caller>> {
        if self.places.are_taken() {
            return Ok(None);
        }
        for door in [self.first, self.first.other()] {
            if let Some(stream) = taken(self.listener(door))? {
                self.first = door.other();
                let place = self.places.take()?;
                return Ok(Some(Caller {
                    door,
                    stream,
                    place,
                }));
            }
        }
        Ok(None)
    }

    fn listener(&self, door: Door) -> &TcpListener {
        match door {
            Door::Pads => &self.pads,
            Door::Api => &self.api,
        }
    }
}

// The next connection; none where nobody is there, or as long as no more files may be open. One that broke before it was
// taken is passed over.
fn taken(listener: &TcpListener) -> io::Result<Option<TcpStream>> {
    for _ in 0..MOST_TURNS {
        match listener.accept() {
            Ok((stream, _)) => return Ok(Some(stream)),
            Err(error) if would_block(&error) || is_full(&error) => return Ok(None),
            Err(error) if is_broken(&error) => {}
            Err(error) => return Err(error),
        }
    }
    Ok(None)
}

// No more files may be open: who comes stays at the door until somebody else is gone.
fn is_full(error: &Error) -> bool {
    matches!(error.raw_os_error(), Some(ENFILE | EMFILE))
}

// The error is of the connection, and not of the door: the system hands on what befell it while it waited.
fn is_broken(error: &Error) -> bool {
    is_gone(error)
        || error
            .raw_os_error()
            .is_some_and(|code| OF_ONE_CALLER.contains(&code))
}

/// Two listening sockets: at one come callers of pads, at the other callers of the API; or the way to a server's door.
///
/// Taking a caller only takes the socket. Where both doors have one, they take turns. Connections have a bound: at the
/// bound who comes stays at the door.
pub struct TcpDoors<R> {
    rt: R,
    alloc: Global,
    // none where an address was not to be had, or nobody listens
    listening: Option<Listening>,
    // the address of a server to call at
    server: Option<String>,
    given: u64,
    faults: u64,
}

impl<R: Drop> Drop for TcpDoors<R> {
    fn drop(self) {
        let TcpDoors {
            rt: _,
            alloc: _,
            listening: _,
            server: _,
            given: _,
            faults: _,
        } = self;
    }
}

impl<R: Net + RandomSource + Clock + Copy + Drop> TcpDoors<R> {
    /// Doors at two addresses as `127.0.0.1:9001`; at port 0 the system chooses one. Where one of them is not to be had,
    /// each call fails.
    pub fn open(
        rt: R,
        alloc: Global,
        pads: &str,
        api: &str,
        bounds: Bounds,
    ) -> Result<TcpDoors<R>, NoMemory>
        ensures faultless { IfOk result (λ d. ⟦<TcpDoors<R> as Device>⟧.failures d ≡ 0) }
        ensures fresh { IfOk result (λ d. ⟦<TcpDoors<R> as Doors>⟧.count d ≡ 0) }
    {
        let listening = match Listening::open(&rt, alloc, pads, api, bounds) {
            Ok(listening) => Some(listening),
            Err(error) if error.kind() == ErrorKind::OutOfMemory => return Err(NoMemory),
            Err(_) => None,
        };
        Ok(TcpDoors {
            rt,
            alloc,
            listening,
            server: None,
            given: 0,
            faults: 0,
        })
    }

    /// No doors, but the way to a server's at an address as `127.0.0.1:9001`: an accept fails.
    pub fn calling(rt: R, alloc: Global, server: &str) -> Result<TcpDoors<R>, NoMemory>
        ensures faultless { IfOk result (λ d. ⟦<TcpDoors<R> as Device>⟧.failures d ≡ 0) }
        ensures fresh { IfOk result (λ d. ⟦<TcpDoors<R> as Doors>⟧.count d ≡ 0) }
    {
        Ok(TcpDoors {
            rt,
            alloc,
            listening: None,
            server: Some(String::from_str(alloc, server)?),
            given: 0,
            faults: 0,
        })
    }

    // A link to the server.
    fn called(&self) -> Result<WsLink<R>, LinkBad>
        ensures { IfOk result (λ l. ⟦<WsLink<R> as Device>⟧.failures l ≡ 0) }
    {
        match &self.server {
            Some(address) => WsLink::connect(self.rt, self.alloc, address.as_str()),
            None => Err(LinkBad::Failed),
        }
    }
}

impl<R> TcpDoors<R> {
    // Counts a fault.
    fn fail(&mut self)
        ensures risen { HasRisen self.old.faults self.new.faults }
        ensures stays { self.new.given ≡ self.old.given }
    {
        self.faults = self.faults.saturating_add(1);
    }

    /// The address at which callers of pads come; none where it is not to be had.
    pub fn pads_address(&self) -> Option<SocketAddr> {
        self.listening.as_ref()?.pads.local_addr().ok()
    }

    /// The address at which callers of the API come; none where it is not to be had.
    pub fn api_address(&self) -> Option<SocketAddr> {
        self.listening.as_ref()?.api.local_addr().ok()
    }
}

impl<R> Device for TcpDoors<R> {
    ghost use Rattle.std.specs.Prelude.{false};
    ghost use Rattle.std.proofs.Common.{sym, true≢false};

    ghost failures = { λ d. d.faults };

    ghost is_steady = { λ _. false };

    ghost never_fails = { λ _ h. absurd (true≢false (sym h)) };

    fn faults(&self) -> u64 {
        self.faults
    }
}

impl<R: Net + RandomSource + Clock + Copy + Drop> Doors for TcpDoors<R> {
    type Pad = WsLink<R>;

    type Api = ApiStream<R>;

    ghost count = { λ d. d.given };

    ghost is_over = { λ _. ⊥ };

    fn given(&self) -> u64 {
        self.given
    }

    fn accept<W: Wait>(&mut self, _rt: &W) -> Came<WsLink<R>, ApiStream<R>> {
        let came = match &mut self.listening {
            Some(listening) => listening.next(),
            None => Err(Error::from(ErrorKind::NotConnected)),
        };
        let caller = match came {
            Ok(Some(caller)) => caller,
            Ok(None) => return Came::Nothing,
            Err(error) if error.kind() == ErrorKind::OutOfMemory => return Came::NoMemory,
            Err(_) => {
                self.fail();
                return Came::Failed;
            }
        };
        self.given = self.given.saturating_add(1);
        let Caller {
            door,
            stream,
            place,
        } = caller;
        match door {
            Door::Pads => {
                let patience = Patience::USUAL;
                Came::Pad(WsLink::taken(self.rt, self.alloc, stream, patience, place))
            }
            Door::Api => {
                Came::Api(ApiStream::taken(&self.rt, self.alloc, self.rt, stream, place))
            }
        }
    }

    fn connect<W: Wait>(&mut self, _rt: &W) -> Result<WsLink<R>, LinkBad> {
        match self.called() {
            Err(LinkBad::Failed) => {
                self.fail();
                Err(LinkBad::Failed)
            }
            called => called,
        }
    }
}

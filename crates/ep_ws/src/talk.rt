//! An open WebSocket with its watch.

use crate::frames::{Heard, Socket};
use crate::parting::part;
use crate::patience::{MOST_TURNS, Patience, Since};
use crate::stop::Stop;
use crate::vigil::Vigil;
use crate::watch::Watch;
use ep_link::{LinkBad, LinkGot};
use std::random::RandomSource;
use std::time::Clock;
use websocket::protocol::CloseCode;

/// So many frames, or reads, are passed over in one receive.
const MOST_STEPS: u32 = 256;

/// An open WebSocket with its watch.
pub struct Talk<R> {
    socket: Socket<R>,
    watch: Watch,
    // none where the peer is a server
    vigil: Option<Vigil>,
    // what the peer is told at the end
    parting: CloseCode,
    // the peer was given up
    is_over: bool,
}

impl<R: Drop> Drop for Talk<R> {
    fn drop(self) {
        let Talk {
            socket: _,
            watch: _,
            vigil: _,
            parting: _,
            is_over: _,
        } = self;
    }
}

impl<R: RandomSource + Drop> Talk<R> {
    pub fn new(socket: Socket<R>, watch: Watch, vigil: Option<Vigil>) -> Talk<R> {
        Talk {
            socket,
            watch,
            vigil,
            parting: CloseCode::Normal,
            is_over: false,
        }
    }

    pub fn watch(&self) -> &Watch {
        &self.watch
    }

    /// A message that is there; else what comes in a while, or until a ring.
    pub fn recv<C: Clock>(&mut self, clock: &C) -> LinkGot {
        if self.is_over {
            return LinkGot::Closed;
        }
        if let Some(got) = self.heard(clock) {
            return got;
        }
        if self.watch.wait_for_either().is_err() {
            return LinkGot::Failed;
        }
        match self.heard(clock) {
            Some(got) => got,
            None => self.is_quiet(clock),
        }
    }

    // What is there; none where nothing is, or where the peer takes nothing of what is to be sent first.
    fn heard<C: Clock>(&mut self, clock: &C) -> Option<LinkGot> {
        for _ in 0..MOST_STEPS {
            if let Err(stop) = self.socket.flush() {
                return self.stopped(stop);
            }
            match self.socket.next() {
                Ok(Heard::Text(text)) => return Some(self.came(clock, LinkGot::Message(text))),
                Ok(Heard::Binary) => {
                    self.parting = CloseCode::Unsupported;
                    return Some(self.came(clock, LinkGot::Binary));
                }
                Ok(Heard::Close) => {
                    // The reply to the close; the peer may be gone already.
                    let _ = self.socket.flush();
                    return Some(LinkGot::Closed);
                }
                Ok(Heard::Sign) => self.lives(clock),
                Ok(Heard::Part) => {}
                Err(stop) => return self.stopped(stop),
            }
        }
        Some(self.is_quiet(clock))
    }

    // What a stop means for a receive; none where there is nothing yet.
    fn stopped(&mut self, stop: Stop) -> Option<LinkGot> {
        match stop {
            Stop::Blocked => None,
            Stop::Gone => Some(LinkGot::Closed),
            Stop::Crowded => Some(self.gives_up(CloseCode::Again)),
            Stop::NoMemory => {
                self.parting = CloseCode::Error;
                Some(LinkGot::NoMemory)
            }
            Stop::Failed(code) => {
                self.parting = code;
                Some(LinkGot::Failed)
            }
        }
    }

    fn gives_up(&mut self, code: CloseCode) -> LinkGot {
        self.parting = code;
        self.is_over = true;
        LinkGot::Closed
    }

    fn came<C: Clock>(&mut self, clock: &C, got: LinkGot) -> LinkGot {
        if let Some(vigil) = &mut self.vigil {
            vigil.sees_message(clock);
        }
        got
    }

    fn lives<C: Clock>(&mut self, clock: &C) {
        if let Some(vigil) = &mut self.vigil {
            vigil.sees_life(clock);
        }
    }

    // No message is there. Who has been silent for too long is given up, and who is silent is sent a ping.
    fn is_quiet<C: Clock>(&mut self, clock: &C) -> LinkGot {
        let is_amid = self.socket.is_amid();
        let Some(vigil) = &mut self.vigil else {
            return LinkGot::Nothing;
        };
        vigil.sees_nothing(clock, is_amid);
        if vigil.is_over(clock) {
            return self.gives_up(CloseCode::Policy);
        }
        if vigil.asks(clock) {
            // Where there is no room for it, it isn't answered either.
            let _ = self.socket.ping();
            let _ = self.socket.flush();
        }
        LinkGot::Nothing
    }

    /// Sends a message whole. After `Failed` a part of it may have gone out.
    pub fn send<C: Clock>(&mut self, clock: &C, text: &str) -> Result<(), LinkBad> {
        match self.socket.write(text) {
            Ok(()) => {}
            Err(Stop::NoMemory) => return Err(LinkBad::NoMemory),
            Err(_) => return Err(LinkBad::Failed),
        }
        let since = Since::now(clock);
        for _ in 0..MOST_TURNS {
            match self.socket.flush() {
                Ok(()) => return Ok(()),
                Err(Stop::Blocked) => {}
                Err(_) => return Err(LinkBad::Failed),
            }
            let Some(left) = since.left_of(Patience::USUAL.call, clock) else {
                return Err(LinkBad::Failed);
            };
            if self.watch.wait_for_socket(left).is_err() {
                return Err(LinkBad::Failed);
            }
        }
        Err(LinkBad::Failed)
    }

    /// Tells the peer why it ends, and closes.
    pub fn end<C: Clock>(self, clock: &C) {
        let Talk {
            mut socket,
            mut watch,
            vigil: _,
            parting,
            is_over: _,
        } = self;
        if socket.close(parting).is_ok() && socket.flush().is_ok() {
            part(clock, socket.stream(), watch.waiting());
        }
    }
}

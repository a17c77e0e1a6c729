//! A connection within the test.

ghost use Rattle.std.specs.Prelude.{◌≡◌, true, refl, None, IfSome};

use ep_link::{Coming, Ear, Link, LinkBad, LinkGot};
use ep_outside::{Device, Text};
use ep_units::NoMemory;
use std::alloc::Global;
use std::collections::VecDeque;
use std::sync::atomic::{AtomicBool, Ordering};
use std::sync::{Arc, Mutex, Wait};
use std::thread;

/// After so many looks whoever waits gives up.
const LOOKS: u64 = 20_000_000;

/// What a session sent, and how often it had been rung by then.
struct Sent {
    text: Text,
    rings: u64,
}

impl Drop for Sent {
    fn drop(self) {
        let Sent { text: _, rings: _ } = self;
    }
}

/// What passes between a caller and its session.
pub struct Wire {
    coming: Mutex<VecDeque<Coming>>,
    sent: Mutex<Vec<Sent>>,
    rung: AtomicBool,
    /// The session is in a receive, and nothing has come.
    waits: AtomicBool,
}

impl Drop for Wire {
    fn drop(self) {
        let Wire {
            coming: _,
            sent: _,
            rung: _,
            waits: _,
        } = self;
    }
}

impl Wire {
    pub fn new(alloc: Global) -> Wire {
        Wire {
            coming: Mutex::new(VecDeque::new(alloc)),
            sent: Mutex::new(Vec::new(alloc)),
            rung: AtomicBool::new(false),
            waits: AtomicBool::new(false),
        }
    }

    /// The caller sends a message.
    pub fn say<R: Wait>(&self, rt: &R, alloc: Global, text: &str) -> Result<(), NoMemory> {
        let text = Text::from_str(alloc, text)?;
        self.coming.lock(rt).push_back(Coming::Message(text))?;
        Ok(())
    }

    /// The caller goes.
    pub fn close<R: Wait>(&self, rt: &R) -> Result<(), NoMemory> {
        self.coming.lock(rt).push_back(Coming::Closed)?;
        Ok(())
    }

    /// How many messages with this word the caller was sent.
    pub fn heard<R: Wait>(&self, rt: &R, word: &str) -> usize {
        let sent = self.sent.lock(rt);
        sent.iter()
            .filter(|sent| sent.text.as_str().contains(word))
            .count()
    }

    // How often the session had been rung when it first sent this word.
    fn rings_before<R: Wait>(&self, rt: &R, word: &str) -> Option<u64> {
        let sent = self.sent.lock(rt);
        sent.iter()
            .find(|sent| sent.text.as_str().contains(word))
            .map(|sent| sent.rings)
    }

    /// Waits until the caller was sent a message with this word: how often the session had been rung by then.
    pub fn waits_for<R: Wait>(&self, rt: &R, word: &str) -> Option<u64> {
        for _ in 0..LOOKS {
            let rings = self.rings_before(rt, word);
            if rings.is_some() {
                return rings;
            }
            thread::yield_now();
        }
        None
    }

    /// Waits until the session waits.
    pub fn is_quiet(&self) -> bool {
        for _ in 0..LOOKS {
            if self.waits.load(Ordering::SeqCst) {
                return true;
            }
            thread::yield_now();
        }
        false
    }

    fn next<R: Wait>(&self, rt: &R) -> Option<Coming> {
        self.coming.lock(rt).pop_front()
    }
}

/// The session's end of a wire.
pub struct WireLink {
    alloc: Global,
    wire: Arc<Wire>,
    rings: u64,
}

impl Drop for WireLink {
    fn drop(self) {
        let WireLink {
            alloc: _,
            wire: _,
            rings: _,
        } = self;
    }
}

impl WireLink {
    pub fn new(alloc: Global, wire: Arc<Wire>) -> WireLink {
        WireLink {
            alloc,
            wire,
            rings: 0,
        }
    }

    // What came, or that it was rung; none where neither is so.
    fn look<R: Wait>(&mut self, rt: &R) -> Option<LinkGot>
        ensures { IfSome result (λ got. got ≡ LinkGot.Failed → ⊥) }
    {
        let came = match self.wire.next(rt) {
            Some(Coming::Message(text)) => LinkGot::Message(text),
            Some(_) => LinkGot::Closed,
            None if self.wire.rung.swap(false, Ordering::SeqCst) => {
                self.rings = self.rings.saturating_add(1);
                LinkGot::Nothing
            }
            None => return None,
        };
        self.wire.waits.store(false, Ordering::SeqCst);
        Some(came)
    }
}

/// Rings a wire.
pub struct Bell {
    wire: Arc<Wire>,
}

impl Drop for Bell {
    fn drop(self) {
        let Bell { wire: _ } = self;
    }
}

impl Ear for Bell {
    fn ring(&self) -> bool {
        self.wire.rung.store(true, Ordering::SeqCst);
        true
    }
}

impl Device for WireLink {
    ghost failures = { λ _. 0 };

    ghost is_steady = { λ _. true };

    ghost never_fails = { λ _ _. refl };

    fn faults(&self) -> u64 {
        0
    }
}

impl Link for WireLink {
    type Ear = Bell;

    ghost traffic = { λ _. None };

    fn recv<R: Wait>(&mut self, rt: &R) -> LinkGot {
        for _ in 0..LOOKS {
            if let Some(came) = self.look(rt) {
                return came;
            }
            self.wire.waits.store(true, Ordering::SeqCst);
            thread::yield_now();
        }
        LinkGot::Closed
    }

    fn send<R: Wait>(&mut self, rt: &R, text: &str) -> Result<(), LinkBad> {
        let Ok(text) = Text::from_str(self.alloc, text) else {
            return Err(LinkBad::NoMemory);
        };
        let sent = Sent {
            text,
            rings: self.rings,
        };
        match self.wire.sent.lock(rt).push(sent) {
            Ok(()) => Ok(()),
            Err(_) => Err(LinkBad::NoMemory),
        }
    }

    fn ear(&self) -> Option<Bell> {
        match Arc::try_clone(&self.wire) {
            Ok(wire) => Some(Bell { wire }),
            Err(_) => None,
        }
    }
}

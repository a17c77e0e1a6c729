//! Waiting for a socket, or for a ring.

use crate::waiting::Waiting;
use ep_link::Ear;
use mio::net::TcpStream;
use mio::{Interest, Token, Waker};
use std::alloc::Global;
use std::io;
use std::net::Net;
use std::sync::Arc;
use std::sync::atomic::{AtomicBool, Ordering};

const SOCKET: Token = Token(0);

const BELL: Token = Token(1);

/// A wait that a ring may end lasts so many milliseconds at most. Who rings tells of all that is new, but a ring may be
/// missed where there was no memory for an ear.
const RUNG_MS: u64 = 1_000;

/// The same of a wait of which nobody has the ear.
const UNRUNG_MS: u64 = 20;

/// Ends the wait of one watch.
#[derive(Drop)]
struct Bell {
    waker: Waker,
    // somebody has its ear
    has_ear: AtomicBool,
    // rung, and not heard yet
    is_rung: AtomicBool,
    // nobody waits any more
    is_gone: AtomicBool,
}

/// Wakes the link whose ear it is.
#[derive(Drop)]
pub struct WakeEar {
    bell: Arc<Bell, Global>,
}

impl Ear for WakeEar {
    fn ring(&self) -> bool {
        if self.bell.is_gone.load(Ordering::SeqCst) {
            return false;
        }
        if self.bell.is_rung.swap(true, Ordering::SeqCst) {
            return true;
        }
        self.bell.waker.wake().is_ok()
    }
}

/// A watch's own hold of its bell. Once it is dropped the ears learn that nobody listens.
struct Hearing {
    bell: Arc<Bell, Global>,
}

impl Drop for Hearing {
    fn drop(self) {
        let Hearing { bell } = self;
        bell.is_gone.store(true, Ordering::SeqCst);
    }
}

/// Waits until a socket has something to read or room to write, or until its bell is rung.
#[derive(Drop)]
pub struct Watch {
    waiting: Waiting,
    hearing: Hearing,
}

impl Watch {
    pub fn over<N: Net>(net: &N, alloc: Global, stream: &mut TcpStream) -> io::Result<Watch> {
        let waiting = Waiting::new(net, alloc)?;
        waiting.add(stream, SOCKET, Interest::READABLE | Interest::WRITABLE)?;
        let bell = Bell {
            waker: Waker::new(waiting.registry(), BELL)?,
            has_ear: AtomicBool::new(false),
            is_rung: AtomicBool::new(false),
            is_gone: AtomicBool::new(false),
        };
        Ok(Watch {
            waiting,
            hearing: Hearing {
                bell: Arc::new(alloc, bell)?,
            },
        })
    }

    pub fn waiting(&mut self) -> &mut Waiting {
        &mut self.waiting
    }

    /// Waits for the socket, so many milliseconds at most. A ring may end the wait, and is still to be heard.
    pub fn wait_for_socket(&mut self, ms: u64) -> io::Result<()> {
        self.waiting.wait(ms)
    }

    /// Waits for the socket or a ring, for a second at most, or for 20 milliseconds where nobody rings. A ring since the
    /// last such wait ends it at once.
    pub fn wait_for_either(&mut self) -> io::Result<()> {
        if self.hearing.bell.is_rung.swap(false, Ordering::SeqCst) {
            return Ok(());
        }
        self.wait_for_socket(self.longest())?;
        self.hearing.bell.is_rung.store(false, Ordering::SeqCst);
        Ok(())
    }

    fn longest(&self) -> u64 {
        if self.hearing.bell.has_ear.load(Ordering::SeqCst) {
            RUNG_MS
        } else {
            UNRUNG_MS
        }
    }

    /// None for want of memory.
    pub fn ear(&self) -> Option<WakeEar> {
        match Arc::try_clone(&self.hearing.bell) {
            Ok(bell) => {
                bell.has_ear.store(true, Ordering::SeqCst);
                Some(WakeEar { bell })
            }
            Err(_) => None,
        }
    }
}

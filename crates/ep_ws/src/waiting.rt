//! Waiting for sockets.

use mio::event::Source;
use mio::{Events, Interest, Poll, Registry, Token};
use std::alloc::Global;
use std::io;
use std::io::{Error, ErrorKind};
use std::net::Net;
use std::time::Duration;

/// Waits for up to two sources.
///
/// What a source reported once it reports again only after a call answered that it would block: so try first, and then
/// wait.
#[derive(Drop)]
pub struct Waiting {
    poll: Poll,
    events: Events<Global>,
}

impl Waiting {
    pub fn new<N: Net>(net: &N, alloc: Global) -> io::Result<Waiting> {
        Ok(Waiting {
            poll: Poll::new(net)?,
            events: Events::with_capacity(alloc, 2)?,
        })
    }

    pub fn add<S: Source>(
        &self,
        source: &mut S,
        token: Token,
        interests: Interest,
    ) -> io::Result<()> {
        self.poll.registry().register(source, token, interests)
    }

    pub fn registry(&self) -> &Registry {
        self.poll.registry()
    }

    /// Waits for one of the sources, so many milliseconds at most.
    pub fn wait(&mut self, ms: u64) -> io::Result<()> {
        self.poll
            .poll(&mut self.events, Some(Duration::from_millis(ms)))
    }
}

/// A call has to wait.
pub fn would_block(error: &Error) -> bool {
    error.kind() == ErrorKind::WouldBlock
}

/// A call is to be made again.
pub fn is_interrupted(error: &Error) -> bool {
    error.kind() == ErrorKind::Interrupted
}

/// The peer left without a word.
pub fn is_gone(error: &Error) -> bool {
    matches!(
        error.kind(),
        ErrorKind::ConnectionReset | ErrorKind::ConnectionAborted | ErrorKind::BrokenPipe
    )
}

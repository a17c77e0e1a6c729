//! Why nothing more comes or goes.

use crate::waiting::{is_gone, would_block};
use ep_units::NoMemory;
use std::alloc::AllocError;
use std::io;
use websocket::error::{Error, ProtocolError};
use websocket::protocol::CloseCode;

/// Why nothing more comes or goes on a WebSocket.
#[derive(Clone, Copy, Debug, PartialEq, Eq)]
pub enum Stop {
    /// There is nothing yet, or no room yet.
    Blocked,
    /// The peer left, with a word or without one.
    Gone,
    /// All connections together hold too much of unfinished messages.
    Crowded,
    NoMemory,
    /// The peer broke a rule, or the system failed; and what the peer is told of it.
    Failed(CloseCode),
}

impl From<Error> for Stop {
    fn from(error: Error) -> Stop {
        match error {
            Error::ConnectionClosed | Error::AlreadyClosed => Stop::Gone,
            Error::Protocol(ProtocolError::ResetWithoutClosingHandshake) => Stop::Gone,
            Error::Protocol(_) => Stop::Failed(CloseCode::Protocol),
            Error::Capacity(_) => Stop::Failed(CloseCode::Size),
            Error::Utf8 => Stop::Failed(CloseCode::Invalid),
            Error::OutOfMemory => Stop::NoMemory,
        }
    }
}

impl From<io::Error> for Stop {
    fn from(error: io::Error) -> Stop {
        if would_block(&error) {
            Stop::Blocked
        } else if is_gone(&error) {
            Stop::Gone
        } else {
            Stop::Failed(CloseCode::Error)
        }
    }
}

impl From<AllocError> for Stop {
    fn from(_error: AllocError) -> Stop {
        Stop::NoMemory
    }
}

impl From<NoMemory> for Stop {
    fn from(_error: NoMemory) -> Stop {
        Stop::NoMemory
    }
}

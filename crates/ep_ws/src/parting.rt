//! How a connection is closed.

use crate::patience::{MOST_TURNS, Since};
use crate::waiting::{Waiting, would_block};
use mio::net::TcpStream;
use std::io::Read;
use std::net::Shutdown;
use std::time::Clock;

/// So many bytes are read away of a peer that still sends.
const AWAY_BYTES: usize = 1_048_576;

/// So long it is waited for, in milliseconds.
const AWAY_MS: u64 = 2_000;

/// Sends no more, and reads away what still comes.
///
/// A socket that is closed with something unread resets the connection, and the peer may lose what it was sent last.
pub fn part<C: Clock>(clock: &C, stream: &mut TcpStream, waiting: &mut Waiting) {
    if stream.shutdown(Shutdown::Write).is_err() {
        return;
    }
    let since = Since::now(clock);
    let mut room = [0; 4_096];
    let mut left = AWAY_BYTES;
    for _ in 0..MOST_TURNS {
        match stream.read(&mut room) {
            Ok(0) => return,
            Ok(n) => match left.checked_sub(n) {
                Some(rest) => left = rest,
                None => return,
            },
            Err(error) if would_block(&error) => {
                let Some(ms) = since.left_of(AWAY_MS, clock) else {
                    return;
                };
                if waiting.wait(ms).is_err() {
                    return;
                }
            }
            Err(_) => return,
        }
    }
}

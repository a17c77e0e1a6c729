//! The handshakes of WebSockets.

use crate::head::Head;
use crate::patience::{MOST_TURNS, Patience, Since};
use crate::watch::Watch;
use mio::net::TcpStream;
use std::alloc::Global;
use std::random::RandomSource;
use std::time::Clock;
use tungstenite::handshake::{HandshakeError, HandshakeRole, client, server};
use tungstenite::{Error, NoCallback, NoMask};

/// The server's handshake on a stream that doesn't block. What came behind it is still to be read.
pub fn greet<C: Clock>(
    clock: &C,
    alloc: Global,
    stream: TcpStream,
    patience: Patience,
    watch: &mut Watch,
) -> Result<TcpStream, Error> {
    let since = Since::now(clock);
    let begun = server::start(alloc, Head::of(stream), NoCallback, None).handshake();
    let greeted = finished(clock, since, patience, watch, begun)?;
    Ok(greeted.into_inner().into_inner())
}

/// The client's handshake on a stream that doesn't block, with an address as `127.0.0.1:9001`. What came behind it is
/// still to be read.
pub fn ask<R: RandomSource + Clock>(
    rt: &R,
    alloc: Global,
    stream: TcpStream,
    address: &str,
    since: Since,
    watch: &mut Watch,
) -> Result<TcpStream, Error> {
    let mut nonce = [0; 16];
    rt.fill_bytes(&mut nonce)?;
    let request = client::request_of(alloc, format!(in alloc; "ws://{address}/")?.as_str())?;
    let asked = client::start(alloc, nonce, NoMask, request, Head::of(stream), None)?;
    let begun = asked.handshake();
    let (socket, _response) = finished(rt, since, Patience::USUAL, watch, begun)?;
    Ok(socket.into_inner().into_inner())
}

// Goes on with a handshake until it is made, or refused, or has taken too long.
fn finished<C: Clock, H: HandshakeRole + Drop>(
    clock: &C,
    since: Since,
    patience: Patience,
    watch: &mut Watch,
    begun: Result<H::Finished, HandshakeError<H>>,
) -> Result<H::Finished, Error>
where
    H::Finished: Drop,
{
    let mut turn = begun;
    for _ in 0..MOST_TURNS {
        match turn {
            Ok(made) => return Ok(made),
            Err(HandshakeError::Failure(error)) => return Err(error),
            Err(HandshakeError::Interrupted(middle)) => {
                let Some(left) = since.left_of(patience.call, clock) else {
                    return Err(Error::HandshakeIncomplete);
                };
                watch.wait_for_socket(left)?;
                turn = middle.handshake();
            }
        }
    }
    Err(Error::HandshakeIncomplete)
}

//! Who comes to a server.

use crate::asked::{Ask, ask_at};
use crate::turn::{TURNS, words_of};
use ep_real::{Missing, run_words};
use std::alloc::AllocError;
use std::fs::{File, Files};
use std::io::{Eprint, Input, Print};
use std::net::{Net, SocketAddr, TcpStream};
use std::random::RandomSource;
use std::sync::Wait;
use std::thread::Threads;
use std::time::Clock;

/// The addresses of a server's doors.
#[derive(Clone, Copy)]
pub struct Doorways {
    pub pads: SocketAddr,
    pub api: SocketAddr,
}

const NOTHING: &[Ask] = &[];

/// A writer of standard input's lines comes to the server of this number, then one request after
/// the other. Answers what the requests were told, and the status of the writer, which says itself
/// what it wrote.
pub fn visit<R>(rt: R, files: HostRuntime, ways: Doorways, number: usize) -> Result<String, Missing>
where
    R: Wait
        + Threads
        + Net<Stream = TcpStream>
        + RandomSource
        + Clock
        + Input
        + Print
        + Eprint
        + AllocGlobal
        + Files<File = File>
        + Copy
        + Send
        + Drop
        + 'static,
{
    let alloc = rt.alloc();
    let address = format!(in alloc; "{}", ways.pads)?;
    let words = words_of(alloc, &["write", address.as_str(), "p", "t"])?;
    let wrote = run_words(rt, files, false, &words)?;
    let mut lines = format!(in alloc; "write: {}\n", wrote.code)?;
    let asks = TURNS.get(number).map_or(NOTHING, |turn| turn.asks);
    ask_all(&rt, ways.api, asks, &mut lines)?;
    Ok(lines)
}

// Adds a line for each request.
fn ask_all<R: Net<Stream = TcpStream> + AllocGlobal>(
    rt: &R,
    api: SocketAddr,
    asks: &[Ask],
    lines: &mut String,
) -> Result<(), AllocError> {
    for ask in asks {
        let told = ask_at(rt, api, ask)?;
        lines.push_str(told.as_str())?;
    }
    Ok(())
}

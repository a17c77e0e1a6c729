//! One request of the API, and its reply.

use std::alloc::{AllocError, Global};
use std::io;
use std::io::Write;
use std::net::{Net, SocketAddr, TcpStream};

/// A function of the API, and its parameters as a form; the last one's value goes on with so many letters.
pub type Ask = (&'static str, &'static str, usize);

// The request as a caller sends it.
fn request(alloc: Global, ask: &Ask) -> Result<String, AllocError> {
    let (function, pairs, count) = *ask;
    let fill = "a".repeat(alloc, count)?;
    let length = pairs.len().saturating_add(count);
    format!(in alloc;
        "POST /api/1.2/{function} HTTP/1.1\r\nContent-Length: {length}\r\n\r\n{pairs}{fill}"
    )
}

// The whole reply.
fn reply<R: Net<Stream = TcpStream>>(
    rt: &R,
    alloc: Global,
    api: SocketAddr,
    request: &str,
) -> io::Result<String> {
    let mut caller = TcpStream::connect(rt, api)?;
    caller.write_all(request.as_bytes())?;
    io::read_to_string(alloc, caller)
}

// The status of a reply and its body, without the random part of the ids in it.
fn shown(alloc: Global, reply: &str) -> Result<String, AllocError> {
    let (head, body) = reply.split_once("\r\n\r\n").unwrap_or((reply, ""));
    let status = head.split(' ').nth(1).unwrap_or("no status");
    let mut line = format!(in alloc; "{status} ")?;
    for (place, piece) in body.split("\"g.").enumerate() {
        if place == 0 {
            line.push_str(piece)?;
        } else {
            line.push_str("\"g.")?;
            line.push_str(piece.get(16..).unwrap_or("short"))?;
        }
    }
    Ok(line)
}

/// A line of what is asked at an address and what is told.
pub fn ask_at<R: Net<Stream = TcpStream> + AllocGlobal>(
    rt: &R,
    api: SocketAddr,
    ask: &Ask,
) -> Result<String, AllocError> {
    let alloc = rt.alloc();
    let request = request(alloc, ask)?;
    let told = match reply(rt, alloc, api, &request) {
        Ok(reply) => shown(alloc, &reply)?,
        Err(_) => String::from_str(alloc, "no reply")?,
    };
    let (function, pairs, _) = *ask;
    format!(in alloc; "{function} {pairs}: {told}\n")
}

//! WebSockets.

use ep_link::{Ear, Link, LinkBad, LinkGot};
use ep_net::{Bounds, Patience, Places, WsLink};
use ep_outside::Device;
use mio::net::TcpListener;
use std::alloc::{AllocError, Global};
use std::io::{Read, Write};
use std::net::{Net, SocketAddr};
use std::random::RandomSource;
use std::sync::Wait;
use std::test::Fail;
use std::time::{Clock, Duration, Instant};
use std::{io, net, thread};

// The example of RFC 6455, section 1.3.
const REQUEST: &[u8] =
    b"GET / HTTP/1.1\r\nHost: x\r\nConnection: Upgrade\r\nUpgrade: websocket\r\nSec-WebSocket-Version: 13\r\nSec-WebSocket-Key: dGhlIHNhbXBsZSBub25jZQ==\r\n\r\n";

const ACCEPTED: &str = "s3pPLMBiTxaQ9kYGzzhZRbK+xOo=";

fn listen(rt: &HostRuntime) -> Result<TcpListener, Fail> {
    let address = "127.0.0.1:0".parse()?;
    Ok(TcpListener::bind(rt, address)?)
}

pub fn text_of(alloc: Global, address: SocketAddr) -> Result<String, AllocError> {
    format!(in alloc; "{address}")
}

fn address_of(alloc: Global, listener: &TcpListener) -> Result<String, Fail> {
    Ok(text_of(alloc, listener.local_addr()?)?)
}

// The link to the next caller, with a server's usual patience.
fn taken<R: Net + RandomSource + Clock + Copy + Drop>(
    rt: &R,
    alloc: Global,
    listener: &TcpListener,
) -> Option<WsLink<R>> {
    let bounds = Bounds::of_connections(1);
    taken_by(rt, alloc, listener, Patience::USUAL, bounds)
}

// The link to the next caller.
fn taken_by<R: Net + RandomSource + Clock + Copy + Drop>(
    rt: &R,
    alloc: Global,
    listener: &TcpListener,
    patience: Patience,
    bounds: Bounds,
) -> Option<WsLink<R>> {
    for _ in 0..500u32 {
        match listener.accept() {
            Ok((stream, _)) => {
                let place = Places::new(alloc, bounds).ok()?.take().ok()?;
                return Some(WsLink::taken(*rt, alloc, stream, patience, place));
            }
            Err(_) => thread::sleep(rt, Duration::from_millis(10)),
        }
    }
    None
}

// A caller's bare socket.
fn call(rt: &HostRuntime, listener: &TcpListener) -> io::Result<net::TcpStream> {
    let caller = net::TcpStream::connect(rt, listener.local_addr()?)?;
    caller.set_read_timeout(Some(Duration::from_secs(20)))?;
    caller.set_nodelay(true)?;
    Ok(caller)
}

// A caller's bare socket, and the link to it.
fn called(rt: &HostRuntime) -> Result<(net::TcpStream, WsLink<HostRuntime>), Fail> {
    let listener = listen(rt)?;
    let caller = call(rt, &listener)?;
    match taken(rt, rt.alloc(), &listener) {
        Some(link) => Ok((caller, link)),
        None => Err(Fail::from("nobody called")),
    }
}

// What comes in 20 seconds.
pub fn next_got<R: Net + RandomSource + Clock + Copy + Drop + Wait>(
    rt: &R,
    link: &mut WsLink<R>,
) -> LinkGot {
    for _ in 0..1000u32 {
        match link.recv(rt) {
            LinkGot::Nothing => {}
            got => return got,
        }
    }
    LinkGot::Nothing
}

fn is_text(got: &LinkGot, text: &str) -> bool {
    match got {
        LinkGot::Message(message) => message.as_str() == text,
        _ => false,
    }
}

/// The text goes out, and comes back.
pub fn is_echoed<R: Net + RandomSource + Clock + Copy + Drop + Wait>(
    rt: &R,
    link: &mut WsLink<R>,
    text: &str,
) -> bool {
    link.send(rt, text).is_ok() && is_text(&next_got(rt, link), text)
}

/// Sends each message back until the other side is gone, and answers how many there were.
pub fn echo<R: Net + RandomSource + Clock + Copy + Drop + Wait>(
    rt: &R,
    mut link: WsLink<R>,
) -> u32 {
    let mut messages = 0u32;
    for _ in 0..2000u32 {
        match link.recv(rt) {
            LinkGot::Message(text) => {
                messages = messages.saturating_add(1);
                if link.send(rt, text.as_str()).is_err() {
                    return 0;
                }
            }
            LinkGot::Nothing => {}
            _ => return messages,
        }
    }
    0
}

// The answer of the example comes.
fn hears_answer(caller: &mut net::TcpStream) -> io::Result<bool> {
    let mut room = [0; 512];
    let n = caller.read(&mut room)?;
    match str::from_utf8(&room[..n]) {
        Ok(text) => Ok(text.starts_with("HTTP/1.1 101 ") && text.contains(ACCEPTED)),
        Err(_) => Ok(false),
    }
}

fn hears(caller: &mut net::TcpStream, frames: [u8; 7]) -> io::Result<bool> {
    let mut room = [0; 7];
    caller.read_exact(&mut room)?;
    Ok(room == frames)
}

#[test]
fn serves_a_caller(rt: HostRuntime) -> Result<(), Fail> {
    let (mut caller, mut link) = called(&rt)?;
    assert!(rt; caller.write_all(REQUEST).is_ok());
    assert!(rt; matches!(link.recv(&rt), LinkGot::Nothing));
    assert!(rt; matches!(hears_answer(&mut caller), Ok(true)));
    // A ping, a text and a binary message, masked by zeros.
    let frames = [0x89, 0x80, 0, 0, 0, 0, 0x81, 0x82, 0, 0, 0, 0, b'h', b'i'];
    assert!(rt; caller.write_all(&frames).is_ok());
    assert!(rt; is_text(&next_got(&rt, &mut link), "hi"));
    assert!(rt; link.send(&rt, "yes").is_ok());
    let frames = [0x8A, 0, 0x81, 3, b'y', b'e', b's'];
    assert!(rt; matches!(hears(&mut caller, frames), Ok(true)));
    assert!(rt; caller.write_all(&[0x82, 0x81, 0, 0, 0, 0, 7]).is_ok());
    assert!(rt; matches!(next_got(&rt, &mut link), LinkGot::Binary));
    assert!(rt; caller.write_all(&[0x88, 0x80, 0, 0, 0, 0]).is_ok());
    assert!(rt; matches!(next_got(&rt, &mut link), LinkGot::Closed));
    assert_eq!(rt; link.faults(), 0);
    Ok(())
}

#[test]
fn refuses_another_caller(rt: HostRuntime) -> Result<(), Fail> {
    let (mut caller, mut link) = called(&rt)?;
    assert!(rt; caller.write_all(b"GET / HTTP/1.1\r\n\r\n").is_ok());
    assert!(rt; matches!(next_got(&rt, &mut link), LinkGot::Closed));
    assert!(rt; matches!(next_got(&rt, &mut link), LinkGot::Closed));
    assert_eq!(rt; link.faults(), 0);
    assert!(rt; matches!(link.send(&rt, "x"), Err(LinkBad::Failed)));
    assert!(rt; matches!(next_got(&rt, &mut link), LinkGot::Failed));
    assert_eq!(rt; link.faults(), 2);
    Ok(())
}

#[test]
fn tells_that_a_caller_broke_the_rules(rt: HostRuntime) -> Result<(), Fail> {
    let (mut caller, mut link) = called(&rt)?;
    assert!(rt; caller.write_all(REQUEST).is_ok());
    assert!(rt; matches!(link.recv(&rt), LinkGot::Nothing));
    // A frame that a client must not send bare.
    assert!(rt; caller.write_all(&[0x81, 0]).is_ok());
    drop(caller);
    assert!(rt; matches!(next_got(&rt, &mut link), LinkGot::Failed));
    assert_eq!(rt; link.faults(), 1);
    Ok(())
}

#[test]
fn tells_that_a_caller_is_gone(rt: HostRuntime) -> Result<(), Fail> {
    let (caller, mut link) = called(&rt)?;
    drop(caller);
    assert!(rt; matches!(next_got(&rt, &mut link), LinkGot::Closed));
    Ok(())
}

// Echoes to the next caller.
fn serve<R: Net + RandomSource + Clock + Copy + Drop + Wait>(
    rt: &R,
    alloc: Global,
    listener: &TcpListener,
) -> u32 {
    match taken(rt, alloc, listener) {
        Some(link) => echo(rt, link),
        None => 0,
    }
}

// Far more than a socket holds at once.
fn long_text(alloc: Global) -> Result<String, Fail> {
    let bytes = Vec::from_elem(alloc, b'x', 3_000_000)?;
    Ok(String::from_utf8(bytes)?)
}

#[test]
fn both_sides(rt: HostRuntime) -> Result<(), Fail> {
    let alloc = rt.alloc();
    let long = long_text(alloc)?;
    let listener = listen(&rt)?;
    let address = address_of(alloc, &listener)?;
    let server = thread::spawn(&rt, move || serve(&rt, rt.alloc(), &listener))?;
    let mut link = WsLink::connect(rt, alloc, &address).expect(&rt, "no link");
    for text in ["é😀", "", long.as_str()] {
        assert!(rt; is_echoed(&rt, &mut link, text), "{} bytes", text.len());
    }
    let ear = link.ear().expect(&rt, "no ear");
    let ringer = thread::spawn(&rt, move || ear.ring()).expect(&rt, "no thread");
    assert!(rt; ringer.join(&rt));
    let ear = link.ear().expect(&rt, "no ear");
    assert_eq!(rt; link.faults(), 0);
    drop(link);
    assert!(rt; !ear.ring());
    assert_eq!(rt; server.join(&rt), 3);
    Ok(())
}

// How many milliseconds so many receives take, to which nothing comes.
fn waits<R: Net + RandomSource + Clock + Copy + Drop + Wait>(
    rt: &R,
    link: &mut WsLink<R>,
    receives: u32,
) -> io::Result<u128> {
    let begun = Instant::now(rt)?;
    for _ in 0..receives {
        if !matches!(link.recv(rt), LinkGot::Nothing) {
            return Ok(0);
        }
    }
    Ok(begun.elapsed(rt)?.as_millis())
}

#[test]
fn whose_ear_is_taken_waits_for_a_ring(rt: HostRuntime) -> Result<(), Fail> {
    let (mut caller, mut link) = called(&rt)?;
    assert!(rt; caller.write_all(REQUEST).is_ok());
    assert!(rt; matches!(link.recv(&rt), LinkGot::Nothing));
    let _ear = link.ear();
    // The first may end at once, since there is room to write.
    assert!(rt; matches!(waits(&rt, &mut link, 3), Ok(1_900..)));
    Ok(())
}

#[test]
fn the_usual_patience(rt: HostRuntime) {
    let Patience {
        call,
        first,
        message,
        ping,
        answer,
    } = Patience::USUAL;
    assert_eq!(rt;
        [call, first, message, ping, answer],
        [10_000, 10_000, 30_000, 30_000, 60_000]
    );
}

#[test]
fn nobody_to_call(rt: HostRuntime) -> Result<(), Fail> {
    let alloc = rt.alloc();
    let left = address_of(alloc, &listen(&rt)?)?;
    for address in [left.as_str(), "nowhere"] {
        let link = WsLink::connect(rt, alloc, address);
        assert!(rt; matches!(link, Err(LinkBad::Failed)), "at {address}");
    }
    Ok(())
}

// Nobody is let go in a test's time.
const LONG: Patience = Patience {
    call: 60_000,
    first: 60_000,
    message: 60_000,
    ping: 60_000,
    answer: 60_000,
};

// The close that says 1008.
const LET_GO: &[u8] = b"\r\n\r\n\x88\x02\x03\xF0";

/// What a caller sends in one packet with its request, how it is borne with, and how that ends which it hears.
#[derive(Clone, Copy)]
struct Ending {
    frames: &'static [u8],
    // so many bytes behind them
    more: usize,
    patience: Patience,
    unfinished: u64,
    heard: &'static [u8],
}

const fn heard_for(frames: &'static [u8], patience: Patience, heard: &'static [u8]) -> Ending {
    Ending {
        frames,
        more: 0,
        patience,
        unfinished: 10_000_000,
        heard,
    }
}

// Takes what comes until the caller says "end", or is let go.
fn attend<R: Net + RandomSource + Clock + Copy + Drop + Wait>(rt: &R, mut link: WsLink<R>) {
    for _ in 0..5000u32 {
        match link.recv(rt) {
            LinkGot::Nothing => {}
            LinkGot::Message(text) => {
                if text.as_str() == "end" {
                    return;
                }
            }
            _ => return,
        }
    }
}

// All that comes to a caller.
fn all_of(alloc: Global, caller: &mut net::TcpStream) -> io::Result<Vec<u8>> {
    let mut heard = Vec::new(alloc);
    let mut room = [0; 512];
    for _ in 0..1000u32 {
        let count = caller.read(&mut room)?;
        if count == 0 {
            break;
        }
        heard.extend_from_slice(&room[..count])?;
    }
    Ok(heard)
}

// The caller sends its request and the frames in one packet, and hears what it should, and then the end.
fn hears_end(alloc: Global, mut caller: net::TcpStream, case: &Ending) -> io::Result<bool> {
    let mut sent = Vec::from_slice(alloc, REQUEST)?;
    sent.extend_from_slice(case.frames)?;
    sent.extend_from_slice(&Vec::from_elem(alloc, b'x', case.more)?)?;
    caller.write_all(&sent)?;
    Ok(all_of(alloc, &mut caller)?.ends_with(case.heard))
}

// A caller, and the link to it.
fn called_by(
    rt: &HostRuntime,
    case: &Ending,
) -> Result<(net::TcpStream, WsLink<HostRuntime>), Fail> {
    let listener = listen(rt)?;
    let caller = call(rt, &listener)?;
    let bounds = Bounds {
        connections: 1,
        unfinished: case.unfinished,
    };
    match taken_by(rt, rt.alloc(), &listener, case.patience, bounds) {
        Some(link) => Ok((caller, link)),
        None => Err(Fail::from("nobody called")),
    }
}

#[test]
fn a_caller_hears_why_it_ends(rt: HostRuntime) -> Result<(), Fail> {
    let first = Patience { first: 40, ..LONG };
    let message = Patience {
        message: 40,
        ..LONG
    };
    let answer = Patience {
        ping: 30,
        answer: 50,
        ..LONG
    };
    let cases = [
        // a text, of a link that is dropped then
        heard_for(b"\x81\x83\0\0\0\0end", LONG, b"\r\n\r\n\x88\x02\x03\xE8"),
        // a frame that a client must not send bare
        heard_for(b"\x81\0", LONG, b"\r\n\r\n\x88\x02\x03\xEA"),
        // a binary message
        heard_for(b"\x82\x81\0\0\0\0x", LONG, b"\r\n\r\n\x88\x02\x03\xEB"),
        // a text that is not UTF-8
        heard_for(b"\x81\x81\0\0\0\0\xFF", LONG, b"\r\n\r\n\x88\x02\x03\xEF"),
        // a text of nine million bytes
        heard_for(
            b"\x81\xFF\0\0\0\0\0\x89\x54\x40\0\0\0\0",
            LONG,
            b"\r\n\r\n\x88\x02\x03\xF1",
        ),
        // a close of the caller's own
        heard_for(
            b"\x88\x82\0\0\0\0\x03\xE9",
            LONG,
            b"\r\n\r\n\x88\x02\x03\xE9",
        ),
        heard_for(b"", first, LET_GO),
        // a part of a first message
        heard_for(b"\x81\x82\0\0\0\0h", first, LET_GO),
        // a text, and a byte of another
        heard_for(b"\x81\x82\0\0\0\0hi\x81", message, LET_GO),
        // a text, and the first half of another, and a ping, which is answered
        heard_for(
            b"\x81\x82\0\0\0\0hi\x01\x81\0\0\0\0h\x89\x80\0\0\0\0",
            message,
            b"\r\n\r\n\x8A\0\x88\x02\x03\xF0",
        ),
        // a text, and nothing then: a ping comes first
        heard_for(b"\x81\x82\0\0\0\0hi", answer, b"\x89\0\x88\x02\x03\xF0"),
        // a message of a million bytes, of which more come than all connections may hold
        Ending {
            more: 20_000,
            unfinished: 20_000,
            ..heard_for(
                b"\x81\xFF\0\0\0\0\0\x0F\x42\x40\0\0\0\0",
                LONG,
                b"\r\n\r\n\x88\x02\x03\xF5",
            )
        },
        // the same, where they may hold it: the rest doesn't come
        Ending {
            more: 20_000,
            unfinished: 21_000,
            ..heard_for(
                b"\x81\xFF\0\0\0\0\0\x0F\x42\x40\0\0\0\0",
                Patience { first: 300, ..LONG },
                LET_GO,
            )
        },
    ];
    for (at, case) in cases.iter().enumerate() {
        let (caller, link) = called_by(&rt, case)?;
        let attending = thread::spawn(&rt, move || attend(&rt, link)).expect(&rt, "no thread");
        let heard = hears_end(rt.alloc(), caller, case);
        assert!(rt; matches!(heard, Ok(true)), "case {at}");
        attending.join(&rt);
    }
    Ok(())
}

// Answers so many pings, and says "end".
fn answers_pings(caller: &mut net::TcpStream, pings: u32) -> io::Result<bool> {
    for _ in 0..pings {
        let mut ping = [0; 2];
        caller.read_exact(&mut ping)?;
        if ping != [0x89, 0] {
            return Ok(false);
        }
        caller.write_all(&[0x8A, 0x80, 0, 0, 0, 0])?;
    }
    caller.write_all(b"\x81\x83\0\0\0\0end")?;
    let mut close = [0; 4];
    caller.read_exact(&mut close)?;
    Ok(close == [0x88, 2, 3, 0xE8])
}

#[test]
fn who_answers_stays(rt: HostRuntime) -> Result<(), Fail> {
    let patience = Patience {
        ping: 100,
        answer: 1_500,
        ..LONG
    };
    let (mut caller, link) = called_by(&rt, &heard_for(b"", patience, b""))?;
    let attending = thread::spawn(&rt, move || attend(&rt, link)).expect(&rt, "no thread");
    assert!(rt; caller.write_all(REQUEST).is_ok());
    assert!(rt; matches!(hears_answer(&mut caller), Ok(true)));
    assert!(rt; matches!(answers_pings(&mut caller, 20), Ok(true)));
    drop(caller);
    attending.join(&rt);
    Ok(())
}

//! Callers of the API.

use ep_net::{ApiStream, Bounds, Places};
use ep_outside::{Device, Failed, Got, Sink, Source};
use std::alloc::Global;
use std::cell::Cell;
use std::io::{Read, Write};
use std::net::{TcpListener, TcpStream};
use std::test::Fail;
use std::time::{Clock, Duration};
use std::{io, thread};

/// A clock by which nearly ten seconds pass from one look to the next.
#[derive(Drop)]
struct Hasty {
    looks: Cell<u32>,
}

impl Clock for Hasty {
    fn monotonic(&self) -> io::Result<Duration> {
        let looks = self.looks.get();
        self.looks.set(looks.saturating_add(1));
        Ok(Duration::from_millis(u64::from(looks) * 9_990))
    }

    fn since_1970(&self) -> io::Result<Duration> {
        self.monotonic()
    }
}

// The next caller, over a stream by this clock.
fn taken<C: Clock + Drop>(
    rt: &HostRuntime,
    listener: &TcpListener,
    clock: C,
) -> io::Result<ApiStream<C>> {
    let (stream, _) = listener.accept()?;
    stream.set_nonblocking(true)?;
    let stream = mio::net::TcpStream::from_std(stream);
    let place = Places::new(rt.alloc(), Bounds::of_connections(1))?.take()?;
    Ok(ApiStream::taken(rt, rt.alloc(), clock, stream, place))
}

fn call(rt: &HostRuntime, listener: &TcpListener) -> io::Result<TcpStream> {
    TcpStream::connect(rt, listener.local_addr()?)
}

// A caller's bare socket, and the stream to it.
fn called(rt: &HostRuntime) -> io::Result<(TcpStream, ApiStream<Hasty>)> {
    let listener = TcpListener::bind(rt, "127.0.0.1:0")?;
    let caller = call(rt, &listener)?;
    let clock = Hasty {
        looks: Cell::new(0),
    };
    let stream = taken(rt, &listener, clock)?;
    Ok((caller, stream))
}

#[test]
fn a_silent_caller_is_given_up(rt: HostRuntime) -> Result<(), Fail> {
    let (mut caller, mut stream) = called(&rt)?;
    assert!(rt; caller.write_all(b"GET").is_ok());
    assert_eq!(rt; stream.read(&mut [0; 8]), Got::Bytes(3));
    assert_eq!(rt; stream.read(&mut [0; 8]), Got::Failed);
    assert_eq!(rt; stream.write(b"x"), Err(Failed));
    assert_eq!(rt; stream.faults(), 2);
    assert!(rt; matches!(caller.read(&mut [0; 8]), Ok(0)));
    Ok(())
}

#[test]
fn a_caller_that_takes_nothing_is_given_up(rt: HostRuntime) -> Result<(), Fail> {
    // Far more than sockets hold.
    let long = Vec::from_elem(rt.alloc(), b'x', 32_000_000)?;
    let (_caller, mut stream) = called(&rt)?;
    assert_eq!(rt; stream.write(&long), Err(Failed));
    assert_eq!(rt; stream.faults(), 1);
    Ok(())
}

#[test]
fn a_caller_that_is_gone_has_sent_all(rt: HostRuntime) -> Result<(), Fail> {
    let (caller, mut stream) = called(&rt)?;
    drop(caller);
    assert_eq!(rt; stream.read(&mut [0; 8]), Got::End);
    Ok(())
}

#[test]
fn a_caller_that_left_by_a_reset_has_sent_all(rt: HostRuntime) -> Result<(), Fail> {
    let (caller, mut stream) = called(&rt)?;
    assert!(rt; stream.write(b"x").is_ok());
    // It leaves by a reset, since it has seen a byte and not read it.
    assert!(rt; matches!(caller.peek(&mut [0]), Ok(1)));
    drop(caller);
    assert_eq!(rt; stream.read(&mut [0; 8]), Got::End);
    assert_eq!(rt; stream.read(&mut [0; 8]), Got::End);
    assert_eq!(rt; stream.faults(), 0);
    assert_eq!(rt; stream.write(b"y"), Err(Failed));
    assert_eq!(rt; stream.faults(), 1);
    Ok(())
}

// Eight bytes are read, and the reply goes out.
fn replies<C: Clock + Drop>(mut stream: ApiStream<C>) -> bool {
    stream.read(&mut [0; 8]) == Got::Bytes(8) && stream.write(b"no").is_ok()
}

// Sends so many bytes, and hears the reply and the end.
fn hears_reply(alloc: Global, mut caller: TcpStream, bytes: usize) -> io::Result<bool> {
    let body = Vec::from_elem(alloc, b'x', bytes)?;
    caller.write_all(&body)?;
    let mut reply = [0; 2];
    caller.read_exact(&mut reply)?;
    Ok(&reply == b"no" && caller.read(&mut reply)? == 0)
}

#[test]
fn who_sends_more_than_is_read_hears_the_reply(rt: HostRuntime) -> Result<(), Fail> {
    // Of what comes behind the eight bytes a mebibyte is read away.
    for bytes in [8, 9, 30_000, 1_048_584] {
        let listener = TcpListener::bind(&rt, "127.0.0.1:0")?;
        let caller = call(&rt, &listener)?;
        let stream = taken(&rt, &listener, rt)?;
        let replying = thread::spawn(&rt, move || replies(stream)).expect(&rt, "no thread");
        let heard = hears_reply(rt.alloc(), caller, bytes);
        assert!(rt; matches!(heard, Ok(true)), "of {bytes}");
        assert!(rt; replying.join(&rt));
    }
    Ok(())
}

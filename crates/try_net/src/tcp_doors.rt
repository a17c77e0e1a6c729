//! Both doors.

use crate::ws_link::{echo, is_echoed, text_of};
use ep_doors::{Came, Doors};
use ep_net::{ApiStream, Bounds, TcpDoors, WsLink, connections_under};
use ep_outside::{Device, Got, Sink, Source};
use std::alloc::{AllocError, Global};
use std::io::{Read, Write};
use std::net::{Net, SocketAddr, TcpListener, TcpStream};
use std::random::RandomSource;
use std::sync::Wait;
use std::test::Fail;
use std::time::{Clock, Duration};
use std::{fs, io, thread};

const REQUEST: &[u8] = b"GET / HTTP/1.1\r\n\r\n";

const REPLY: &[u8] = b"HTTP/1.1 200 OK\r\n\r\n";

// The system chooses the port.
const ANY: &str = "127.0.0.1:0";

const FEW: Bounds = Bounds {
    connections: 3,
    unfinished: 1_000,
};

fn open(rt: &HostRuntime) -> Result<TcpDoors<HostRuntime>, Fail> {
    Ok(TcpDoors::open(*rt, rt.alloc(), ANY, ANY, FEW)?)
}

#[derive(Clone, Copy, Debug, PartialEq, Eq)]
enum Who {
    Pad,
    Api,
    Nobody,
    Failed,
}

// Who comes in one turn, and is let go.
fn turn<R: Net + RandomSource + Clock + Copy + Drop + Wait>(
    rt: &R,
    doors: &mut TcpDoors<R>,
) -> Who {
    match doors.accept(rt) {
        Came::Pad(_) => Who::Pad,
        Came::Api(_) => Who::Api,
        Came::Nothing => Who::Nobody,
        Came::End | Came::Failed | Came::NoMemory => Who::Failed,
    }
}

// Who comes in 20 seconds.
fn next_came<R: Net + RandomSource + Clock + Copy + Drop + Wait>(
    rt: &R,
    doors: &mut TcpDoors<R>,
) -> Came<WsLink<R>, ApiStream<R>> {
    for _ in 0..1000u32 {
        match doors.accept(rt) {
            Came::Nothing => {}
            came => return came,
        }
    }
    Came::Nothing
}

// A message that a caller of pads sends, and gets back.
fn says<R: Net + RandomSource + Clock + Copy + Drop + Wait>(
    rt: &R,
    alloc: Global,
    address: &str,
) -> bool {
    match WsLink::connect(*rt, alloc, address) {
        Ok(mut link) => is_echoed(rt, &mut link, "hi"),
        Err(_) => false,
    }
}

// Echoes to the next caller of pads.
fn echoes<R: Net + RandomSource + Clock + Copy + Drop + Wait>(
    rt: &R,
    doors: &mut TcpDoors<R>,
) -> u32 {
    match next_came(rt, doors) {
        Came::Pad(link) => echo(rt, link),
        _ => 0,
    }
}

#[test]
fn greets_a_caller_of_pads(rt: HostRuntime) -> Result<(), Fail> {
    let mut doors = open(&rt)?;
    assert_eq!(rt; turn(&rt, &mut doors), Who::Nobody);
    let address = doors.pads_address().expect(&rt, "no address");
    let address = text_of(rt.alloc(), address).expect(&rt, "no memory");
    let caller = thread::spawn(&rt, move || says(&rt, rt.alloc(), &address));
    let caller = caller.expect(&rt, "no thread");
    assert_eq!(rt; echoes(&rt, &mut doors), 1);
    assert!(rt; caller.join(&rt));
    assert_eq!(rt; doors.given(), 1);
    Ok(())
}

// What comes until there are so many bytes, or the end, or a fault.
fn heard<C: Clock + Drop>(
    alloc: Global,
    stream: &mut ApiStream<C>,
    most: usize,
) -> Result<Vec<u8>, AllocError> {
    let mut heard = Vec::new(alloc);
    let mut room = [0; 16];
    for _ in 0..1000u32 {
        if heard.len() >= most {
            break;
        }
        match stream.read(&mut room) {
            Got::Bytes(n) => heard.extend_from_slice(&room[..n])?,
            Got::End | Got::Failed => break,
        }
    }
    Ok(heard)
}

fn hears<C: Clock + Drop>(alloc: Global, stream: &mut ApiStream<C>, bytes: &[u8]) -> bool {
    match heard(alloc, stream, bytes.len()) {
        Ok(heard) => heard.as_slice() == bytes,
        Err(_) => false,
    }
}

// The request of the next caller of the API comes, and the reply goes out.
fn answers<R: Net + RandomSource + Clock + Copy + Drop + Wait>(
    rt: &R,
    alloc: Global,
    doors: &mut TcpDoors<R>,
) -> bool {
    match next_came(rt, doors) {
        Came::Api(mut stream) => {
            hears(alloc, &mut stream, REQUEST) && stream.write(REPLY).is_ok()
        }
        _ => false,
    }
}

// The request goes out in two pieces, and the reply comes, and then the end.
fn asks<R: Net<Stream = TcpStream> + Clock>(rt: &R, address: SocketAddr) -> io::Result<bool> {
    let mut caller = TcpStream::connect(rt, address)?;
    let (front, back) = REQUEST.split_at(9);
    caller.write_all(front)?;
    thread::sleep(rt, Duration::from_millis(30));
    caller.write_all(back)?;
    let mut reply = [0; REPLY.len()];
    caller.read_exact(&mut reply)?;
    Ok(reply.as_slice() == REPLY && caller.read(&mut [0])? == 0)
}

#[test]
fn answers_a_caller_of_the_api(rt: HostRuntime) -> Result<(), Fail> {
    let mut doors = open(&rt)?;
    let address = doors.api_address().expect(&rt, "no address");
    let caller = thread::spawn(&rt, move || asks(&rt, address)).expect(&rt, "no thread");
    assert!(rt; answers(&rt, rt.alloc(), &mut doors));
    assert!(rt; matches!(caller.join(&rt), Ok(true)));
    assert_eq!(rt; doors.given(), 1);
    Ok(())
}

#[test]
fn doors_take_turns(rt: HostRuntime) -> Result<(), Fail> {
    let mut doors = open(&rt)?;
    let pads = doors.pads_address().expect(&rt, "no address");
    let api = doors.api_address().expect(&rt, "no address");
    let _first = TcpStream::connect(&rt, pads).expect(&rt, "no caller");
    let _second = TcpStream::connect(&rt, pads).expect(&rt, "no caller");
    let _third = TcpStream::connect(&rt, api).expect(&rt, "no caller");
    // Until the system has all three at the doors.
    thread::sleep(&rt, Duration::from_millis(50));
    for who in [Who::Pad, Who::Api, Who::Pad, Who::Nobody] {
        assert_eq!(rt; turn(&rt, &mut doors), who);
    }
    assert_eq!(rt; doors.given(), 3);
    Ok(())
}

#[test]
fn at_the_bound_who_comes_waits(rt: HostRuntime) -> Result<(), Fail> {
    let mut doors = open(&rt)?;
    let pads = doors.pads_address().expect(&rt, "no address");
    let api = doors.api_address().expect(&rt, "no address");
    let mut callers = Vec::new(rt.alloc());
    for address in [pads, api, pads, api] {
        callers.push(TcpStream::connect(&rt, address)?)?;
    }
    let first = next_came(&rt, &mut doors);
    let second = next_came(&rt, &mut doors);
    let third = next_came(&rt, &mut doors);
    assert!(rt; matches!(first, Came::Pad(_)) && matches!(third, Came::Pad(_)));
    for _ in 0..3u32 {
        assert_eq!(rt; turn(&rt, &mut doors), Who::Nobody);
    }
    drop(second);
    assert_eq!(rt; turn(&rt, &mut doors), Who::Api);
    assert_eq!(rt; doors.given(), 4);
    assert_eq!(rt; doors.faults(), 0);
    Ok(())
}

#[test]
fn connections_are_as_many_as_there_is_room_for(rt: HostRuntime) -> Result<(), Fail> {
    for (processes, files, connections) in [
        ("unlimited", "unlimited", 4096),
        ("95231", "1048576", 4096),
        ("95231", "1024", 256),
        ("30", "1024", 11),
        ("7", "1024", 1),
        ("30", "0", 1),
    ] {
        let limits = format!(in rt.alloc();
            "Limit Soft Hard Units\nMax processes   {processes}   99999   processes\nMax open files   {files}   99999   files\n"
        )?;
        assert_eq!(rt; connections_under(&limits), connections);
    }
    assert_eq!(rt; connections_under(""), 4096);
    Ok(())
}

#[test]
fn the_systems_own_limits_are_read(rt: HostRuntime) -> Result<(), Fail> {
    let limits = fs::read_to_string(&rt, "/proc/self/limits")?;
    for name in ["Max processes ", "Max open files "] {
        let is_there = limits.lines().any(|line| line.starts_with(name));
        assert!(rt; is_there, "no {name}");
    }
    let files = limits.replace(rt.alloc(), "Max open files  ", "Max open files 40 ")?;
    assert!(rt; connections_under(&files) <= 10);
    Ok(())
}

#[test]
fn doors_that_are_not_to_be_had(rt: HostRuntime) -> Result<(), Fail> {
    let taken = TcpListener::bind(&rt, ANY)?;
    let address = text_of(rt.alloc(), taken.local_addr()?)?;
    for api in [address.as_str(), "nowhere"] {
        let mut doors = TcpDoors::open(rt, rt.alloc(), ANY, api, FEW)?;
        assert!(rt; doors.pads_address().is_none());
        assert_eq!(rt; turn(&rt, &mut doors), Who::Failed);
        assert_eq!(rt; doors.faults(), 1);
    }
    Ok(())
}

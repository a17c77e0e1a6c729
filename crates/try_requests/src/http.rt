//! Worked requests and replies of HTTP.

use ep_http::{HttpBad, Method, Request, read_request, refusal, write_reply};
use ep_outside::{Device, Failed, Got, Pair, Sink, Source};
use std::alloc::{AllocError, Global};
use std::test::Fail;

const LIMIT: u64 = 4_194_304;

/// A connection that gives so many bytes a read, at least one, and then ends or fails.
#[derive(Drop)]
struct Caller<'a> {
    left: &'a [u8],
    piece: usize,
    is_broken: bool,
    faults: u64,
}

impl<'a> Device for Caller<'a> {
    ghost use Rattle.std.specs.Prelude.{false};
    ghost use Rattle.std.proofs.Common.{true≢false, sym};

    ghost failures = { λ c. c.faults };

    ghost is_steady = { λ c. false };

    ghost never_fails = { λ c steady. absurd (true≢false (sym steady)) };

    fn faults(&self) -> u64 {
        self.faults
    }
}

impl<'a> Source for Caller<'a> {
    ghost use Rattle.std.specs.Prelude.{Some};

    ghost left = { λ c. Some c.left.now };

    fn read(&mut self, room: &mut [u8]) -> Got {
        let n = self.left.len().min(room.len()).min(self.piece.max(1));
        if n > 0 {
            room[..n].copy_from_slice(&self.left[..n]);
            self.left = &self.left[n..];
            return Got::Bytes(n);
        }
        if self.is_broken {
            self.faults = self.faults.saturating_add(1);
            return Got::Failed;
        }
        Got::End
    }
}

/// What is read of the bytes, where so many come at once.
fn read(
    alloc: Global,
    left: &[u8],
    piece: usize,
    is_broken: bool,
    limit: u64,
) -> Result<Request, HttpBad> {
    let mut caller = Caller {
        left,
        piece,
        is_broken,
        faults: 0,
    };
    read_request(alloc, &mut caller, limit)
}

/// Why it is not read; none where it is.
fn unread(alloc: Global, left: &[u8], is_broken: bool) -> Option<HttpBad> {
    read(alloc, left, 4_096, is_broken, LIMIT).err()
}

/// A request as it has to be read.
#[derive(Clone, Copy)]
struct Wanted<'a> {
    method: Method,
    path: &'a str,
    pairs: &'a [(&'a str, &'a str)],
}

impl<'a> Wanted<'a> {
    fn is(&self, request: &Request) -> bool {
        request.method == self.method
            && request.path.as_str() == self.path
            && are_pairs(request.pairs.as_slice(), self.pairs)
    }
}

fn are_pairs(found: &[Pair], wanted: &[(&str, &str)]) -> bool {
    if found.len() != wanted.len() {
        return false;
    }
    for (pair, (key, value)) in found.iter().zip(wanted) {
        if pair.key.as_str() != *key || pair.value.as_str() != *value {
            return false;
        }
    }
    true
}

/// Whether that is read, where so many bytes come at once and a body may have so many.
fn is_read(
    alloc: Global,
    text: &[u8],
    piece: usize,
    limit: u64,
    wanted: &Wanted<'_>,
) -> Result<bool, HttpBad> {
    let request = read(alloc, text, piece, false, limit)?;
    Ok(wanted.is(&request))
}

#[test]
fn reads_a_query(rt: HostRuntime) -> Result<(), Fail> {
    let text =
        b"\r\nGET /api/1.2/getText?padID=g.x%24n&text=a+b%0A&padID=z&&k HTTP/1.1\r\nHost: h\r\n\r\n";
    let wanted = Wanted {
        method: Method::Get,
        path: "/api/1.2/getText",
        pairs: &[
            ("padID", "g.x$n"),
            ("text", "a b\n"),
            ("padID", "z"),
            ("k", ""),
        ],
    };
    for piece in [1, 7, 4_096] {
        assert!(rt;
            is_read(rt.alloc(), text, piece, LIMIT, &wanted)?,
            "by {piece}"
        );
    }
    Ok(())
}

#[test]
fn reads_a_body(rt: HostRuntime) -> Result<(), Fail> {
    let text = b"POST /p?a=1 HTTP/1.0\ncontent-LENGTH: 0007\n\nb=2&c=%and more";
    let wanted = Wanted {
        method: Method::Post,
        path: "/p",
        pairs: &[("a", "1"), ("b", "2"), ("c", "%")],
    };
    for piece in [1, 44, 4_096] {
        assert!(rt; is_read(rt.alloc(), text, piece, 7, &wanted)?, "by {piece}");
    }
    Ok(())
}

#[test]
fn meets_faults(rt: HostRuntime) {
    let text = b"POST /x HTTP/1.1\r\nContent-Length: 5\r\n\r\nabc";
    for length in [0, 10, 41] {
        for (is_broken, why) in [(true, HttpBad::Read(1)), (false, HttpBad::Short)] {
            let found = unread(rt.alloc(), &text[..length], is_broken);
            assert!(rt; found == Some(why), "{why:?} after {length} bytes");
        }
    }
}

/// Why a head of so many fields is not read.
fn unread_fields(alloc: Global, fields: usize, ends: bool) -> Result<Option<HttpBad>, AllocError> {
    let mut text = Vec::new(alloc);
    text.extend_from_slice(b"GET / HTTP/1.1\n")?;
    for _ in 0..fields {
        text.extend_from_slice(b"a:\n")?;
    }
    if ends {
        text.push(b'\n')?;
    }
    Ok(unread(alloc, &text, false))
}

#[test]
fn counts_fields(rt: HostRuntime) -> Result<(), Fail> {
    for (fields, ends, why) in [
        (64, true, None),
        (64, false, Some(HttpBad::Short)),
        (65, true, Some(HttpBad::Head)),
        (65, false, Some(HttpBad::Head)),
    ] {
        let found = unread_fields(rt.alloc(), fields, ends)?;
        assert!(rt; found == why, "{why:?} at {fields} fields, {ends}");
    }
    Ok(())
}

/// Why a head is not read whose only field has so many bytes more.
fn unread_bytes(alloc: Global, more: u16) -> Result<Option<HttpBad>, AllocError> {
    let mut text = Vec::new(alloc);
    text.extend_from_slice(b"GET / HTTP/1.1\na:")?;
    text.resize(17 + usize::from(more), b'b')?;
    text.extend_from_slice(b"\n\n")?;
    Ok(unread(alloc, &text, false))
}

#[test]
fn counts_bytes(rt: HostRuntime) -> Result<(), Fail> {
    for (more, why) in [(16_365, None), (16_366, Some(HttpBad::Head))] {
        let found = unread_bytes(rt.alloc(), more)?;
        assert!(rt; found == why, "{why:?} at {more} bytes");
    }
    Ok(())
}

/// A connection that takes all, or fails.
#[derive(Drop)]
struct Answered {
    bytes: Vec<u8>,
    is_broken: bool,
    faults: u64,
}

impl Device for Answered {
    ghost use Rattle.std.specs.Prelude.{false};
    ghost use Rattle.std.proofs.Common.{true≢false, sym};

    ghost failures = { λ a. a.faults };

    ghost is_steady = { λ a. false };

    ghost never_fails = { λ a steady. absurd (true≢false (sym steady)) };

    fn faults(&self) -> u64 {
        self.faults
    }
}

impl Sink for Answered {
    ghost use Rattle.std.specs.Prelude.{None};

    ghost held = { λ a. None };

    fn write(&mut self, bytes: &[u8]) -> Result<(), Failed> {
        if self.is_broken || self.bytes.extend_from_slice(bytes).is_err() {
            self.faults = self.faults.saturating_add(1);
            return Err(Failed);
        }
        Ok(())
    }
}

fn connection(alloc: Global, is_broken: bool) -> Answered {
    Answered {
        bytes: Vec::new(alloc),
        is_broken,
        faults: 0,
    }
}

const NOT_FOUND: &str = "{\"code\":1,\"data\":null,\"message\":\"Not Found\"}";

fn refuses_in(alloc: Global, body: &str) -> Result<bool, Fail> {
    Ok(refusal(alloc, 404)?.as_str() == body)
}

fn writes(alloc: Global, body: &str, text: &[u8]) -> Result<bool, Fail> {
    let mut answered = connection(alloc, false);
    write_reply(alloc, &mut answered, 404, body)?;
    Ok(answered.bytes.as_slice() == text)
}

#[test]
fn replies(rt: HostRuntime) -> Result<(), Fail> {
    let text =
        b"HTTP/1.1 404 Not Found\r\nContent-Type: application/json; charset=utf-8\r\nContent-Length: 44\r\nConnection: close\r\n\r\n{\"code\":1,\"data\":null,\"message\":\"Not Found\"}";
    assert!(rt; refuses_in(rt.alloc(), NOT_FOUND)?);
    assert!(rt; writes(rt.alloc(), NOT_FOUND, text.as_slice())?);
    let mut broken = connection(rt.alloc(), true);
    assert!(rt; write_reply(rt.alloc(), &mut broken, 200, "{}").is_err());
    assert_eq!(rt; HttpBad::TooBig(5).status(), Some(413));
    Ok(())
}

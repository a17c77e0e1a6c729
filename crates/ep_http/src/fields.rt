//! What a head asks for.

ghost use Rattle.std.specs.Prelude.{◌≡◌, ◌≤◌, ℕ, length, map, take, drop, codes, All, Some, None, option_map, MatchOption};
ghost use Rattle.std.specs.Char.{to_ascii_lowercase};
ghost use Rattle.std.specs.List.{list_any};
ghost use Rattle.httparse.specs.Grammar.{RequestHead};
ghost use Rattle.httparse.specs.Spans.{IsHeaderWithin, header_bytes};
ghost use Rattle.ep_http.specs.Looking.{IsHeadAt};
ghost use Rattle.ep_http.specs.Fields.{asked_by, body_length, is_named, number_in, only_number, values_of};

use crate::bad::HttpBad;
use crate::request::Method;
use httparse::spans::{HeaderSpan, RequestSpans};
use std::str;

/// The method, and how many bytes of a body follow.
#[derive(Clone, Copy, Debug)]
pub struct Asked {
    pub method: Method,
    pub length: u64,
}

/// The number that decimal digits say, where it is below 2^64.
fn number_in(text: &[u8]) -> Option<u64>
    ensures { result ≡ number_in text.now }
{
    let Ok(text) = str::from_utf8(text) else {
        return None;
    };
    if text.starts_with('+') {
        return None;
    }
    text.parse().ok()
}

fn is_named(bytes: &[u8], field: &HeaderSpan, name: &[u8]) -> bool
    requires { IsHeaderWithin (length bytes.now) field.now }
    ensures { result ≡ is_named (map to_ascii_lowercase name.now) (header_bytes bytes.now field.now) }
{
    field.name.of(bytes).eq_ignore_ascii_case(name)
}

/// The length that the fields give.
fn body_length(bytes: &[u8], fields: &[HeaderSpan]) -> Option<u64>
    requires { All (IsHeaderWithin (length bytes.now)) fields.now }
    ensures { result ≡ body_length (map (header_bytes bytes.now) fields.now) }
{
    for field in fields {
        if is_named(bytes, field, b"transfer-encoding") {
            return None;
        }
    }
    let mut found: Option<&[u8]> = None;
    for field in fields {
        if is_named(bytes, field, b"content-length") {
            if found.is_some() {
                return None;
            }
            found = Some(field.value.of(bytes));
        }
    }
    number_in(found?)
}

/// What a head asks for.
pub fn ask(
    bytes: &[u8],
    head: &RequestSpans,
    fields: &[HeaderSpan],
    limit: u64,
) -> Result<Asked, HttpBad>
    requires { (h : RequestHead) × IsHeadAt bytes.now fields.now head.now h }
    ensures { (h : RequestHead) → IsHeadAt bytes.now fields.now head.now h → result ≡ asked_by limit h }
{
    let method = head.method.of(bytes);
    if method == b"GET".as_slice() {
        return Ok(Asked {
            method: Method::Get,
            length: 0,
        });
    }
    if method != b"POST".as_slice() {
        return Err(HttpBad::Method);
    }
    match body_length(bytes, &fields[..head.headers]) {
        Some(n) if n <= limit => Ok(Asked {
            method: Method::Post,
            length: n,
        }),
        Some(n) => Err(HttpBad::TooBig(n)),
        None => Err(HttpBad::Body),
    }
}

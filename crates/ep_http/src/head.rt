//! Heads of requests.

ghost use Rattle.std.specs.Prelude.{◌≡◌, ◌≤◌, ◌+◌, nat_le, [], length};
ghost use Rattle.ep_http.specs.Heads.{behind_newlines, lines_in, most_fields};
ghost use Rattle.ep_http.specs.Looking.{Judges, ReadsHead};

use crate::bad::HttpBad;
use crate::piece::take_piece;
use crate::target::ends_in_target;
use ep_outside::Source;
use httparse::spans::{HeaderSpan, RequestSpans, parse_request};
use httparse::{Error, Status};

/// The most bytes of a head.
pub const MOST_BYTES: usize = 16_384;

/// The most fields of a head.
pub const MOST_FIELDS: usize = 64;

/// What the bytes read so far are.
#[derive(Drop)]
pub enum Seen {
    Whole(RequestSpans),
    Refused,
    Unfinished,
}

/// The line feeds behind the empty lines in front.
fn lines_in(bytes: &[u8]) -> usize
    ensures { result ≡ lines_in bytes.now }
{
    let mut at = 0;
    while at < bytes.len() && (bytes[at] == b'\r' || bytes[at] == b'\n') {
        at += 1;
    }
    bytes[at..].iter().filter(|b| **b == b'\n').count()
}

/// Whether a line more has ended than a head within the limit on fields has before its empty line.
fn has_many_lines(bytes: &[u8]) -> bool
    ensures { result ≡ nat_le (most_fields + 2) (lines_in bytes.now) }
{
    lines_in(bytes) >= MOST_FIELDS + 2
}

/// What the bytes read so far are, by the grammar and the limit on fields.
fn look(bytes: &[u8], fields: &mut [HeaderSpan]) -> Seen
    requires { length fields.old ≡ MOST_FIELDS }
    ensures { Judges bytes.now fields.new result }
{
    match parse_request(bytes, fields) {
        Ok(Status::Complete(head)) => Seen::Whole(head),
        Ok(Status::Partial) => {
            if has_many_lines(bytes) {
                Seen::Refused
            } else {
                Seen::Unfinished
            }
        }
        Err(error) => match error {
            Error::TooManyHeaders => Seen::Refused,
            _ => {
                if ends_in_target(bytes) && !has_many_lines(bytes) {
                    Seen::Unfinished
                } else {
                    Seen::Refused
                }
            }
        },
    }
}

/// Reads until a head is whole.
pub fn read_head<S: Source>(
    source: &mut S,
    bytes: &mut Vec<u8>,
    fields: &mut [HeaderSpan],
) -> Result<RequestSpans, HttpBad>
    requires empty { bytes.old.items ≡ [] }
    requires room { length fields.old ≡ MOST_FIELDS }
    ensures reads { ReadsHead (S.left source.old) (S.left source.new) (S.failures source.old) (S.failures source.new) bytes.new.items fields.new result }
    ensures later { S.failures source.old ≤ S.failures source.new }
    ensures steady { S.is_steady source.new ≡ S.is_steady source.old }
{
    'bytes: loop {
        match look(bytes, fields) {
            Seen::Whole(head) => return Ok(head),
            Seen::Refused => return Err(HttpBad::Head),
            Seen::Unfinished => {}
        }
        if bytes.len() == MOST_BYTES {
            return Err(HttpBad::Head);
        }
        if !take_piece(source, bytes, MOST_BYTES - bytes.len())? {
            return Err(HttpBad::Short);
        }
    }
}

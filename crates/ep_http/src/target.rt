//! Bytes that end inside a request's target.

ghost use Rattle.std.specs.Prelude.{◌≡◌, ◌≤◌, ◌↔◌, IsTrue, MatchOption, length};
ghost use Rattle.std.specs.List.{list_all, prefix_len};
ghost use Rattle.httparse.specs.Grammar.{EndsInTarget, is_token_byte, is_uri_byte};
ghost use Rattle.ep_http.specs.Target.{HasNoLineEnd, IsBehindEmptyLines, IsBehindLineEnd, IsInTarget};

use httparse::{is_method_token, is_uri_token};

/// The bytes behind the line end in front, if one is there.
fn behind_line_end(bytes: &[u8]) -> Option<&[u8]>
    ensures { MatchOption result (HasNoLineEnd bytes.now) (λ rest. IsBehindLineEnd bytes.now rest.now) }
{
    match bytes.strip_prefix(b"\n") {
        Some(rest) => Some(rest),
        None => bytes.strip_prefix(b"\r\n"),
    }
}

/// The bytes behind the empty lines in front.
fn behind_empty_lines(bytes: &[u8]) -> &[u8]
    ensures { IsBehindEmptyLines bytes.now result.now }
{
    let mut line = bytes;
    'lines: loop {
        match behind_line_end(line) {
            Some(rest) => line = rest,
            None => return line,
        }
    }
}

/// How many bytes in front may be a method's.
fn method_len(line: &[u8]) -> usize
    ensures len { result ≡ prefix_len is_token_byte line.now }
    ensures within { result ≤ length line.now }
{
    line.iter().take_while(|b| is_method_token(**b)).count()
}

fn are_target_bytes(bytes: &[u8]) -> bool
    ensures { result ≡ list_all is_uri_byte bytes.now }
{
    bytes.iter().all(|b| is_uri_token(*b))
}

fn is_in_target(line: &[u8]) -> bool
    ensures { IsTrue result ↔ IsInTarget line.now }
{
    let method = method_len(line);
    if method == 0 {
        return false;
    }
    match line[method..].strip_prefix(b" ") {
        Some(target) => are_target_bytes(target),
        None => false,
    }
}

/// Whether the bytes end inside a request's target.
pub fn ends_in_target(bytes: &[u8]) -> bool
    ensures { IsTrue result ↔ EndsInTarget bytes.now }
{
    is_in_target(behind_empty_lines(bytes))
}

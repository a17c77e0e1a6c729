//! Requests.

ghost use Rattle.std.specs.Prelude.{◌≡◌, ◌≤◌, IfOk, IfErr};
ghost use Rattle.ep_http.specs.Requests.{Makes, Refuses};

use crate::bad::HttpBad;
use crate::fields::ask;
use crate::head::{MOST_FIELDS, read_head};
use crate::parameters::{begun, push_parameters};
use crate::piece::read_body;
use ep_outside::{Pairs, Source, Text};
use httparse::spans::EMPTY_HEADER_SPAN;
use std::alloc::Global;

/// The methods that are read, in capital letters as HTTP writes them.
#[derive(Clone, Copy, Debug, PartialEq, Eq)]
pub enum Method {
    Get,
    Post,
}

/// A request.
#[derive(Drop)]
pub struct Request {
    pub method: Method,
    /// The target up to its first `?`, as it was sent.
    pub path: Text,
    /// The parameters of the query, then those of the body, decoded.
    pub pairs: Pairs,
}

/// Reads one request, whose body may have so many bytes.
///
/// Until the head is whole it takes at most 16,384 bytes, and then no more than the body still lacks. After an
/// `Err` what was taken is gone: nothing more can be read of that request.
pub fn read_request<S: Source>(
    alloc: Global,
    source: &mut S,
    limit: u64,
) -> Result<Request, HttpBad>
    ensures ok { IfOk result (λ request. Makes (S.left source.old) (S.left source.new) limit request) }
    ensures refused { IfErr result (λ why. Refuses (S.left source.old) (S.left source.new) (S.failures source.old) (S.failures source.new) limit why) }
    ensures later { S.failures source.old ≤ S.failures source.new }
    ensures steady { S.is_steady source.new ≡ S.is_steady source.old }
{
    let mut bytes = Vec::new(alloc);
    let mut fields = [EMPTY_HEADER_SPAN; MOST_FIELDS];
    let head = read_head(source, &mut bytes, &mut fields)?;
    let asked = match ask(&bytes, &head, &fields, limit) {
        Ok(asked) => asked,
        Err(why) => return Err(why),
    };
    let mut request = begun(alloc, head.path.of(&bytes), asked.method)?;
    if let Err(why) = read_body(source, &mut bytes, head.len, asked.length) {
        return Err(why);
    }
    let body = &bytes[head.len..head.len + asked.length as usize];
    push_parameters(alloc, &mut request.pairs, body)?;
    Ok(request)
}

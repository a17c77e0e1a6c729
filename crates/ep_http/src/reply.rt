//! Replies.

ghost use Rattle.std.specs.Prelude.{◌≡◌, IsTrue, IfOk, OnOk, IsErrOf};
ghost use Rattle.std.specs.String.{string_bytes};
ghost use Rattle.ep_outside.specs.Outside.{HasCause, Takes, TakesPart};
ghost use Rattle.ep_http.specs.Replies.{is_refusal, is_status, reason, refusal, reply, status_line};

use ep_outside::Sink;
use ep_units::NoMemory;
use std::alloc::{AllocError, Global};
use thiserror::Error;

/// Why a reply was not written whole.
#[derive(Clone, Copy, Debug, Error, PartialEq, Eq)]
pub enum SinkBad {
    #[error("the sink failed")]
    Failed,
    #[error("out of memory")]
    NoMemory,
}

fn reason(status: u16) -> &'static str
    requires { IsTrue (is_status status) }
    ensures { result.now ≡ reason status }
{
    match status {
        200 => "OK",
        400 => "Bad Request",
        404 => "Not Found",
        405 => "Method Not Allowed",
        _ => "Content Too Large",
    }
}

fn status_line(alloc: Global, status: u16) -> Result<String, AllocError>
    requires { IsTrue (is_status status) }
    ensures { IfOk result (λ text. string_bytes text ≡ status_line status) }
{
    let reason = reason(status);
    format!(in alloc; "HTTP/1.1 {status} {reason}\r\n")
}

fn reply(alloc: Global, status: u16, body: &str) -> Result<String, AllocError>
    requires { IsTrue (is_status status) }
    ensures { IfOk result (λ text. string_bytes text ≡ reply status body.now) }
{
    let line = status_line(alloc, status)?;
    let long = body.len();
    format!(in alloc;
        "{line}Content-Type: application/json; charset=utf-8\r\nContent-Length: {long}\r\nConnection: close\r\n\r\n{body}"
    )
}

/// The body of a reply that refuses a request: JSON with the status's reason phrase.
pub fn refusal(alloc: Global, status: u16) -> Result<String, NoMemory>
    requires { IsTrue (is_refusal status) }
    ensures { IfOk result (λ text. string_bytes text ≡ refusal status) }
{
    let reason = reason(status);
    Ok(format!(in alloc; "{{\"code\":1,\"data\":null,\"message\":\"{reason}\"}}")?)
}

/// Writes a reply with a JSON body. After `Failed` a beginning of it went out, for want of memory nothing.
pub fn write_reply<K: Sink>(
    alloc: Global,
    sink: &mut K,
    status: u16,
    body: &str,
) -> Result<(), SinkBad>
    requires { IsTrue (is_status status) }
    ensures ok { OnOk result (Takes (K.held sink.old) (K.held sink.new) (reply status body.now)) }
    ensures part { result ≡ Err SinkBad.Failed → TakesPart (K.held sink.old) (K.held sink.new) (reply status body.now) }
    ensures unwritten { result ≡ Err SinkBad.NoMemory → sink.new ≡ sink.old }
    ensures cause { HasCause (K.failures sink.old) (K.failures sink.new) (K.is_steady sink.old) (K.is_steady sink.new) (IsErrOf result SinkBad.Failed) }
{
    let Ok(text) = reply(alloc, status, body) else {
        return Err(SinkBad::NoMemory);
    };
    match sink.write(text.as_str().as_bytes()) {
        Ok(()) => Ok(()),
        Err(_) => Err(SinkBad::Failed),
    }
}

//! Sessions and lists of session ids, as texts.

ghost use Rattle.std.specs.Prelude.{◌≡◌, IfOk, string_bytes};
ghost use Rattle.std.specs.List.{slice_split};
ghost use Rattle.serde_json.specs.View.{view};
ghost use Rattle.ep_wire_words.specs.Answer.{Gives};
ghost use Rattle.ep_units.specs.Utf8.{units_of};
ghost use Rattle.ep_wire_words.specs.Members.{needed};
ghost use Rattle.ep_wire_words.specs.Client.{sessions_in};
ghost use Rattle.ep_wire_words.specs.Sent.{AreIds, IsSession};
ghost use Rattle.ep_wire_words.specs.Sessions.{ids_in, is_comma, number_in, session, session_in, session_text};

use crate::bad::WireBad;
use crate::listed::Listed;
use crate::member::Member;
use crate::members::units_from;
use ep_units::{NoMemory, Session, Units};
use itoa::Buffer;
use serde_json::Value;
use std::alloc::Global;
use std::mem;

/// The pieces between commas.
fn pieces(alloc: Global, text: &[u16]) -> Result<Listed<Units>, NoMemory>
    ensures { IfOk result (λ ids. ids ≡ slice_split is_comma text.now) }
{
    let mut ids = Listed::new(alloc);
    let mut id = Units::new(alloc);
    for unit in text {
        if *unit == 44 {
            ids.push(mem::replace(&mut id, Units::new(alloc)))?;
        } else {
            id.push(*unit)?;
        }
    }
    ids.push(id)?;
    Ok(ids)
}

/// The ids of a text with commas between them.
fn ids_in(alloc: Global, text: &str) -> Result<Listed<Units>, NoMemory>
    ensures exact { IfOk result (λ ids. ids ≡ ids_in (units_of text.now)) }
    ensures ids { IfOk result AreIds }
{
    let units = units_from(alloc, text)?;
    if units.is_empty() {
        return Ok(Listed::new(alloc));
    }
    Ok(pieces(alloc, units.as_slice())?)
}

/// The ids of sessions, a member that may be missing or null.
pub fn sessions(alloc: Global, value: &Value) -> Result<Listed<Units>, WireBad>
    ensures exact { Gives (λ ids. ids) result (sessions_in (view value.now)) }
    ensures ids { IfOk result AreIds }
{
    match value.get(Member::SessionId.name()) {
        None | Some(Value::Null) => Ok(Listed::new(alloc)),
        Some(Value::String(text)) => Ok(ids_in(alloc, text.as_str())?),
        Some(_) => Err(WireBad::Shape(Member::SessionId)),
    }
}

/// A number below 2^64 in its shortest digits.
fn number(text: &str) -> Option<u64>
    ensures { result ≡ number_in text.now }
{
    match text.parse::<u64>() {
        Ok(number) => {
            let mut buffer = Buffer::new();
            if buffer.format(number) == text {
                Some(number)
            } else {
                None
            }
        }
        Err(_) => None,
    }
}

/// The session with this text.
fn session_in(text: &str) -> Option<Session>
    ensures { result ≡ session_in text.now }
{
    if text.is_empty() {
        return Some(Session { epoch: 0, count: 0 });
    }
    let (epoch, count) = text.split_once('.')?;
    let epoch = number(epoch)?;
    let count = number(count)?;
    if epoch == 0 && count == 0 {
        None
    } else {
        Some(Session { epoch, count })
    }
}

pub fn session(value: &Value, member: Member) -> Result<Session, WireBad>
    ensures exact { Gives (λ s. s) result (needed session member (view value.now)) }
    ensures session { IfOk result IsSession }
{
    value
        .get(member.name())
        .and_then(Value::as_str)
        .and_then(session_in)
        .ok_or(WireBad::Shape(member))
}

/// A session's text: its epoch, a dot and its count, and nothing for nobody's.
pub fn session_text(alloc: Global, session: Session) -> Result<String, NoMemory>
    ensures { IfOk result (λ s. string_bytes s ≡ session_text session) }
{
    if session.epoch == 0 && session.count == 0 {
        return Ok(String::new(alloc));
    }
    let epoch = session.epoch;
    let count = session.count;
    Ok(format!(in alloc; "{epoch}.{count}")?)
}

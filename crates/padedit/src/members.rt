//! The members of a request.

use crate::refusal::{Refusal, Stopped};
use ep_attr::{Attr, AttrMap};
use ep_units::Units;
use ep_wire_words::Listed;
use serde_json::Value;
use std::alloc::Global;

/// A member of a request.
#[derive(Clone, Copy, Debug, PartialEq, Eq)]
pub enum Member {
    Do,
    Pad,
    Token,
    Sessions,
    Message,
    At,
    Drop,
    Put,
    With,
    Count,
    Key,
    Value,
    Kept,
    To,
}

impl Member {
    pub fn name(self) -> &'static str {
        match self {
            Member::Do => "do",
            Member::Pad => "pad",
            Member::Token => "token",
            Member::Sessions => "sessions",
            Member::Message => "message",
            Member::At => "at",
            Member::Drop => "drop",
            Member::Put => "put",
            Member::With => "with",
            Member::Count => "count",
            Member::Key => "key",
            Member::Value => "value",
            Member::Kept => "kept",
            Member::To => "to",
        }
    }
}

impl From<Member> for Stopped {
    fn from(member: Member) -> Stopped {
        Stopped::Refused(Refusal::Shape(member))
    }
}

pub fn text_of(request: &Value, member: Member) -> Result<&str, Stopped> {
    Ok(
        request
            .get(member.name())
            .and_then(Value::as_str)
            .ok_or(member)?,
    )
}

/// A number from 0 to 4,294,967,295.
pub fn number_of(request: &Value, member: Member) -> Result<u32, Stopped> {
    let number = request
        .get(member.name())
        .and_then(Value::as_u64)
        .ok_or(member)?;
    Ok(u32::try_from(number).map_err(|_| member)?)
}

/// A revision.
pub fn revision_of(request: &Value, member: Member) -> Result<u64, Stopped> {
    Ok(
        request
            .get(member.name())
            .and_then(Value::as_u64)
            .ok_or(member)?,
    )
}

pub fn units_of(alloc: Global, request: &Value, member: Member) -> Result<Units, Stopped> {
    let text = text_of(request, member)?;
    Ok(Units::from_str(alloc, text)?)
}

/// The values of a list, none where the member is missing.
fn values_of(request: &Value, member: Member) -> Result<&[Value], Stopped> {
    match request.get(member.name()) {
        Some(list) => Ok(list.as_array().ok_or(member)?.as_slice()),
        None => Ok(&[]),
    }
}

fn push_id(alloc: Global, ids: &mut Listed<Units>, value: &Value) -> Result<(), Stopped> {
    let id = value.as_str().ok_or(Member::Sessions)?;
    Ok(ids.push(Units::from_str(alloc, id)?)?)
}

/// The ids of sessions, none where the member is missing.
pub fn sessions_of(alloc: Global, request: &Value) -> Result<Listed<Units>, Stopped> {
    let values = values_of(request, Member::Sessions)?;
    let mut ids = Listed::new(alloc);
    for value in values {
        push_id(alloc, &mut ids, value)?;
    }
    Ok(ids)
}

/// The key or the value of a pair.
fn half_of(pair: &Value, half: usize) -> Result<&str, Stopped> {
    Ok(pair.get(half).and_then(Value::as_str).ok_or(Member::With)?)
}

/// A key and a value.
fn attr_of(alloc: Global, pair: &Value) -> Result<Attr, Stopped> {
    let key = half_of(pair, 0)?;
    let value = half_of(pair, 1)?;
    if pair.get(2).is_some() {
        return Err(Stopped::from(Member::With));
    }
    attr(alloc, key, value)
}

fn attr(alloc: Global, key: &str, value: &str) -> Result<Attr, Stopped> {
    Ok(Attr {
        key: Units::from_str(alloc, key)?,
        value: Units::from_str(alloc, value)?,
    })
}

fn push_pair(alloc: Global, pairs: &mut Listed<Attr>, value: &Value) -> Result<(), Stopped> {
    Ok(pairs.push(attr_of(alloc, value)?)?)
}

fn pairs_of(alloc: Global, values: &[Value]) -> Result<Listed<Attr>, Stopped> {
    let mut pairs = Listed::new(alloc);
    for value in values {
        push_pair(alloc, &mut pairs, value)?;
    }
    Ok(pairs)
}

/// The map of pairs, the empty one where the member is missing.
pub fn with_of(alloc: Global, request: &Value) -> Result<AttrMap, Stopped> {
    let values = values_of(request, Member::With)?;
    let pairs = pairs_of(alloc, values)?;
    Ok(AttrMap::read(alloc, pairs.as_slice())?)
}

/// The map of one key.
pub fn attr_map_of(alloc: Global, request: &Value) -> Result<AttrMap, Stopped> {
    let key = text_of(request, Member::Key)?;
    let value = text_of(request, Member::Value)?;
    let attr = attr(alloc, key, value)?;
    Ok(AttrMap::read(alloc, &[attr])?)
}

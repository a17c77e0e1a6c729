//! The members of a request.

use crate::refusal::{Refusal, Stop};
use ep_attr::Attr;
use ep_units::Units;
use serde_json::Value;
use std::alloc::Global;

/// A member of a request.
#[derive(Clone, Copy, Debug, PartialEq, Eq)]
pub enum Member {
    Do,
    Pool,
    Text,
    Attribs,
    A,
    B,
    First,
    Through,
    At,
    N,
    Insert,
    Pairs,
    Granularity,
}

impl Member {
    pub fn name(self) -> &'static str {
        match self {
            Member::Do => "do",
            Member::Pool => "pool",
            Member::Text => "text",
            Member::Attribs => "attribs",
            Member::A => "a",
            Member::B => "b",
            Member::First => "first",
            Member::Through => "through",
            Member::At => "at",
            Member::N => "n",
            Member::Insert => "insert",
            Member::Pairs => "pairs",
            Member::Granularity => "granularity",
        }
    }
}

impl From<Member> for Stop {
    fn from(member: Member) -> Stop {
        Stop::Refused(Refusal::Member(member))
    }
}

/// The value under a member's name.
pub fn value_of(request: &Value, member: Member) -> Result<&Value, Stop> {
    Ok(request.get(member.name()).ok_or(member)?)
}

pub fn text_of(request: &Value, member: Member) -> Result<&str, Stop> {
    Ok(value_of(request, member)?.as_str().ok_or(member)?)
}

/// A number from 0 to 4,294,967,295.
pub fn number_of(request: &Value, member: Member) -> Result<u32, Stop> {
    let number = value_of(request, member)?.as_u64().ok_or(member)?;
    Ok(u32::try_from(number).map_err(|_| member)?)
}

pub fn texts_of(alloc: Global, request: &Value, member: Member) -> Result<Vec<&str>, Stop> {
    let values = value_of(request, member)?.as_array().ok_or(member)?;
    let mut texts = Vec::new(alloc);
    for value in values {
        texts.push(value.as_str().ok_or(member)?)?;
    }
    Ok(texts)
}

/// The key or the value of a pair.
fn half_of(pair: &Value, half: usize) -> Result<&str, Stop> {
    Ok(pair.get(half).and_then(Value::as_str).ok_or(Member::Pairs)?)
}

/// A key and a value.
fn attr_of(alloc: Global, pair: &Value) -> Result<Attr, Stop> {
    let key = half_of(pair, 0)?;
    let value = half_of(pair, 1)?;
    if pair.get(2).is_some() {
        return Err(Stop::from(Member::Pairs));
    }
    Ok(Attr {
        key: Units::from_str(alloc, key)?,
        value: Units::from_str(alloc, value)?,
    })
}

pub fn pairs_of(alloc: Global, request: &Value) -> Result<Vec<Attr>, Stop> {
    let values = value_of(request, Member::Pairs)?
        .as_array()
        .ok_or(Member::Pairs)?;
    let mut pairs = Vec::new(alloc);
    for value in values {
        pairs.push(attr_of(alloc, value)?)?;
    }
    Ok(pairs)
}

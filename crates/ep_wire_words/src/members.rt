//! The members of a JSON value.

ghost use Rattle.std.specs.Prelude.{◌≡◌, IfOk, IfSome, Some};
ghost use Rattle.serde_json.specs.Find.{as_bool, as_str};
ghost use Rattle.serde_json.specs.View.{items_view, view};
ghost use Rattle.ep_units.specs.Utf8.{units_of};
ghost use Rattle.ep_pool.specs.Read.{IsText};
ghost use Rattle.ep_wire_words.specs.Answer.{Gives};
ghost use Rattle.ep_wire_words.specs.Client.{json_in};
ghost use Rattle.ep_wire_words.specs.Members.{are_texts, array_of_texts, needed, object_kind, optional, units, whole};
ghost use Rattle.ep_wire_words.specs.Sent.{IfSmall, IfText, IsSmall};

use crate::bad::WireBad;
use crate::member::Member;
use ep_units::{NoMemory, Units};
use serde_json::Value;
use serde_json::error::Category;
use std::alloc::Global;

/// The greatest whole number that a browser has exactly.
const GREATEST: u64 = 9_007_199_254_740_991;

/// The JSON of a text within a limit of bytes.
pub fn json(alloc: Global, text: &str, limit: u64) -> Result<Value, WireBad>
    ensures { Gives view result (json_in text.now limit) }
{
    let bytes = text.len() as u64;
    if bytes > limit {
        return Err(WireBad::TooBig(bytes));
    }
    match Value::from_str(alloc, text) {
        Ok(value) => Ok(value),
        Err(error) if error.classify() == Category::Memory => Err(WireBad::NoMemory),
        Err(_) => Err(WireBad::NotJson),
    }
}

/// The member, as it stands.
pub fn member(value: &Value, member: Member) -> Result<&Value, WireBad>
    ensures { Gives (λ v. view v.now) result (needed Some member (view value.now)) }
{
    value.get(member.name()).ok_or(WireBad::Shape(member))
}

pub fn text(value: &Value, member: Member) -> Result<&str, WireBad>
    ensures { Gives (λ t. t.now) result (needed as_str member (view value.now)) }
{
    value
        .get(member.name())
        .and_then(Value::as_str)
        .ok_or(WireBad::Shape(member))
}

/// The units of a text.
pub fn units_from(alloc: Global, text: &str) -> Result<Units, NoMemory>
    ensures units { IfOk result (λ t. t ≡ units_of text.now) }
    ensures text { IfOk result IsText }
{
    Ok(Units::from_str(alloc, text)?)
}

pub fn units(alloc: Global, value: &Value, member: Member) -> Result<Units, WireBad>
    ensures exact { Gives (λ t. t) result (needed units member (view value.now)) }
    ensures text { IfOk result IsText }
{
    Ok(units_from(alloc, text(value, member)?)?)
}

pub fn object(value: &Value, member: Member) -> Result<&Value, WireBad>
    ensures { Gives (λ v. view v.now) result (needed object_kind member (view value.now)) }
{
    match value.get(member.name()) {
        Some(object) if object.is_object() => Ok(object),
        _ => Err(WireBad::Shape(member)),
    }
}

fn whole_in(value: &Value) -> Option<u64>
    ensures exact { result ≡ whole (view value.now) }
    ensures small { IfSome result IsSmall }
{
    match value.as_u64() {
        Some(n) if n <= GREATEST => Some(n),
        _ => None,
    }
}

pub fn flag(value: &Value, member: Member) -> Result<bool, WireBad>
    ensures { Gives (λ b. b) result (needed as_bool member (view value.now)) }
{
    value
        .get(member.name())
        .and_then(Value::as_bool)
        .ok_or(WireBad::Shape(member))
}

/// A whole number.
pub fn whole(value: &Value, member: Member) -> Result<u64, WireBad>
    ensures exact { Gives (λ n. n) result (needed whole member (view value.now)) }
    ensures small { IfOk result IsSmall }
{
    value
        .get(member.name())
        .and_then(whole_in)
        .ok_or(WireBad::Shape(member))
}

fn are_texts(values: &[Value]) -> bool
    ensures { result ≡ are_texts (items_view values.now) }
{
    for value in values {
        if !value.is_string() {
            return false;
        }
    }
    true
}

pub fn array_of_texts(value: &Value, member: Member) -> Result<&[Value], WireBad>
    ensures { Gives (λ v. items_view v.now) result (needed array_of_texts member (view value.now)) }
{
    match value.get(member.name()).and_then(Value::as_array) {
        Some(values) if are_texts(values) => Ok(values.as_slice()),
        _ => Err(WireBad::Shape(member)),
    }
}

pub fn optional_whole(value: &Value, member: Member) -> Result<Option<u64>, WireBad>
    ensures exact { Gives (λ n. n) result (optional whole member (view value.now)) }
    ensures small { IfOk result IfSmall }
{
    match value.get(member.name()) {
        None => Ok(None),
        Some(found) => match whole_in(found) {
            Some(n) => Ok(Some(n)),
            None => Err(WireBad::Shape(member)),
        },
    }
}

pub fn optional_flag(value: &Value, member: Member) -> Result<Option<bool>, WireBad>
    ensures { Gives (λ b. b) result (optional as_bool member (view value.now)) }
{
    match value.get(member.name()) {
        None => Ok(None),
        Some(found) => match found.as_bool() {
            Some(flag) => Ok(Some(flag)),
            None => Err(WireBad::Shape(member)),
        },
    }
}

pub fn optional_units(
    alloc: Global,
    value: &Value,
    member: Member,
) -> Result<Option<Units>, WireBad>
    ensures exact { Gives (λ t. t) result (optional units member (view value.now)) }
    ensures text { IfOk result IfText }
{
    match value.get(member.name()) {
        None => Ok(None),
        Some(found) => match found.as_str() {
            Some(text) => Ok(Some(units_from(alloc, text)?)),
            None => Err(WireBad::Shape(member)),
        },
    }
}

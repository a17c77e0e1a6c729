//! Parameters of a request, and what their texts say.

ghost use Rattle.std.specs.Prelude.{◌≡◌, ◌≢◌, Ok, Err, IfOk, IfErr, MatchResult, true};
ghost use Rattle.std.specs.Option.{option_copied};
ghost use Rattle.ep_units.specs.PadId.{has_group};
ghost use Rattle.ep_units.specs.Text.{is_well_formed};
ghost use Rattle.ep_ask.specs.Parameters.{boolean, grouped, is_kept, lone_pad, needed, number, number_if, number_in, pad, short, text_if, text_or, value_of};

use crate::bad::ApiBad;
use crate::param::Param;
use ep_outside::Pair;
use ep_units::{NoMemory, PadId, Units};
use std::alloc::Global;

/// The value of the first parameter of this name.
pub fn value_of(param: Param, pairs: &[Pair]) -> Option<&str>
    ensures { option_copied result ≡ value_of param pairs.now }
{
    let name = param.name();
    let found = pairs.iter().find(|pair| pair.key.as_str() == name)?;
    Some(found.value.as_str())
}

/// What the directory keeps or looks up has at most so many bytes.
const MOST_BYTES: usize = 1_024;

/// The directory keeps it, or looks it up: an id, a mapper or a name.
fn is_kept(param: Param) -> bool
    ensures { result ≡ is_kept param }
{
    matches!(
        param,
        Param::GroupId
            | Param::GroupMapper
            | Param::AuthorId
            | Param::AuthorMapper
            | Param::Name
            | Param::SessionId
    )
}

/// The value of a parameter, where it isn't too long.
fn short(param: Param, value: &str) -> Result<&str, ApiBad>
    ensures { MatchResult result (λ v. short param value.now ≡ Ok v.now) (λ e. short param value.now ≡ Err e) }
{
    if is_kept(param) && value.len() > MOST_BYTES {
        Err(ApiBad::NotValid(param))
    } else {
        Ok(value)
    }
}

/// The value of a parameter that must be there.
pub fn needed(param: Param, pairs: &[Pair]) -> Result<&str, ApiBad>
    ensures { MatchResult result (λ v. needed param pairs.now ≡ Ok v.now) (λ e. needed param pairs.now ≡ Err e) }
{
    match value_of(param, pairs) {
        Some(value) => short(param, value),
        None => Err(ApiBad::Missing(param)),
    }
}

/// The units of a parameter, if it is there.
pub fn text_if(alloc: Global, param: Param, pairs: &[Pair]) -> Result<Option<Units>, ApiBad>
    ensures ok { IfOk result (λ text. text_if param pairs.now ≡ Ok text) }
    ensures err { IfErr result (λ e. e ≢ ApiBad.NoMemory → text_if param pairs.now ≡ Err e) }
{
    match value_of(param, pairs) {
        Some(value) => Ok(Some(Units::from_str(alloc, short(param, value)?)?)),
        None => Ok(None),
    }
}

/// The units of a parameter, or no text.
pub fn text_or(alloc: Global, param: Param, pairs: &[Pair]) -> Result<Units, NoMemory>
    ensures text { IfOk result (λ text. text ≡ text_or param pairs.now) }
    ensures well_formed { IfOk result (λ text. is_well_formed text ≡ true) }
{
    match value_of(param, pairs) {
        Some(value) => Units::from_str(alloc, value),
        None => Ok(Units::new(alloc)),
    }
}

/// The number that decimal digits say, where it is below 2^64.
fn number_in(text: &str) -> Option<u64>
    ensures { result ≡ number_in text.now }
{
    if text.starts_with('+') {
        return None;
    }
    text.parse().ok()
}

pub fn number(param: Param, value: &str) -> Result<u64, ApiBad>
    ensures { result ≡ number param value.now }
{
    number_in(value).ok_or(ApiBad::NotNumber(param))
}

/// The number that a parameter says, if it is there.
pub fn number_if(param: Param, pairs: &[Pair]) -> Result<Option<u64>, ApiBad>
    ensures { result ≡ number_if param pairs.now }
{
    match value_of(param, pairs) {
        Some(value) => Ok(Some(number(param, value)?)),
        None => Ok(None),
    }
}

/// `true` or `false`.
pub fn boolean(param: Param, value: &str) -> Result<bool, ApiBad>
    ensures { result ≡ boolean param value.now }
{
    match value {
        "true" => Ok(true),
        "false" => Ok(false),
        _ => Err(ApiBad::NotBoolean(param)),
    }
}

/// A pad's own id.
pub fn pad(alloc: Global, value: &str) -> Result<PadId, ApiBad>
    ensures ok { IfOk result (λ id. pad value.now ≡ Ok id) }
    ensures err { IfErr result (λ e. e ≢ ApiBad.NoMemory → pad value.now ≡ Err e) }
{
    let units = Units::from_str(alloc, value)?;
    match PadId::read(alloc, &units)? {
        Some(id) => Ok(id),
        None => Err(ApiBad::NotValid(Param::PadId)),
    }
}

fn has_group(id: &PadId) -> bool
    ensures { result ≡ has_group id.now }
{
    id.group().is_some()
}

/// The id of a pad that is no group's.
pub fn lone_pad(alloc: Global, value: &str) -> Result<PadId, ApiBad>
    ensures ok { IfOk result (λ id. lone_pad value.now ≡ Ok id) }
    ensures err { IfErr result (λ e. e ≢ ApiBad.NoMemory → lone_pad value.now ≡ Err e) }
{
    let id = pad(alloc, value)?;
    if has_group(&id) {
        return Err(ApiBad::OfGroup);
    }
    Ok(id)
}

/// The pad is a group's.
pub fn grouped(id: PadId) -> Result<PadId, ApiBad>
    ensures { result ≡ grouped id }
{
    if has_group(&id) {
        Ok(id)
    } else {
        Err(ApiBad::NoGroupPad)
    }
}

//! The members of a JSON value.

ghost use Rattle.std.specs.Prelude.{◌≡◌, codes, Some};
ghost use Rattle.serde_json.specs.Find.{as_bool, as_str};
ghost use Rattle.serde_json.specs.View.{view};
ghost use Rattle.ep_wire_words.specs.Members.{object_kind, whole};
ghost use Rattle.ep_wire_words.specs.Sessions.{session};
ghost use Rattle.ep_import.specs.Answer.{Gives};
ghost use Rattle.ep_import.specs.Imported.{needed};

use crate::bad::ImportBad;
use crate::place::Place;
use ep_units::Session;
use ep_wire_words::{Member, WireBad};
use serde_json::Value;

/// The greatest whole number that a browser has exactly.
pub const GREATEST: u64 = 9_007_199_254_740_991;

/// The member, as it stands.
pub fn member<'a>(value: &'a Value, name: &str, place: Place) -> Result<&'a Value, ImportBad>
    ensures { Gives (λ v. view v.now) result (needed Some name.now place (view value.now)) }
{
    value.get(name).ok_or(ImportBad::Shape(place))
}

pub fn text<'a>(value: &'a Value, name: &str, place: Place) -> Result<&'a str, ImportBad>
    ensures { Gives (λ t. t.now) result (needed as_str name.now place (view value.now)) }
{
    value
        .get(name)
        .and_then(Value::as_str)
        .ok_or(ImportBad::Shape(place))
}

pub fn object<'a>(value: &'a Value, name: &str, place: Place) -> Result<&'a Value, ImportBad>
    ensures { Gives (λ v. view v.now) result (needed object_kind name.now place (view value.now)) }
{
    match value.get(name) {
        Some(object) if object.is_object() => Ok(object),
        _ => Err(ImportBad::Shape(place)),
    }
}

pub fn flag(value: &Value, name: &str, place: Place) -> Result<bool, ImportBad>
    ensures { Gives (λ b. b) result (needed as_bool name.now place (view value.now)) }
{
    value
        .get(name)
        .and_then(Value::as_bool)
        .ok_or(ImportBad::Shape(place))
}

fn whole_in(value: &Value) -> Option<u64>
    ensures { result ≡ whole (view value.now) }
{
    match value.as_u64() {
        Some(n) if n <= GREATEST => Some(n),
        _ => None,
    }
}

/// A whole number.
pub fn whole(value: &Value, name: &str, place: Place) -> Result<u64, ImportBad>
    ensures { Gives (λ n. n) result (needed whole name.now place (view value.now)) }
{
    value
        .get(name)
        .and_then(whole_in)
        .ok_or(ImportBad::Shape(place))
}

/// A session.
#[tactic(auto, using(crate::proofs::Sessions::session_there, crate::proofs::Sessions::session_missing))]
pub fn session(value: &Value, place: Place) -> Result<Session, ImportBad>
    ensures { Gives (λ s. s) result (needed session (codes "session") place (view value.now)) }
{
    match ep_wire_words::session::session(value, Member::Session) {
        Ok(session) => Ok(session),
        Err(WireBad::NoMemory) => Err(ImportBad::NoMemory),
        Err(_) => Err(ImportBad::Shape(place)),
    }
}

//! What stands in a request.

ghost use Rattle.std.specs.Prelude.{◌≡◌, true, IfOk};
ghost use Rattle.ep_units.specs.Text.{is_well_formed};

use crate::stop::Stop;
use ep_apply::{Doc, apply, fits};
use ep_cs::Change;
use ep_csread::{read, read_attribs};
use ep_pool::Pool;
use ep_units::{Session, Units};
use ep_wire::Listed;
use serde_json::Value;
use std::alloc::Global;

pub fn member<'a>(value: &'a Value, name: &str) -> Result<&'a Value, Stop> {
    value.get(name).ok_or(Stop::Wrong)
}

pub fn text<'a>(value: &'a Value, name: &str) -> Result<&'a str, Stop> {
    member(value, name)?.as_str().ok_or(Stop::Wrong)
}

pub fn units(alloc: Global, value: &Value, name: &str) -> Result<Units, Stop>
    ensures { IfOk result (λ u. is_well_formed u ≡ true) }
{
    Ok(Units::from_str(alloc, text(value, name)?)?)
}

pub fn whole(value: &Value, name: &str) -> Result<u64, Stop> {
    member(value, name)?.as_u64().ok_or(Stop::Wrong)
}

pub fn flag(value: &Value, name: &str) -> Result<bool, Stop> {
    member(value, name)?.as_bool().ok_or(Stop::Wrong)
}

pub fn array<'a>(value: &'a Value, name: &str) -> Result<&'a [Value], Stop> {
    match member(value, name)?.as_array() {
        Some(values) => Ok(values.as_slice()),
        None => Err(Stop::Wrong),
    }
}

pub fn session(value: &Value, name: &str) -> Result<Session, Stop> {
    let text = text(value, name)?;
    if text.is_empty() {
        return Ok(Session { epoch: 0, count: 0 });
    }
    let Some((epoch, count)) = text.split_once('.') else {
        return Err(Stop::Wrong);
    };
    match (epoch.parse::<u64>(), count.parse::<u64>()) {
        (Ok(epoch), Ok(count)) => Ok(Session { epoch, count }),
        _ => Err(Stop::Wrong),
    }
}

fn pool(alloc: Global, value: &Value) -> Result<Pool, Stop> {
    Ok(Pool::from_json(alloc, member(value, "pool")?)?)
}

/// The change of a changeset with its pool.
pub fn change(alloc: Global, value: &Value) -> Result<Change, Stop> {
    let changeset = units(alloc, value, "changeset")?;
    let pool = pool(alloc, value)?;
    Ok(read(alloc, &changeset, &pool)?)
}

/// Changes, each with its own pool.
pub fn changes(alloc: Global, value: &Value, name: &str) -> Result<Listed<Change>, Stop> {
    let mut changes = Listed::new(alloc);
    for each in array(value, name)? {
        changes.push(change(alloc, each)?)?;
    }
    Ok(changes)
}

/// The change that makes a text with attributes.
fn insertion(alloc: Global, value: &Value) -> Result<Change, Stop> {
    let text = units(alloc, value, "text")?;
    let attribs = units(alloc, value, "attribs")?;
    let pool = pool(alloc, value)?;
    Ok(read_attribs(alloc, &text, &attribs, &pool)?)
}

/// The document that a change makes of none.
fn made(alloc: Global, change: &Change) -> Result<Doc, Stop> {
    let empty = Doc::empty(alloc);
    match fits(&empty, change) {
        Ok(()) => Ok(apply(alloc, &empty, change)?),
        Err(_) => Err(Stop::Wrong),
    }
}

pub fn doc(alloc: Global, value: &Value) -> Result<Doc, Stop> {
    let change = insertion(alloc, value)?;
    made(alloc, &change)
}

pub fn ids(alloc: Global, value: &Value, name: &str) -> Result<Listed<Units>, Stop> {
    let mut ids = Listed::new(alloc);
    for id in array(value, name)? {
        let id = id.as_str().ok_or(Stop::Wrong)?;
        ids.push(Units::from_str(alloc, id)?)?;
    }
    Ok(ids)
}

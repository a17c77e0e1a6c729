//! What stands in a request.

ghost use Rattle.std.specs.Prelude.{◌≡◌, ◌<◌, true, IfOk};
ghost use Rattle.ep_units.specs.Text.{is_well_formed};

use crate::stop::Stop;
use ep_cs::Change;
use ep_csread::read;
use ep_groups::Drawn;
use ep_pool::Pool;
use ep_units::{PadId, Session, Units};
use serde_json::Value;
use std::alloc::Global;

pub fn member<'a>(value: &'a Value, name: &str) -> Result<&'a Value, Stop> {
    value.get(name).ok_or(Stop::Wrong)
}

pub fn text<'a>(value: &'a Value, name: &str) -> Result<&'a str, Stop> {
    member(value, name)?.as_str().ok_or(Stop::Wrong)
}

pub fn units(alloc: Global, value: &Value, name: &str) -> Result<Units, Stop>
    ensures { IfOk result (λ u. is_well_formed u ≡ true) }
{
    Ok(Units::from_str(alloc, text(value, name)?)?)
}

pub fn whole(value: &Value, name: &str) -> Result<u64, Stop> {
    member(value, name)?.as_u64().ok_or(Stop::Wrong)
}

pub fn flag(value: &Value, name: &str) -> Result<bool, Stop> {
    member(value, name)?.as_bool().ok_or(Stop::Wrong)
}

pub fn array<'a>(value: &'a Value, name: &str) -> Result<&'a [Value], Stop> {
    match member(value, name)?.as_array() {
        Some(values) => Ok(values.as_slice()),
        None => Err(Stop::Wrong),
    }
}

pub fn all_units(alloc: Global, value: &Value, name: &str) -> Result<Vec<Units>, Stop> {
    let mut all = Vec::new(alloc);
    for each in array(value, name)? {
        let text = each.as_str().ok_or(Stop::Wrong)?;
        all.push(Units::from_str(alloc, text)?)?;
    }
    Ok(all)
}

pub fn pad(alloc: Global, text: &str) -> Result<PadId, Stop> {
    PadId::read(alloc, &Units::from_str(alloc, text)?)?.ok_or(Stop::Wrong)
}

pub fn session(value: &Value) -> Result<Session, Stop> {
    let Some((epoch, count)) = text(value, "session")?.split_once('.') else {
        return Err(Stop::Wrong);
    };
    match (epoch.parse::<u64>(), count.parse::<u64>()) {
        (Ok(epoch), Ok(count)) => Ok(Session { epoch, count }),
        _ => Err(Stop::Wrong),
    }
}

/// The change of a changeset with its pool.
pub fn change(alloc: Global, value: &Value) -> Result<Change, Stop> {
    let changeset = units(alloc, value, "changeset")?;
    let pool = Pool::from_json(alloc, member(value, "pool")?)?;
    Ok(read(alloc, &changeset, &pool)?)
}

fn digit(draws: &[Value], at: usize) -> Result<u8, Stop>
    ensures { IfOk result (λ d. d < 36) }
{
    let draw = draws.get(at).ok_or(Stop::Wrong)?;
    Ok((draw.as_u64().ok_or(Stop::Wrong)? % 36) as u8)
}

/// The ten draws of a call.
pub fn drawn(value: &Value) -> Result<Drawn, Stop> {
    let draws = array(value, "draws")?;
    let digits = [
        digit(draws, 0)?,
        digit(draws, 1)?,
        digit(draws, 2)?,
        digit(draws, 3)?,
        digit(draws, 4)?,
        digit(draws, 5)?,
        digit(draws, 6)?,
        digit(draws, 7)?,
        digit(draws, 8)?,
        digit(draws, 9)?,
    ];
    Ok(Drawn { digits })
}

/// Numbers that stand in a list.
pub fn numbers(alloc: Global, values: &[Value]) -> Result<Vec<u64>, Stop> {
    let mut numbers = Vec::new(alloc);
    for value in values {
        numbers.push(value.as_u64().ok_or(Stop::Wrong)?)?;
    }
    Ok(numbers)
}

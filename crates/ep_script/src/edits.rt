//! The edits of lines.

ghost use Rattle.std.specs.Prelude.{◌≡◌, IfOk, IfSome};
ghost use Rattle.std.specs.Option.{option_copied};
ghost use Rattle.ep_script.specs.Edits.{insert, delete, format};
ghost use Rattle.ep_script.specs.Seen.{EditTexts};

use crate::fields::{read_place, read_text, read_value};
use crate::words::cut;
use ep_event::Local;
use ep_units::NoMemory;
use std::alloc::Global;

/// What stands behind `insert`.
pub(crate) fn read_insert(alloc: Global, rest: Option<&str>) -> Result<Option<Local>, NoMemory>
    ensures edit { IfOk result (λ o. o ≡ insert (option_copied rest.entry)) }
    ensures texts { IfOk result (λ o. IfSome o EditTexts) }
{
    let (at, text) = cut(rest);
    let Some(at) = read_place(at) else {
        return Ok(None);
    };
    let Some(text) = read_text(alloc, text)? else {
        return Ok(None);
    };
    Ok(Some(Local::Insert { at, text }))
}

/// What stands behind `delete`.
pub(crate) fn read_delete(rest: Option<&str>) -> Option<Local>
    ensures edit { result ≡ delete (option_copied rest.entry) }
    ensures texts { IfSome result EditTexts }
{
    let (at, units) = cut(rest);
    let at = read_place(at)?;
    let units = read_place(units)?;
    Some(Local::Delete { at, units })
}

/// What stands behind `format`.
pub(crate) fn read_format(alloc: Global, rest: Option<&str>) -> Result<Option<Local>, NoMemory>
    ensures edit { IfOk result (λ o. o ≡ format (option_copied rest.entry)) }
    ensures texts { IfOk result (λ o. IfSome o EditTexts) }
{
    let (at, rest) = cut(rest);
    let (units, rest) = cut(rest);
    let (key, value) = cut(rest);
    let Some(at) = read_place(at) else {
        return Ok(None);
    };
    let Some(units) = read_place(units) else {
        return Ok(None);
    };
    let Some(key) = read_text(alloc, key)? else {
        return Ok(None);
    };
    let Some(value) = read_value(alloc, value)? else {
        return Ok(None);
    };
    Ok(Some(Local::Format {
        at,
        units,
        key,
        value,
    }))
}

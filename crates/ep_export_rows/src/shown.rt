//! What one line gives.

ghost use Rattle.ep_past.specs.Revisions.{AreRevisions};

use anyhow::Result;
use ep_export::{ExportBad, export};
use ep_import::{History, ImportBad, births_can_be_exported, import};
use ep_units::{PadId, Units};
use serde_json::Value;
use std::alloc::Global;

/// The member of a row, a text.
fn text<'a>(row: &'a Value, name: &str) -> &'a str {
    row.get(name).and_then(Value::as_str).unwrap_or("")
}

fn refused(alloc: Global, pad: &PadId, why: ImportBad) -> Result<String> {
    Ok(match why {
        ImportBad::TooBig(bytes) => format!(in alloc; "refused toobig {bytes}")?,
        ImportBad::NotJson => format!(in alloc; "refused notjson")?,
        ImportBad::Shape(place) => {
            let path = place.path(alloc, pad)?;
            let path = path.as_str();
            format!(in alloc; "refused shape {path}")?
        }
        ImportBad::Revision(n) => format!(in alloc; "refused revision {n}")?,
        ImportBad::Replay => format!(in alloc; "refused replay")?,
        ImportBad::NoMemory => format!(in alloc; "no memory")?,
    })
}

fn exported(alloc: Global, pad: &PadId, history: &History) -> Result<String>
    requires { AreRevisions history.now.revs.items }
{
    births_can_be_exported();
    match export(alloc, pad, &history.revs, history.public) {
        Ok(text) => Ok(text),
        Err(ExportBad::Time(n)) => Ok(format!(in alloc; "refused time {n}")?),
        Err(ExportBad::NoMemory) => Ok(format!(in alloc; "no memory")?),
    }
}

pub fn shown(alloc: Global, line: &str) -> Result<String> {
    let row = Value::from_str(alloc, line)?;
    let id = Units::from_str(alloc, text(&row, "pad"))?;
    let Some(pad) = PadId::read(alloc, &id)? else {
        return Ok(format!(in alloc; "no id")?);
    };
    match import(alloc, &pad, text(&row, "text")) {
        Ok(history) => exported(alloc, &pad, &history),
        Err(why) => refused(alloc, &pad, why),
    }
}

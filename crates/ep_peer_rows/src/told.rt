//! What is told of a writer and its session.

use crate::talk::{Served, Wrote};
use ep_units::NoMemory;
use serde_json::Value;
use std::alloc::Global;

/// What a writer of one line ended with.
pub fn wrote(alloc: Global, wrote: &Wrote) -> Result<String, NoMemory> {
    match wrote {
        Wrote::Written(rev, text) => {
            let quoted = Value::try_from_str(alloc, text)?.to_string(alloc)?;
            Ok(format!(in alloc; "rev {rev} {quoted}")?)
        }
        Wrote::Place(line) => Ok(format!(in alloc; "error line {line} place")?),
        Wrote::Stopped => Ok(String::from_str(alloc, "stopped")?),
    }
}

/// Whether a text is the one that is wanted.
fn told_text(text: &str, wanted: &str) -> &'static str {
    if text == wanted {
        "the lines' text"
    } else {
        "another text"
    }
}

/// What a writer ended with, beside the text that its lines make.
pub fn written(alloc: Global, wrote: &Wrote, wanted: &str) -> Result<String, NoMemory> {
    let Wrote::Written(rev, text) = wrote else {
        return Ok(String::from_str(alloc, "not written")?);
    };
    let told = told_text(text, wanted);
    Ok(format!(in alloc; "written rev {rev}, {told}")?)
}

/// What another caller reads of the pad behind the session, beside that text.
pub fn read(alloc: Global, served: &Served, wanted: &str) -> Result<String, NoMemory> {
    let told = told_text(&served.text, wanted);
    Ok(format!(in alloc; "read rev {}, {told}, {} live", served.head, served.live)?)
}

/// What a session came to.
pub fn session(alloc: Global, served: &Served) -> Result<String, NoMemory> {
    let end = if served.is_closed {
        "closed"
    } else {
        "ended otherwise"
    };
    Ok(format!(in alloc;
        "session {end}, {} taken, told up to {}",
        served.taken, served.cursor
    )?)
}

//! Leave to enter a pad.

use ep_units::{Grant, NoMemory, PadId, Units};
use std::alloc::Global;

fn pad_id(alloc: Global, name: &str) -> Result<PadId, NoMemory> {
    let name = Units::from_str(alloc, name)?;
    PadId::read(alloc, &name)?.ok_or(NoMemory)
}

/// What lets an author write in the pad of this name, as no member.
pub fn grant(alloc: Global, pad: &str, author: &str) -> Result<Grant, NoMemory> {
    let asked = Units::from_str(alloc, pad)?;
    let token_author = Units::from_str(alloc, author)?;
    let author = Units::from_str(alloc, author)?;
    Ok(Grant {
        pad: pad_id(alloc, pad)?,
        asked,
        author,
        token_author,
        member: false,
        read_only: false,
    })
}

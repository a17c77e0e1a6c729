//! Documents and changes as they are written.

use anyhow::{Result, ensure};
use ep_apply::{Doc, apply, fits};
use ep_attr::{Attr, AttrMap};
use ep_cs::Change;
use ep_csread::{has_pairs, print, read, read_attribs};
use ep_pool::Pool;
use ep_units::{NoMemory, Units};
use std::alloc::Global;

fn bold(alloc: Global, value: &str) -> Result<Attr, NoMemory> {
    Ok(Attr {
        key: Units::from_str(alloc, "bold")?,
        value: Units::from_str(alloc, value)?,
    })
}

/// What numbers stand for in the rows: 0 makes bold, 1 takes it away.
pub fn bold_pool(alloc: Global) -> Result<Pool, NoMemory> {
    let mut pool = Pool::new(alloc);
    pool.reserve(2)?;
    pool.put(bold(alloc, "true")?);
    pool.put(bold(alloc, "")?);
    Ok(pool)
}

/// The attribute that makes bold.
pub fn bold_map(alloc: Global) -> Result<AttrMap, NoMemory> {
    let pairs = vec![in alloc; bold(alloc, "true")?]?;
    AttrMap::read(alloc, &pairs)
}

pub fn change(alloc: Global, text: &str, pool: &Pool) -> Result<Change> {
    let text = Units::from_str(alloc, text)?;
    Ok(read(alloc, &text, pool)?)
}

/// A text with these attributes, as a change of an empty document.
fn insertion(alloc: Global, text: &str, attribs: &str, pool: &Pool) -> Result<Change> {
    let text = Units::from_str(alloc, text)?;
    let attribs = Units::from_str(alloc, attribs)?;
    Ok(read_attribs(alloc, &text, &attribs, pool)?)
}

/// The document of a text with these attributes.
pub fn document(alloc: Global, text: &str, attribs: &str, pool: &Pool) -> Result<Doc> {
    let all = insertion(alloc, text, attribs, pool)?;
    let empty = Doc::empty(alloc);
    fits(&empty, &all)?;
    Ok(apply(alloc, &empty, &all)?)
}

/// A change as it is spelled with a pool that has its pairs.
pub fn spelled(alloc: Global, change: &Change, pool: &Pool) -> Result<String> {
    ensure!(has_pairs(change, pool), "a pair has no number");
    let text = print(alloc, change, pool)?;
    Ok(text.to_text_lossy(alloc)?)
}

//! A text in the place of a stretch, and attributes on one.

use crate::changes::{bold_map, bold_pool, document, spelled};
use anyhow::{Result, ensure};
use ep_apply::Doc;
use ep_attr::AttrMap;
use ep_cs::Change;
use ep_invert::{SpliceBad, paint, splice};
use ep_pool::Pool;
use ep_units::Units;
use std::alloc::Global;

/// More units than a row has.
const MANY: u32 = 1000;

/// A change as it is spelled, or why it is refused.
fn answer(alloc: Global, pool: &Pool, change: Result<Change, SpliceBad>) -> Result<String> {
    match change {
        Ok(change) => spelled(alloc, &change, pool),
        Err(why) => Ok(why.to_string(alloc)?),
    }
}

/// The splice by a text without attributes, or why it is refused.
fn spliced(alloc: Global, pool: &Pool, doc: &Doc, at: u32, n: u32, text: &str) -> Result<String> {
    let text = Units::from_str(alloc, text)?;
    ensure!(doc.len() < MANY, "a long document");
    ensure!(text.len() < MANY as usize, "a long text");
    let none = AttrMap::none(alloc);
    answer(alloc, pool, splice(alloc, doc, at, n, &text, &none))
}

fn print_spliced<R: Print + AllocGlobal>(
    rt: &R,
    pool: &Pool,
    doc: &Doc,
    rows: &[(u32, u32, &str)],
) -> Result<()> {
    for (at, n, insert) in rows {
        let answer = spliced(rt.alloc(), pool, doc, *at, *n, insert)?;
        println!(rt; "{at} {n} {insert:?}: {answer:?}")?;
    }
    Ok(())
}

/// Splices of a document: the place, the units that give way, and the text.
fn print_splices<R: Print + AllocGlobal>(
    rt: &R,
    text: &str,
    attribs: &str,
    rows: &[(u32, u32, &str)],
) -> Result<()> {
    let alloc = rt.alloc();
    let pool = bold_pool(alloc)?;
    let doc = document(alloc, text, attribs, &pool)?;
    println!(rt; "splices of {text:?}")?;
    print_spliced(rt, &pool, &doc, rows)
}

/// The painting in bold, or why it is refused.
fn painted(alloc: Global, pool: &Pool, doc: &Doc, at: u32, n: u32) -> Result<String> {
    let bold = bold_map(alloc)?;
    answer(alloc, pool, paint(alloc, doc, at, n, &bold))
}

fn print_painted<R: Print + AllocGlobal>(
    rt: &R,
    pool: &Pool,
    doc: &Doc,
    rows: &[(u32, u32)],
) -> Result<()> {
    for (at, n) in rows {
        let answer = painted(rt.alloc(), pool, doc, *at, *n)?;
        println!(rt; "{at} {n}: {answer:?}")?;
    }
    Ok(())
}

/// Paintings of a document in bold: the place, and the units that are painted.
fn print_bold<R: Print + AllocGlobal>(
    rt: &R,
    text: &str,
    attribs: &str,
    rows: &[(u32, u32)],
) -> Result<()> {
    let alloc = rt.alloc();
    let pool = bold_pool(alloc)?;
    let doc = document(alloc, text, attribs, &pool)?;
    println!(rt; "paintings of {text:?}")?;
    print_painted(rt, &pool, &doc, rows)
}

pub fn print<R: Print + AllocGlobal>(rt: &R) -> Result<()> {
    print_splices(
        rt,
        "ab\ncd\n",
        "|2+6",
        &[(4, 0, "x"), (1, 3, "x"), (6, 0, "x\ny"), (3, 0, "")],
    )?;
    print_splices(
        rt,
        "a😀\n",
        "|1+4",
        &[(2, 3, "x"), (2, 0, "x"), (0, 2, ""), (2, 0, "")],
    )
}

pub fn print_paintings<R: Print + AllocGlobal>(rt: &R) -> Result<()> {
    print_bold(rt, "ab\n", "|1+3", &[(0, 2), (1, 2), (1, 0)])?;
    print_bold(rt, "a😀\n", "|1+4", &[(3, 2), (1, 1), (2, 0)])
}

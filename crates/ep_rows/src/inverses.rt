//! What undoes changes.

use crate::changes::{bold_pool, change, document, spelled};
use anyhow::Result;
use ep_apply::{Doc, fits};
use ep_invert::invert;
use ep_pool::Pool;
use std::alloc::Global;

fn inverse(alloc: Global, pool: &Pool, doc: &Doc, text: &str) -> Result<String> {
    let change = change(alloc, text, pool)?;
    fits(doc, &change)?;
    let back = invert(alloc, &change, doc)?;
    spelled(alloc, &back, pool)
}

fn print_rows<R: Print + AllocGlobal>(
    rt: &R,
    pool: &Pool,
    doc: &Doc,
    changes: &[&str],
) -> Result<()> {
    for change in changes {
        let answer = inverse(rt.alloc(), pool, doc, change)?;
        println!(rt; "{change:?}: {answer:?}")?;
    }
    Ok(())
}

/// Changes of a document, each with what undoes it.
fn print_inverses<R: Print + AllocGlobal>(
    rt: &R,
    text: &str,
    attribs: &str,
    changes: &[&str],
) -> Result<()> {
    let alloc = rt.alloc();
    let pool = bold_pool(alloc)?;
    let doc = document(alloc, text, attribs, &pool)?;
    println!(rt; "inverses on {text:?} {attribs}")?;
    print_rows(rt, &pool, &doc, changes)
}

pub fn print<R: Print + AllocGlobal>(rt: &R) -> Result<()> {
    print_inverses(
        rt,
        "ab\n",
        "|1+3",
        &["Z:3>1=1+1$X", "Z:3<1-1$", "Z:3>0*0=2$", "Z:3>0*1=2$"],
    )?;
    print_inverses(
        rt,
        "ab\n",
        "*0+1|1+2",
        &["Z:3>0*0=2$", "Z:3>0*1=2$", "Z:3<2-2$"],
    )
}

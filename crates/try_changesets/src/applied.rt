//! Changes that are made to documents.

use ep_apply::{Doc, apply, documents_stay, fits};
use ep_cs::{Change, FitBad};
use ep_units::NoMemory;
use std::alloc::Global;
use std::test::Fail;

/// A newline, as units.
const NEWLINE: [u16; 1] = [10];

fn is_text(alloc: Global, doc: &Doc, text: &[u16]) -> Result<bool, NoMemory> {
    Ok(doc.text(alloc)?.as_slice() == text)
}

/// Whether a change fits a document and makes one of that text.
fn makes(alloc: Global, doc: &Doc, change: &Change, text: &[u16]) -> Result<bool, NoMemory> {
    match fits(doc, change) {
        Ok(()) => is_text(alloc, &apply(alloc, doc, change)?, text),
        Err(_) => Ok(false),
    }
}

fn copied_newline(alloc: Global) -> Result<Doc, NoMemory> {
    let doc = Doc::newline(alloc)?;
    doc.copy(alloc)
}

fn fits_identity(alloc: Global, doc: &Doc, units: u32) -> Result<(), FitBad> {
    fits(doc, &Change::identity(alloc, units))
}

fn keeps_newline(alloc: Global, doc: &Doc) -> Result<bool, NoMemory> {
    makes(alloc, doc, &Change::identity(alloc, 1), &NEWLINE)
}

#[test]
fn nothing_altered(rt: HostRuntime) -> Result<(), Fail> {
    let alloc = rt.alloc();
    let doc = copied_newline(alloc)?;
    assert_eq!(rt; fits_identity(alloc, &doc, 6), Err(FitBad::OldLen(1, 6)));
    assert!(rt; keeps_newline(alloc, &doc)?);
    Ok(())
}

/// The change that inserts a newline.
fn insertion(alloc: Global) -> Result<Change, NoMemory> {
    let doc = Doc::newline(alloc)?;
    doc.as_insert(alloc)
}

fn makes_newline(alloc: Global, change: &Change) -> Result<bool, NoMemory> {
    documents_stay();
    makes(alloc, &Doc::empty(alloc), change, &NEWLINE)
}

#[test]
fn inserted(rt: HostRuntime) -> Result<(), Fail> {
    let change = insertion(rt.alloc())?;
    assert_eq!(rt; change.old_len(), 0);
    assert!(rt; makes_newline(rt.alloc(), &change)?);
    Ok(())
}

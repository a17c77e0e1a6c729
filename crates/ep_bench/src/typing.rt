//! A history of typing, in steps.

ghost use Rattle.std.specs.Prelude.{IfOk};
ghost use Rattle.ep_cs.specs.Fits.{Fits};
ghost use Rattle.ep_cs.specs.Made.{AreMade};

use crate::data::{AUTHORS, document};
use crate::draws::Draws;
use crate::work::{authors, doc};
use anyhow::{Result, anyhow};
use ep_apply::{Doc, apply};
use ep_attr::AttrMap;
use ep_cs::{Change, MOST_UNITS};
use ep_invert::splice;
use ep_slider::slide;
use ep_units::Units;
use std::alloc::Global;

/// How many letters are typed.
const LETTERS: u32 = 10_000;

/// How many of them stand together.
const BURST: u32 = 20;

/// How many are one step.
const STEP: u32 = 100;

/// A letter at a place of a document.
pub fn letter(alloc: Global, doc: &Doc, at: u32) -> Result<Change>
    ensures { IfOk result (λ change. Fits change doc.now) }
{
    let text = Units::from_str(alloc, "x")?;
    if doc.len() == MOST_UNITS || text.len() > 1 {
        return Err(anyhow!("the document is too long"));
    }
    Ok(splice(alloc, doc, at, 0, &text, &AttrMap::none(alloc))?)
}

/// Letters that are typed into a document, as many as are wanted.
fn typed(alloc: Global, doc: &Doc, draws: &mut Draws) -> Result<Vec<Change>>
    ensures { IfOk result (λ changes. AreMade doc.now changes.items) }
{
    let mut changes = Vec::new(alloc);
    let mut now = doc.copy(alloc)?;
    let mut at = 0;
    for i in 0..LETTERS {
        if i % BURST == 0 {
            at = draws.pick((now.len() as usize).max(1)) as u32;
        }
        let change = letter(alloc, &now, at)?;
        now = apply(alloc, &now, &change)?;
        changes.push(change)?;
        at = at.saturating_add(1);
    }
    Ok(changes)
}

pub fn slide_typing(alloc: Global, units: u32, count: u32) -> Result<u64> {
    let mut draws = Draws::new(7);
    let pool = authors(alloc, AUTHORS)?;
    let text = document(alloc, units as usize, &mut draws)?;
    let doc = doc(alloc, &text, &pool, text.len())?;
    let changes = typed(alloc, &doc, &mut draws)?;
    let mut sum: u64 = 0;
    for _ in 0..count {
        let slides = slide(alloc, &doc, &changes, STEP)?;
        sum = sum.wrapping_add(slides.forward.len() as u64);
    }
    Ok(sum)
}

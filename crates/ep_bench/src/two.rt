//! Operations on two changes and more.

ghost use Rattle.std.specs.Prelude.{IfOk};
ghost use Rattle.std.specs.List.{All};
ghost use Rattle.ep_cs.specs.Edit.{apply};
ghost use Rattle.ep_cs.specs.Fits.{Fits};
ghost use Rattle.ep_cs.specs.Made.{AreMade};

use crate::data::{AUTHORS, document, edit};
use crate::draws::Draws;
use crate::work::{DOC_EDITS, authors, doc, fitting_edits, read_one};
use anyhow::{Result, anyhow};
use ep_apply::{Doc, apply, fits};
use ep_compose::compose;
use ep_cs::{Change, First};
use ep_follow::{follow, rebase};
use ep_pool::Pool;
use std::alloc::Global;

/// How many changes one is brought behind.
const SINCE: usize = 1000;

/// Two changes, of which the second is for what the first makes.
#[derive(Drop)]
struct Chained {
    first: Change,
    second: Change,
}

/// A small edit that fits a document.
fn fitting_edit(alloc: Global, doc: &Doc, pool: &Pool, draws: &mut Draws) -> Result<Change>
    ensures { IfOk result (λ change. Fits change doc.now) }
{
    let text = edit(alloc, doc.text(alloc)?.as_slice(), draws)?;
    let change = read_one(alloc, &text, pool)?;
    match fits(doc, &change) {
        Ok(()) => Ok(change),
        Err(_) => Err(anyhow!("an edit doesn't fit")),
    }
}

fn pairs_of(alloc: Global, doc: &Doc, pool: &Pool, draws: &mut Draws) -> Result<Vec<Chained>>
    ensures { IfOk result (λ pairs. All (λ pair. Fits pair.first doc.now × Fits pair.second (apply pair.first.edit doc.now)) pairs.items) }
{
    let mut pairs = Vec::new(alloc);
    for _ in 0..DOC_EDITS {
        let first = fitting_edit(alloc, doc, pool, draws)?;
        let after = apply(alloc, doc, &first)?;
        let second = fitting_edit(alloc, &after, pool, draws)?;
        pairs.push(Chained { first, second })?;
    }
    Ok(pairs)
}

pub fn compose_edits(alloc: Global, units: u32, count: u32) -> Result<u64> {
    let mut draws = Draws::new(7);
    let pool = authors(alloc, AUTHORS)?;
    let text = document(alloc, units as usize, &mut draws)?;
    let doc = doc(alloc, &text, &pool, text.len())?;
    let pairs = pairs_of(alloc, &doc, &pool, &mut draws)?;
    let mut sum: u64 = 0;
    for i in 0..count as usize {
        if let Some(pair) = pairs.get(i % DOC_EDITS) {
            let both = compose(alloc, &pair.first, &pair.second)?;
            sum = sum.wrapping_add(u64::from(both.new_len()));
        }
    }
    Ok(sum)
}

pub fn follow_edits(alloc: Global, units: u32, count: u32) -> Result<u64> {
    let mut draws = Draws::new(7);
    let pool = authors(alloc, AUTHORS)?;
    let text = document(alloc, units as usize, &mut draws)?;
    let doc = doc(alloc, &text, &pool, text.len())?;
    let changes = fitting_edits(alloc, &doc, &pool, &mut draws)?;
    let mut sum: u64 = 0;
    for i in 0..count as usize {
        if let (Some(a), Some(b)) = (changes.get(i % DOC_EDITS), changes.get((i + 1) % DOC_EDITS)) {
            let behind = follow(alloc, a, b, First::A)?;
            sum = sum.wrapping_add(u64::from(behind.new_len()));
        }
    }
    Ok(sum)
}

/// Small edits that are made to a document one after another.
pub fn made_since(alloc: Global, doc: &Doc, pool: &Pool, draws: &mut Draws) -> Result<Vec<Change>>
    ensures { IfOk result (λ changes. AreMade doc.now changes.items) }
{
    let mut changes = Vec::new(alloc);
    let mut now = doc.copy(alloc)?;
    for _ in 0..SINCE {
        let change = fitting_edit(alloc, &now, pool, draws)?;
        now = apply(alloc, &now, &change)?;
        changes.push(change)?;
    }
    Ok(changes)
}

pub fn rebase_edits(alloc: Global, units: u32, count: u32) -> Result<u64> {
    let mut draws = Draws::new(7);
    let pool = authors(alloc, AUTHORS)?;
    let text = document(alloc, units as usize, &mut draws)?;
    let doc = doc(alloc, &text, &pool, text.len())?;
    let changes = fitting_edits(alloc, &doc, &pool, &mut draws)?;
    let since = made_since(alloc, &doc, &pool, &mut draws)?;
    let mut sum: u64 = 0;
    for i in 0..count as usize {
        if let Some(change) = changes.get(i % DOC_EDITS) {
            let behind = rebase(alloc, since.as_slice(), change.copy(alloc)?)?;
            sum = sum.wrapping_add(u64::from(behind.new_len()));
        }
    }
    Ok(sum)
}

//! A history of two insertions in steps.

ghost use Rattle.std.specs.Prelude.{◌∷◌, [], OnOk};
ghost use Rattle.ep_cs.specs.Made.{AreMade};

use crate::changes::{change, document, spelled};
use anyhow::Result;
use ep_apply::{Doc, apply, fits};
use ep_cs::Change;
use ep_pool::Pool;
use ep_slider::{SlideBad, Slides, slide};
use std::alloc::Global;

fn spelled_all(alloc: Global, changes: &[Change], pool: &Pool) -> Result<String> {
    let mut line = String::new(alloc);
    for change in changes {
        line.push_str(" ")?;
        let text = spelled(alloc, change, pool)?;
        line.push_str(text.as_str())?;
    }
    Ok(line)
}

fn forward_and_backward(alloc: Global, slides: &Slides, pool: &Pool) -> Result<String> {
    let forward = spelled_all(alloc, &slides.forward, pool)?;
    let backward = spelled_all(alloc, &slides.backward, pool)?;
    Ok(format!(in alloc;
        "forward{}, backward{}",
        forward.as_str(),
        backward.as_str()
    )?)
}

fn answer(alloc: Global, pool: &Pool, slides: Result<Slides, SlideBad>) -> Result<String> {
    match slides {
        Ok(slides) => forward_and_backward(alloc, &slides, pool),
        Err(why) => Ok(why.to_string(alloc)?),
    }
}

/// Sees whether a change fits a document, and another what it makes.
fn both_fit(alloc: Global, doc: &Doc, first: &Change, second: &Change) -> Result<()>
    ensures { OnOk result (AreMade doc.now (first.now ∷ second.now ∷ [])) }
{
    fits(doc, first)?;
    let after = apply(alloc, doc, first)?;
    fits(&after, second)?;
    Ok(())
}

/// The steps of so many changes each, or why there are none.
fn slid(alloc: Global, granularity: u32) -> Result<String> {
    let pool = Pool::new(alloc);
    let doc = document(alloc, "ab\n", "|1+3", &pool)?;
    let first = change(alloc, "Z:3>1=1+1$X", &pool)?;
    let second = change(alloc, "Z:4>1=2+1$Y", &pool)?;
    both_fit(alloc, &doc, &first, &second)?;
    let changes = [first, second];
    answer(alloc, &pool, slide(alloc, &doc, &changes, granularity))
}

pub fn print<R: Print + AllocGlobal>(rt: &R) -> Result<()> {
    println!(rt; "slides of \"Z:3>1=1+1$X\" and \"Z:4>1=2+1$Y\"")?;
    for granularity in [0, 1, 2, 100, 101] {
        let answer = slid(rt.alloc(), granularity)?;
        println!(rt; "{granularity}: {answer}")?;
    }
    Ok(())
}

//! A history in steps.

ghost use Rattle.std.specs.Prelude.{◌≡◌, ◌∷◌, suc, IfOk};
ghost use Rattle.ep_cs.specs.Doc.{Doc};
ghost use Rattle.ep_cs.specs.Edit.{apply};
ghost use Rattle.ep_cs.specs.Fits.{Fits};
ghost use Rattle.ep_cs.specs.Made.{AreMade};
ghost use Rattle.ep_slider.specs.Slides.{AreSlides, at_once, undone, slide_bad, refusal};

use crate::bad::SlideBad;
use ep_apply::{Doc, apply};
use ep_compose::compose;
use ep_cs::Change;
use ep_invert::invert;
use ep_units::NoMemory;
use std::alloc::Global;

/// The greatest number of changes in a step.
const MOST: u32 = 100;

/// The steps of a history, from its first to its last.
#[derive(Drop)]
pub struct Slides {
    /// One change for all of a step.
    pub forward: Vec<Change>,
    /// What undoes it.
    pub backward: Vec<Change>,
}

/// One step, and the document after it.
#[derive(Drop)]
struct Stepped {
    forward: Change,
    backward: Change,
    after: Doc,
}

/// One change for a change and those that are made after it.
fn at_once(alloc: Global, first: &Change, later: &[Change]) -> Result<Change, NoMemory>
    requires { (doc : Doc) × AreMade doc (first.now ∷ later.now) }
    ensures exact { IfOk result (λ c. (doc : Doc) → AreMade doc (first.now ∷ later.now) → c ≡ at_once doc first.now later.now) }
    ensures fits { IfOk result (λ c. (doc : Doc) → AreMade doc (first.now ∷ later.now) → Fits c doc) }
{
    let mut both = first.copy(alloc)?;
    for change in later {
        both = compose(alloc, &both, change)?;
    }
    Ok(both)
}

fn step(alloc: Global, doc: &Doc, first: &Change, later: &[Change]) -> Result<Stepped, NoMemory>
    requires { AreMade doc.now (first.now ∷ later.now) }
    ensures forward { IfOk result (λ s. s.forward ≡ at_once doc.now first.now later.now) }
    ensures backward { IfOk result (λ s. s.backward ≡ undone s.forward doc.now) }
    ensures after { IfOk result (λ s. s.after ≡ apply s.forward.edit doc.now) }
{
    let forward = at_once(alloc, first, later)?;
    Ok(Stepped {
        backward: invert(alloc, &forward, doc)?,
        after: apply(alloc, doc, &forward)?,
        forward,
    })
}

/// The changes made to a document one after another, in steps of `granularity`, of which the last may be shorter.
///
/// Each step is composed from its first change on; its document is kept until the next step has been made.
pub fn slide(
    alloc: Global,
    doc: &Doc,
    revs: &[Change],
    granularity: u32,
) -> Result<Slides, SlideBad>
    requires { AreMade doc.now revs.now }
    ensures slides { IfOk result (λ s. AreSlides granularity doc.now revs.now s.forward.items s.backward.items) }
    ensures refused { refusal result ≡ slide_bad granularity }
{
    if granularity == 0 || granularity > MOST {
        return Err(SlideBad::Granularity);
    }
    Ok(steps(alloc, doc, revs, granularity as usize - 1)?)
}

/// The steps of a first change and of at most so many later ones.
fn steps(alloc: Global, doc: &Doc, revs: &[Change], most: usize) -> Result<Slides, NoMemory>
    requires { AreMade doc.now revs.now }
    ensures { IfOk result (λ s. AreSlides (suc most) doc.now revs.now s.forward.items s.backward.items) }
{
    let mut forward = Vec::new(alloc);
    let mut backward = Vec::new(alloc);
    let mut now = doc.copy(alloc)?;
    let mut rest = revs;
    'steps: while let Some((first, later)) = rest.split_first() {
        let (later, left) = later.split_at(most.min(later.len()));
        let step = step(alloc, &now, first, later)?;
        forward.push(step.forward)?;
        backward.push(step.backward)?;
        now = step.after;
        rest = left;
    }
    Ok(Slides { forward, backward })
}

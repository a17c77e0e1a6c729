//! Calls on a document and on changes of it, each of which first sees whether the changes fit.

ghost use Rattle.std.specs.Prelude.{◌≡◌, IfOk, IfErr, OnOk};
ghost use Rattle.ep_cs.specs.Doc.{text_of};
ghost use Rattle.ep_cs.specs.Edit.{apply};
ghost use Rattle.ep_cs.specs.Change.{stamped};
ghost use Rattle.ep_cs.specs.Fits.{Fits};
ghost use Rattle.ep_cs.specs.Follow.{follow};
ghost use Rattle.ep_cs.specs.Rebase.{rebase};
ghost use Rattle.ep_cs.specs.Made.{AreMade, after_all, edits_of};
ghost use Rattle.ep_compose.specs.Composed.{composed};
ghost use Rattle.ep_follow.specs.Follows.{is_a};
ghost use Rattle.easysync.specs.Unfit.{IsUnfit, IsUnfitAfter, IsUnfitAmong, IsUnfitBehind, IsUnfitBeside};

use crate::calc_bad::CalcBad;
use ep_apply::{Doc, apply, fits};
use ep_compose::compose;
use ep_cs::{Change, First};
use ep_follow::{follow, rebase};
use std::alloc::Global;

/// The document after a change.
pub fn applied(alloc: Global, doc: &Doc, change: &Change) -> Result<Doc, CalcBad>
    ensures after { IfOk result (λ after. after ≡ apply change.now.edit doc.now) }
    ensures fits { OnOk result (Fits change.now doc.now) }
    ensures refused { IfErr result (λ why. IsUnfit why change.now doc.now) }
{
    fits(doc, change)?;
    Ok(apply(alloc, doc, change)?)
}

/// One change for two, of which the second is for what the first makes.
pub fn composed(
    alloc: Global,
    doc: &Doc,
    first: &Change,
    second: &Change,
) -> Result<Change, CalcBad>
    ensures change { IfOk result (λ c. c ≡ composed first.now second.now doc.now) }
    ensures first_fits { OnOk result (Fits first.now doc.now) }
    ensures second_fits { OnOk result (Fits second.now (apply first.now.edit doc.now)) }
    ensures refused { IfErr result (λ why. IsUnfitAfter why first.now second.now doc.now) }
{
    let after = applied(alloc, doc, first)?;
    fits(&after, second)?;
    Ok(compose(alloc, first, second)?)
}

/// The second of two changes of one document, as a change of what the first makes.
pub fn followed(
    alloc: Global,
    doc: &Doc,
    a: &Change,
    b: &Change,
    first: First,
) -> Result<Change, CalcBad>
    ensures change { IfOk result (λ c. c ≡ stamped (follow (is_a first) a.now.edit b.now.edit) (text_of (apply a.now.edit doc.now))) }
    ensures a_fits { OnOk result (Fits a.now doc.now) }
    ensures b_fits { OnOk result (Fits b.now doc.now) }
    ensures refused { IfErr result (λ why. IsUnfitBeside why a.now b.now doc.now) }
{
    fits(doc, a)?;
    fits(doc, b)?;
    Ok(follow(alloc, a, b, first)?)
}

/// Sees whether each of some changes fits what those before it make of a document.
pub fn all_fit(alloc: Global, doc: &Doc, changes: &[Change]) -> Result<(), CalcBad>
    ensures made { OnOk result (AreMade doc.now changes.now) }
    ensures refused { IfErr result (λ why. IsUnfitAmong why changes.now doc.now) }
{
    let mut now = doc.copy(alloc)?;
    for change in changes {
        now = applied(alloc, &now, change)?;
    }
    Ok(())
}

/// A late change of a document, brought behind changes that are made to the document one after another, each of which goes
/// first. Whether it fits is seen before theirs.
pub fn rebased(
    alloc: Global,
    doc: &Doc,
    late: &Change,
    through: &[Change],
) -> Result<Change, CalcBad>
    ensures change { IfOk result (λ c. c ≡ stamped (rebase (edits_of through.now) late.now.edit) (text_of (after_all doc.now through.now))) }
    ensures fits { OnOk result (Fits late.now doc.now) }
    ensures made { OnOk result (AreMade doc.now through.now) }
    ensures refused { IfErr result (λ why. IsUnfitBehind why late.now through.now doc.now) }
{
    fits(doc, late)?;
    all_fit(alloc, doc, through)?;
    Ok(rebase(alloc, through, late.copy(alloc)?)?)
}

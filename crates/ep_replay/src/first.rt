//! Which revision is a creation's, and which one gives a document its final newline.

ghost use Rattle.std.specs.Prelude.{◌≡◌, ◌↔◌, [], true, IfOk, IsTrue};
ghost use Rattle.ep_units.specs.Text.{is_well_formed};
ghost use Rattle.ep_units.specs.Clean.{clean};
ghost use Rattle.ep_cs.specs.Change.{stamped};
ghost use Rattle.ep_cs.specs.Doc.{text_of};
ghost use Rattle.ep_cs.specs.Fits.{Fits};
ghost use Rattle.ep_history.specs.History.{newline, newline_rev, nobody};
ghost use Rattle.ep_past.specs.Revisions.{IsFirst, IsLater};
ghost use Rattle.ep_step.specs.Texts.{first_edit};

use crate::same::{is_same, same_change};
use ep_apply::{Doc, fits};
use ep_cs::{Change, MOST_UNITS};
use ep_history::Rev;
use ep_step::{first_step, lacks_newline, newline_change};
use ep_units::{NoMemory, Units};
use std::alloc::Global;

fn is_nobodys(rev: &Rev) -> bool
    ensures { IsTrue result ↔ ((rev.now.author ≡ []) × (rev.now.session ≡ nobody)) }
{
    rev.author.is_empty() && rev.session.epoch == 0 && rev.session.count == 0
}

/// Whether cleaning leaves a text as it is.
fn is_clean(alloc: Global, text: &Units) -> Result<bool, NoMemory>
    ensures { IfOk result (λ is. IsTrue is ↔ (clean text.now ≡ text.now)) }
{
    let cleaned = text.clean(alloc)?;
    Ok(is_same(&cleaned, text))
}

/// Whether a creation with this text makes the change. Of 2^32 units or more memory is said to be wanting.
fn is_made(alloc: Global, text: &Units, change: &Change) -> Result<bool, NoMemory>
    requires { is_well_formed text.now ≡ true }
    ensures is { IfOk result (λ is. IsTrue is ↔ (change.now ≡ stamped (first_edit text.now) (text_of newline))) }
    ensures fits { IfOk result (λ is. IsTrue is → Fits change.now newline) }
{
    match first_step(alloc, text, u64::MAX) {
        Ok(step) => Ok(same_change(change, &step.edit.change)),
        Err(_) => Err(NoMemory),
    }
}

/// Whether a revision is a creation's.
pub fn is_first(alloc: Global, rev: &Rev) -> Result<bool, NoMemory>
    ensures is { IfOk result (λ is. IsTrue is ↔ IsFirst rev.now) }
    ensures fits { IfOk result (λ is. IsTrue is → Fits rev.now.change newline) }
{
    let text = rev.change.bank();
    if !is_nobodys(rev) || !text.well_formed() || !is_clean(alloc, text)? {
        return Ok(false);
    }
    is_made(alloc, text, &rev.change)
}

/// Whether a revision gives a document of that time its final newline. Of 2^32 units or more memory is said to be wanting.
fn closes(alloc: Global, time: u64, doc: &Doc, rev: &Rev) -> Result<bool, NoMemory>
    ensures { IfOk result (λ is. IsTrue is ↔ (rev.now ≡ newline_rev time doc.now)) }
{
    if !is_nobodys(rev) || rev.time != time {
        return Ok(false);
    }
    if doc.len() == MOST_UNITS {
        return Err(NoMemory);
    }
    let change = newline_change(alloc, doc)?;
    Ok(same_change(&rev.change, &change))
}

/// Whether a revision that fits may stand behind a document of that time.
fn is_behind(alloc: Global, time: u64, doc: &Doc, rev: &Rev) -> Result<bool, NoMemory>
    requires { Fits rev.now.change doc.now }
    ensures { IfOk result (λ is. IsTrue is ↔ IsLater time doc.now rev.now) }
{
    let _normal = rev.change.ops();
    if lacks_newline(doc) {
        return closes(alloc, time, doc, rev);
    }
    Ok(true)
}

fn is_fitting(doc: &Doc, change: &Change) -> bool
    ensures { IsTrue result ↔ Fits change.now doc.now }
{
    fits(doc, change).is_ok()
}

/// Whether a revision may stand behind a document of that time.
pub fn is_later(alloc: Global, time: u64, doc: &Doc, rev: &Rev) -> Result<bool, NoMemory>
    ensures { IfOk result (λ is. IsTrue is ↔ IsLater time doc.now rev.now) }
{
    if is_fitting(doc, &rev.change) {
        return is_behind(alloc, time, doc, rev);
    }
    Ok(false)
}

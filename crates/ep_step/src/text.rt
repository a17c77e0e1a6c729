//! The server's texts: the first of a birth, and one that is set.

ghost use Rattle.std.specs.Prelude.{◌≡◌, ◌+◌, ◌<◌, ◌^◌, true, false, nat_lt, length, IfOk, ◌≤◌};
ghost use Rattle.ep_units.specs.Text.{is_well_formed};
ghost use Rattle.ep_units.specs.Clean.{clean};
ghost use Rattle.ep_cs.specs.Doc.{text_of};
ghost use Rattle.ep_cs.specs.Change.{stamped};
ghost use Rattle.ep_cs.specs.Fits.{Fits};
ghost use Rattle.ep_cs.specs.Plain.{plain};
ghost use Rattle.ep_history.specs.History.{lacks_newline, newline};
ghost use Rattle.ep_history.specs.Pad.{PadState};
ghost use Rattle.ep_history.specs.Server.{create_fault, set_edit, set_fault};
ghost use Rattle.ep_history.specs.Refusals.{fault_if};
ghost use Rattle.ep_history.specs.declared.pad_bad.PadBad.TheVariants.{TooLong};
ghost use Rattle.ep_step.specs.Answers.{Refuses};
ghost use Rattle.ep_step.specs.Step.{step_of};
ghost use Rattle.ep_step.specs.Taking.{IsHeadOf};
ghost use Rattle.ep_step.specs.Texts.{first_edit, lacking};

use crate::splicing::plain_splice;
use crate::step::Step;
use crate::taking::Head;
use ep_apply::Doc;
use ep_cs::{Change, MOST_UNITS};
use ep_history::PadBad;
use ep_units::{NoMemory, Units, ends_in_newline};
use std::alloc::Global;

/// 1 where a text doesn't end in a newline.
fn lacking(text: &Units) -> u32
    ensures { result ≡ lacking text.now }
{
    u32::from(!ends_in_newline(text.as_slice()))
}

/// The change that puts a text in the place of a document, of which the final newline stays where the text has none.
pub fn set_change(alloc: Global, doc: &Doc, text: &Units) -> Result<Change, NoMemory>
    requires text { is_well_formed text.now ≡ true }
    requires line { lacks_newline doc.now ≡ false }
    requires short { length text.now + lacking text.now < 2 ^ 32 }
    ensures change { IfOk result (λ c. c ≡ stamped (set_edit text.now doc.now) (text_of doc.now)) }
    ensures fits { IfOk result (λ c. Fits c doc.now) }
{
    let _document = doc.reading();
    plain_splice(alloc, doc, 0, doc.len() - lacking(text), text)
}

/// The first step of a birth, which inserts a text, cleaned, into one newline. Of 2^32 units or more memory is said to be
/// wanting.
pub fn first_step(alloc: Global, text: &Units, limit: u64) -> Result<Step, PadBad>
    requires { is_well_formed text.now ≡ true }
    ensures made { IfOk result (λ step. step ≡ step_of (first_edit text.now) newline) }
    ensures refused { (pad : PadState) → limit ≡ pad.limits.units → pad.present ≡ false
        → Refuses (create_fault pad text.now) result }
    ensures fits { IfOk result (λ step. Fits step.edit.change newline) }
{
    let text = text.clean(alloc)?;
    fits_limit(&text, 1, limit)?;
    let newline = Doc::newline(alloc)?;
    let change = plain_splice(alloc, &newline, 0, 0, &text)?;
    Ok(Step::new(alloc, &newline, change)?)
}

/// Whether a text with so many more units is within a limit, and can be held.
fn fits_limit(text: &Units, more: u32, limit: u64) -> Result<(), PadBad>
    requires { more ≤ 1 }
    ensures refused { let units = length text.now + more in Refuses (fault_if (nat_lt limit units) (TooLong units)) result }
    ensures short { IfOk result (λ _. length text.now + more < 2 ^ 32) }
{
    let Some(units) = (text.len() as u64).checked_add(u64::from(more)) else {
        return Err(PadBad::NoMemory);
    };
    if units > limit {
        return Err(PadBad::TooLong(units));
    }
    if units > u64::from(MOST_UNITS) {
        return Err(PadBad::NoMemory);
    }
    Ok(())
}

impl Head<'_> {
    /// The step that sets the server's text, cleaned. The head ends in a newline, as each head of a birth does. Of 2^32
    /// units or more memory is said to be wanting.
    pub fn set_text(&self, alloc: Global, text: &Units) -> Result<Step, PadBad>
        requires text { is_well_formed text.now ≡ true }
        requires line { lacks_newline self.now.doc.now ≡ false }
        ensures made { let doc = self.now.doc.now in IfOk result (λ step. step ≡ step_of (set_edit (clean text.now) doc) doc) }
        ensures refused { (pad : PadState) → IsHeadOf self.now pad → pad.present ≡ true → Refuses (set_fault pad text.now) result }
        ensures fits { IfOk result (λ step. Fits step.edit.change self.now.doc.now) }
    {
        let text = text.clean(alloc)?;
        fits_limit(&text, lacking(&text), self.limit)?;
        let change = set_change(alloc, self.doc, &text)?;
        Ok(Step::new(alloc, self.doc, change)?)
    }
}

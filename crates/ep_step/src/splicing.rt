//! Splices that nothing refuses.

ghost use Rattle.std.specs.Prelude.{◌≡◌, ◌+◌, ◌-◌, ◌≤◌, ◌<◌, ◌^◌, true, length, IfOk};
ghost use Rattle.ep_units.specs.Text.{is_well_formed};
ghost use Rattle.ep_cs.specs.Doc.{text_of};
ghost use Rattle.ep_cs.specs.Change.{stamped};
ghost use Rattle.ep_cs.specs.Fits.{Fits, keeps_pairs};
ghost use Rattle.ep_cs.specs.Plain.{plain};
ghost use Rattle.ep_cs.specs.Splice.{splice};

use ep_apply::Doc;
use ep_attr::AttrMap;
use ep_cs::Change;
use ep_invert::{SpliceBad, splice};
use ep_units::{NoMemory, Units};
use std::alloc::Global;

/// A text without attributes in the place of `n` units from `at` on, where that cuts no pair.
pub fn plain_splice(
    alloc: Global,
    doc: &Doc,
    at: u32,
    n: u32,
    text: &Units,
) -> Result<Change, NoMemory>
    requires text { is_well_formed text.now ≡ true }
    requires inside { at + n ≤ length doc.now }
    requires short { length doc.now - n + length text.now < 2 ^ 32 }
    requires pairs { keeps_pairs (splice (length doc.now) at n (plain text.now)).places (text_of doc.now) ≡ true }
    ensures change { IfOk result (λ c. c ≡ stamped (splice (length doc.now) at n (plain text.now)) (text_of doc.now)) }
    ensures fits { IfOk result (λ c. Fits c doc.now) }
{
    let attrs = AttrMap::none(alloc);
    match splice(alloc, doc, at, n, text, &attrs) {
        Ok(change) => Ok(change),
        Err(SpliceBad::NoMemory) => Err(NoMemory),
        Err(SpliceBad::Place) => unreachable!(),
        Err(SpliceBad::CutsPair(_)) => unreachable!(),
    }
}

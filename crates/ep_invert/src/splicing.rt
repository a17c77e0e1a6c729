//! A text in the place of a stretch.

ghost use Rattle.std.specs.Prelude.{◌≡◌, ◌+◌, ◌-◌, ◌≤◌, ◌<◌, ◌^◌, true, length, IfOk, MatchBool};
ghost use Rattle.ep_units.specs.Text.{is_well_formed};
ghost use Rattle.ep_attr.specs.AttrMap.{none, after};
ghost use Rattle.ep_cs.specs.Doc.{text_of};
ghost use Rattle.ep_cs.specs.Runs.{cells};
ghost use Rattle.ep_cs.specs.Change.{stamped};
ghost use Rattle.ep_cs.specs.Fits.{Fits};
ghost use Rattle.ep_cs.specs.Splice.{splice};
ghost use Rattle.ep_invert.specs.Refusal.{refusal, splice_bad};

use crate::bad::SpliceBad;
use crate::stretch::{Stretch, find};
use crate::writing::{drop_next, insert_text, keep_next};
use ep_apply::Doc;
use ep_attr::AttrMap;
use ep_cs::{Builder, Change};
use ep_units::{NoMemory, Units};
use std::alloc::Global;

/// A text in the place of a stretch of a document.
fn spliced(
    alloc: Global,
    doc: &Doc,
    stretch: Stretch,
    text: &[u16],
    attrs: &AttrMap,
) -> Result<Change, NoMemory>
    requires order { stretch.at ≤ stretch.end }
    requires inside { stretch.end ≤ length doc.now }
    requires short { length doc.now - (stretch.end - stretch.at) + length text.now < 2 ^ 32 }
    requires text { is_well_formed text.now ≡ true }
    ensures { IfOk result (λ c. c ≡ stamped (splice (length doc.now) stretch.at (stretch.end - stretch.at) (cells (after none attrs.now) text.now)) (text_of doc.now)) }
{
    let mut out = Builder::new(alloc, doc.len());
    let mut rest = doc.passing();
    let as_it_is = AttrMap::none(alloc);
    keep_next(&mut out, &mut rest, stretch.at, &as_it_is)?;
    drop_next(&mut out, &mut rest, stretch.end - stretch.at)?;
    insert_text(&mut out, text, attrs)?;
    out.finish()
}

/// Whether something is dropped or inserted.
fn replaces(n: u32, text: &Units) -> bool
    ensures { MatchBool result (1 ≤ n + length text.now) (n + length text.now ≡ 0) }
{
    n > 0 || text.len() > 0
}

/// The change that puts a text, with a map, in the place of `n` units from `at` on.
///
/// It passes the document's blocks up to the stretch's end; what is behind takes no time.
pub fn splice(
    alloc: Global,
    doc: &Doc,
    at: u32,
    n: u32,
    text: &Units,
    attrs: &AttrMap,
) -> Result<Change, SpliceBad>
    requires text { is_well_formed text.now ≡ true }
    requires short { at + n ≤ length doc.now → length doc.now - n + length text.now < 2 ^ 32 }
    ensures change { IfOk result (λ c. c ≡ stamped (splice (length doc.now) at n (cells (after none attrs.now) text.now)) (text_of doc.now)) }
    ensures fits { IfOk result (λ c. Fits c doc.now) }
    ensures refused { refusal result ≡ splice_bad (splice (length doc.now) at n (cells (after none attrs.now) text.now)) (at + n) doc.now }
{
    let stretch = find(doc, at, n, replaces(n, text))?;
    Ok(spliced(alloc, doc, stretch, text.as_slice(), attrs)?)
}

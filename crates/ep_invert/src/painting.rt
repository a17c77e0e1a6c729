//! Attributes on a stretch.

ghost use Rattle.std.specs.Prelude.{◌≡◌, ◌+◌, ◌-◌, ◌≤◌, ◌<◌, ◌^◌, true, false, length, IfOk, MatchBool, ◌⊎◌};
ghost use Rattle.ep_attr.specs.AttrMap.{is_none};
ghost use Rattle.ep_cs.specs.Doc.{text_of};
ghost use Rattle.ep_cs.specs.Change.{stamped};
ghost use Rattle.ep_cs.specs.Fits.{Fits};
ghost use Rattle.ep_invert.specs.Paint.{paint};
ghost use Rattle.ep_invert.specs.Refusal.{refusal, splice_bad};

use crate::bad::SpliceBad;
use crate::stretch::{Stretch, find};
use crate::writing::keep_next;
use ep_apply::Doc;
use ep_attr::AttrMap;
use ep_cs::{Builder, Change};
use ep_units::NoMemory;
use std::alloc::Global;

/// Attributes on a stretch of a document.
fn painted(alloc: Global, doc: &Doc, stretch: Stretch, attrs: &AttrMap) -> Result<Change, NoMemory>
    requires order { stretch.at ≤ stretch.end }
    requires inside { stretch.end ≤ length doc.now }
    ensures { IfOk result (λ c. c ≡ stamped (paint (length doc.now) stretch.at (stretch.end - stretch.at) attrs.now) (text_of doc.now)) }
{
    let mut out = Builder::new(alloc, doc.len());
    let mut rest = doc.passing();
    let as_it_is = AttrMap::none(alloc);
    keep_next(&mut out, &mut rest, stretch.at, &as_it_is)?;
    keep_next(&mut out, &mut rest, stretch.end - stretch.at, attrs)?;
    out.finish()
}

/// Whether some unit is given some attribute.
fn paints(n: u32, attrs: &AttrMap) -> bool
    ensures { MatchBool result ((1 ≤ n) × (is_none attrs.now ≡ false)) ((n ≡ 0) ⊎ (is_none attrs.now ≡ true)) }
{
    n > 0 && !attrs.is_none()
}

/// The change that sets attributes on `n` units from `at` on, of which an empty value removes one.
///
/// It passes the document's blocks up to the stretch's end; what is behind takes no time.
pub fn paint(
    alloc: Global,
    doc: &Doc,
    at: u32,
    n: u32,
    attrs: &AttrMap,
) -> Result<Change, SpliceBad>
    ensures change { IfOk result (λ c. c ≡ stamped (paint (length doc.now) at n attrs.now) (text_of doc.now)) }
    ensures fits { IfOk result (λ c. Fits c doc.now) }
    ensures refused { refusal result ≡ splice_bad (paint (length doc.now) at n attrs.now) (at + n) doc.now }
{
    let stretch = find(doc, at, n, paints(n, attrs))?;
    Ok(painted(alloc, doc, stretch, attrs)?)
}

//! The final newline, which each step keeps or gives.

ghost use Rattle.std.specs.Prelude.{◌≡◌, ◌+◌, ◌<◌, ◌^◌, length, IfOk};
ghost use Rattle.ep_cs.specs.Doc.{text_of};
ghost use Rattle.ep_cs.specs.Change.{stamped};
ghost use Rattle.ep_cs.specs.Fits.{Fits};
ghost use Rattle.ep_history.specs.History.{lacks_newline, newline_edit};

use crate::splicing::plain_splice;
use ep_apply::Doc;
use ep_cs::Change;
use ep_units::{NoMemory, Units};
use std::alloc::Global;

/// The unit of a newline.
const NEWLINE: u16 = 10;

/// Whether a document doesn't end in a newline.
pub fn lacks_newline(doc: &Doc) -> bool
    ensures { result ≡ lacks_newline doc.now }
{
    doc.len() == 0 || !doc.is_whole_lines()
}

/// The change that gives a document a final newline.
pub fn newline_change(alloc: Global, doc: &Doc) -> Result<Change, NoMemory>
    requires { length doc.now + 1 < 2 ^ 32 }
    ensures change { IfOk result (λ c. c ≡ stamped (newline_edit (length doc.now)) (text_of doc.now)) }
    ensures fits { IfOk result (λ c. Fits c doc.now) }
{
    let _document = doc.reading();
    let text = Units::from_slice(alloc, &[NEWLINE])?;
    plain_splice(alloc, doc, doc.len(), 0, &text)
}

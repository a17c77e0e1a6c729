//! What undoes a change.

ghost use Rattle.std.specs.Prelude.{◌≡◌, IfOk};
ghost use Rattle.ep_cs.specs.Doc.{text_of};
ghost use Rattle.ep_cs.specs.Edit.{apply};
ghost use Rattle.ep_cs.specs.Change.{stamped};
ghost use Rattle.ep_cs.specs.Fits.{Fits};
ghost use Rattle.ep_invert.specs.Inverse.{inverse};

use crate::undoing::undo;
use ep_apply::Doc;
use ep_cs::{Builder, Change};
use ep_cursor::Cursor;
use ep_units::NoMemory;
use std::alloc::Global;

/// The change that undoes a change that fits a document. It fits the document after the change, and gives the
/// document back.
///
/// It takes time in the runs of the change, the stretches of the document up to its last run, and the units that
/// are dropped or kept with attributes.
pub fn invert(alloc: Global, change: &Change, doc: &Doc) -> Result<Change, NoMemory>
    requires { Fits change.now doc.now }
    ensures change { IfOk result (λ c. c ≡ stamped (inverse change.now.edit doc.now) (text_of (apply change.now.edit doc.now))) }
    ensures fits { IfOk result (λ c. Fits c (apply change.now.edit doc.now)) }
    ensures undoes { IfOk result (λ c. apply c.edit (apply change.now.edit doc.now) ≡ doc.now) }
{
    let mut out = Builder::new(alloc, change.new_len());
    let mut runs = Cursor::new(change);
    let mut rest = doc.reading();
    'runs: while let Some(run) = runs.head() {
        undo(alloc, &mut out, &mut rest, &run)?;
        runs.advance(run.units, run.lines);
    }
    out.finish()
}

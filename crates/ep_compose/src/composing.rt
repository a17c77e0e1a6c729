//! The composition of two changes.

ghost use Rattle.std.specs.Prelude.{◌≡◌, IfOk};
ghost use Rattle.ep_cs.specs.Doc.{Doc};
ghost use Rattle.ep_cs.specs.Edit.{apply};
ghost use Rattle.ep_cs.specs.Fits.{Fits};
ghost use Rattle.ep_compose.specs.Composed.{composed};

use crate::step::step;
use ep_cs::{Builder, Change};
use ep_cursor::Cursor;
use ep_units::NoMemory;
use std::alloc::Global;

/// The one change that does what two changes do one after the other, where the first fits some document and the
/// second fits what it makes of it. It fits every such document.
///
/// It takes time in the runs and the inserted units of the two, whatever the length of the document.
pub fn compose(alloc: Global, first: &Change, second: &Change) -> Result<Change, NoMemory>
    requires { (doc : Doc) × Fits first.now doc × Fits second.now (apply first.now.edit doc) }
    ensures both { IfOk result (λ c. (doc : Doc) → Fits first.now doc → Fits second.now (apply first.now.edit doc) → c ≡ composed first.now second.now doc) }
    ensures fits { IfOk result (λ c. (doc : Doc) → Fits first.now doc → Fits second.now (apply first.now.edit doc) → Fits c doc) }
{
    let runs = first.ops().len().saturating_add(second.ops().len());
    let units = first.bank().len().saturating_add(second.bank().len());
    let mut out = Builder::with_capacity(alloc, first.old_len(), runs, units)?;
    let mut a = Cursor::new(first);
    let mut b = Cursor::new(second);
    let mut more = true;
    'pieces: while more {
        more = step(alloc, &mut out, &mut a, &mut b)?;
    }
    out.finish()
}

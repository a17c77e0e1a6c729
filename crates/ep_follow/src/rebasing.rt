//! A change of an old document, brought behind the changes made since.

ghost use Rattle.std.specs.Prelude.{◌≡◌, IfOk};
ghost use Rattle.ep_cs.specs.Doc.{Doc, text_of};
ghost use Rattle.ep_cs.specs.Change.{stamped};
ghost use Rattle.ep_cs.specs.Fits.{Fits};
ghost use Rattle.ep_cs.specs.Rebase.{rebase};
ghost use Rattle.ep_cs.specs.Made.{AreMade, after_all, edits_of};

use crate::following::follow;
use ep_cs::{Change, First};
use ep_units::NoMemory;
use std::alloc::Global;

/// A change of a document, brought behind the changes that were made to it since, one after another, each of which
/// goes first. It fits the document after them, of every document that they and the change fit.
pub fn rebase(alloc: Global, since: &[Change], change: Change) -> Result<Change, NoMemory>
    requires { (doc : Doc) × AreMade doc since.now × Fits change doc }
    ensures exact { IfOk result (λ c. (doc : Doc) → AreMade doc since.now → Fits change doc → c ≡ stamped (rebase (edits_of since.now) change.edit) (text_of (after_all doc since.now))) }
    ensures fits { IfOk result (λ c. (doc : Doc) → AreMade doc since.now → Fits change doc → Fits c (after_all doc since.now)) }
{
    let mut behind = change;
    for made in since {
        behind = follow(alloc, made, &behind, First::A)?;
    }
    Ok(behind)
}

//! An edit of an old revision, brought to the head.

ghost use Rattle.std.specs.Prelude.{◌≡◌, IfOk};
ghost use Rattle.ep_cs.specs.Doc.{Doc, text_of};
ghost use Rattle.ep_cs.specs.Change.{stamped};
ghost use Rattle.ep_cs.specs.Fits.{Fits};
ghost use Rattle.ep_cs.specs.Made.{AreMade};
ghost use Rattle.ep_history.specs.History.{made, rebased};
ghost use Rattle.ep_step.specs.Changes.{changes_of};

use ep_cs::{Change, First};
use ep_follow::follow;
use ep_history::Rev;
use ep_units::NoMemory;
use std::alloc::Global;

/// A change of a document, brought behind the revisions that were made since, each of which goes first. It fits the
/// document after them, of every document that they and the change fit.
pub fn rebased(alloc: Global, since: &[Rev], change: Change) -> Result<Change, NoMemory>
    requires { (doc : Doc) × AreMade doc (changes_of since.now) × Fits change doc }
    ensures exact { IfOk result (λ c. (doc : Doc) → AreMade doc (changes_of since.now) → Fits change doc
        → c ≡ stamped (rebased since.now change.edit) (text_of (made doc since.now))) }
    ensures fits { IfOk result (λ c. (doc : Doc) → AreMade doc (changes_of since.now) → Fits change doc → Fits c (made doc since.now)) }
{
    let mut behind = change;
    for rev in since {
        behind = follow(alloc, &rev.change, &behind, First::A)?;
    }
    Ok(behind)
}

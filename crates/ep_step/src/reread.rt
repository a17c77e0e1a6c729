//! Revisions that are read back from a journal.

ghost use Rattle.std.specs.Prelude.{◌≡◌, ◌↔◌, ℕ, true, IfOk, IsSome, IfSome};
ghost use Rattle.ep_units.specs.Text.{Text};
ghost use Rattle.ep_units.specs.declared.session.Session.{Session};
ghost use Rattle.ep_cs.specs.Fits.{Fits};
ghost use Rattle.ep_history.specs.History.{head_doc};
ghost use Rattle.ep_history.specs.Pad.{PadState, newest};
ghost use Rattle.ep_history.specs.Records.{IsNext};
ghost use Rattle.ep_history.specs.declared.record.Record.TheVariants as record_of;
ghost use Rattle.ep_step.specs.Step.{step_of};

use crate::newline::lacks_newline;
use crate::step::{Made, Step};
use ep_apply::{Doc, fits};
use ep_cs::Change;
use ep_units::NoMemory;
use std::alloc::Global;

/// The step that a revision's record tells of a head, where it may come next: its change fits the head, and `fixed` says
/// that the result lacks the final newline. Of a document of 2^32 units or more memory is said to be wanting.
pub fn next_step(
    alloc: Global,
    head: &Doc,
    change: Change,
    fixed: bool,
) -> Result<Option<Step>, NoMemory>
    ensures next { (pad : PadState) (session : Session) (time : ℕ) (author : Text) → head.now ≡ head_doc (newest pad) → pad.present ≡ true
        → IfOk result (λ step. IsSome step ↔ IsNext pad (record_of.Rev session time author fixed change)) }
    ensures step { IfOk result (λ step. IfSome step (λ s. s ≡ step_of change.edit head.now)) }
    ensures fits { IfOk result (λ step. IfSome step (λ s. Fits s.edit.change head.now)) }
{
    let _normal = change.ops();
    if fits(head, &change).is_err() {
        return Ok(None);
    }
    let edit = Made::new(alloc, head, change)?;
    if lacks_newline(&edit.doc) != fixed {
        return Ok(None);
    }
    Ok(Some(edit.closed(alloc, fixed)?))
}

//! The change that signs what another inserts.

ghost use Rattle.std.specs.Prelude.{◌≡◌, ◌↔◌, ◌+◌, ◌≤◌, false, IsNone, IfSome, IfOk, OnOk};
ghost use Rattle.ep_cs.specs.Doc.{Doc};
ghost use Rattle.ep_cs.specs.Edit.{apply};
ghost use Rattle.ep_cs.specs.Draft.{keeping};
ghost use Rattle.ep_cs.specs.Fits.{Fits};
ghost use Rattle.ep_cs.specs.Steps.{passed};
ghost use Rattle.ep_sign.specs.Signing.{inserts_another, naming, mark, signing};
ghost use Rattle.ep_sign.specs.Writing.{left, kept_run};

use crate::another::{inserts_another, names_author, naming};
use ep_attr::AttrMap;
use ep_cs::{Builder, Change, Kind, Op};
use ep_units::{NoMemory, Units};
use std::alloc::Global;

/// Keeps the units that an operation inserts, with one's own name where they have another's.
fn keep_new(out: &mut Builder, op: &Op, author: &Units, name: &AttrMap) -> Result<(), NoMemory>
    requires inside { passed out.old.steps + op.now.units ≤ out.old.old }
    requires lined { op.now.lines ≤ op.now.units }
    requires name { name.now ≡ naming author.now }
    ensures { OnOk result (out.new ≡ keeping out.old op.now.units op.now.lines (mark author.now op.now.attrs)) }
{
    if names_author(author, &op.attrs) {
        return out.keep_bare(op.units, op.lines);
    }
    out.keep(op.units, op.lines, name)
}

/// Keeps the units that an operation leaves.
fn keep_run(out: &mut Builder, op: &Op, author: &Units, name: &AttrMap) -> Result<(), NoMemory>
    requires inside { passed out.old.steps + left op.now.kind op.now.units ≤ out.old.old }
    requires lined { op.now.lines ≤ op.now.units }
    requires name { name.now ≡ naming author.now }
    ensures { OnOk result (out.new ≡ kept_run author.now op.now.kind op.now.units op.now.lines op.now.attrs out.old) }
{
    match op.kind {
        Kind::Keep => out.keep_bare(op.units, op.lines),
        Kind::Drop => Ok(()),
        Kind::Insert => keep_new(out, op, author, name),
    }
}

/// The change that signs what another change inserts.
fn written(alloc: Global, change: &Change, author: &Units) -> Result<Change, NoMemory>
    ensures edit { IfOk result (λ p. p.edit ≡ signing author.now change.now.edit) }
    ensures fits { IfOk result (λ p. (doc : Doc) → Fits change.now doc → Fits p (apply change.now.edit doc)) }
{
    let name = naming(alloc, author)?;
    let mut out = Builder::new(alloc, change.new_len());
    for op in change.ops() {
        keep_run(&mut out, op, author, &name)?;
    }
    out.finish()
}

/// The change of a change's result that sets `author` to one's own on each unit that the change inserts under another's
/// name, and leaves all others as they are; none where it inserts no such unit, which takes no memory.
///
/// It takes time in the operations of the change, whatever the length of the document.
pub fn signing(alloc: Global, change: &Change, author: &Units) -> Result<Option<Change>, NoMemory>
    ensures none { IfOk result (λ found. IsNone found ↔ (inserts_another author.now change.now.edit ≡ false)) }
    ensures edit { IfOk result (λ found. IfSome found (λ p. p.edit ≡ signing author.now change.now.edit)) }
    ensures fits { IfOk result (λ found. IfSome found (λ p. (doc : Doc) → Fits change.now doc → Fits p (apply change.now.edit doc))) }
{
    if !inserts_another(author, change) {
        return Ok(None);
    }
    Ok(Some(written(alloc, change, author)?))
}

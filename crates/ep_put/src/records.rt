//! The records of a birth's revisions.

ghost use Rattle.std.specs.Prelude.{◌≡◌, ◌++◌, ◌∷◌, [], None, false, length, IfErr, IfOk, OnOk, nat_lt};
ghost use Rattle.ep_cs.specs.Fits.{Fits};
ghost use Rattle.ep_cs.specs.Edit.{apply};
ghost use Rattle.ep_history.specs.History.{newline};
ghost use Rattle.ep_history.specs.declared.record.Record.TheVariants as record_of;
ghost use Rattle.ep_past.specs.Records.{first_records, later_records, public_records, records_of};
ghost use Rattle.ep_past.specs.Revisions.{AreRevisions};
ghost use Rattle.ep_put.specs.Putting.{first_long, history_records};
ghost use Rattle.ep_put.specs.Steps.{AllFit, IsTooLong, step_records};

use crate::bad::PutBad;
use ep_apply::{Doc, apply};
use ep_history::{Record, Rev};
use ep_step::lacks_newline;
use ep_units::NoMemory;
use std::alloc::Global;

/// So many units a pad's text may have.
const MOST_UNITS: u32 = 1_000_000;

/// The record of a revision, of which the document after it lacks its final newline or doesn't.
fn rev_record(alloc: Global, rev: &Rev, fixed: bool) -> Result<Record, NoMemory>
    ensures { IfOk result (λ r. r ≡ record_of.Rev rev.now.session rev.now.time rev.now.author fixed rev.now.change) }
{
    Ok(Record::Rev {
        session: rev.session,
        time: rev.time,
        author: rev.author.copy(alloc)?,
        fixed,
        change: rev.change.copy(alloc)?,
    })
}

/// The document after a revision, which isn't too long.
fn after(alloc: Global, doc: &Doc, rev: &Rev) -> Result<Doc, PutBad>
    requires { Fits rev.now.change doc.now }
    ensures after { IfOk result (λ after. after ≡ apply rev.now.change.edit doc.now) }
    ensures short { OnOk result (nat_lt 1000000 (length (apply rev.now.change.edit doc.now)) ≡ false) }
    ensures long { IfErr result (IsTooLong (first_long doc.now (rev.now ∷ []))) }
{
    let after = apply(alloc, doc, &rev.change)?;
    if after.len() > MOST_UNITS {
        return Err(PutBad::TooLong(u64::from(after.len())));
    }
    Ok(after)
}

/// Adds the record of a revision between two documents, unless it gives the first its final newline.
fn add(
    alloc: Global,
    doc: &Doc,
    after: &Doc,
    rev: &Rev,
    out: &mut Vec<Record>,
) -> Result<(), NoMemory>
    ensures { OnOk result (out.new.items ≡ out.old.items ++ step_records doc.now after.now rev.now) }
{
    if lacks_newline(doc) {
        return Ok(());
    }
    out.push(rev_record(alloc, rev, lacks_newline(after))?)?;
    Ok(())
}

/// Adds the records of revisions behind a document.
fn add_later(alloc: Global, first: Doc, revs: &[Rev], out: &mut Vec<Record>) -> Result<(), PutBad>
    requires { AllFit first revs.now }
    ensures records { OnOk result (out.new.items ≡ out.old.items ++ later_records first revs.now) }
    ensures short { OnOk result (first_long first revs.now ≡ None) }
    ensures long { IfErr result (IsTooLong (first_long first revs.now)) }
{
    let mut doc = first;
    for rev in revs {
        let next = after(alloc, &doc, rev)?;
        add(alloc, &doc, &next, rev, out)?;
        doc = next;
    }
    Ok(())
}

/// An opening, and the creation of a revision's text.
fn first(alloc: Global, rev: &Rev) -> Result<Vec<Record>, NoMemory>
    ensures { IfOk result (λ out. out.items ≡ first_records rev.now) }
{
    let mut out = Vec::new(alloc);
    let text = rev.change.bank().copy(alloc)?;
    out.push(Record::Open { epoch: 1 })?;
    out.push(Record::Create {
        birth: 1,
        time: rev.time,
        text,
    })?;
    Ok(out)
}

/// Adds the record of who may enter, where that isn't a group alone.
fn add_public(public: bool, out: &mut Vec<Record>) -> Result<(), NoMemory>
    ensures { OnOk result (out.new.items ≡ out.old.items ++ public_records public) }
{
    if public {
        out.push(Record::Public { on: true })?;
    }
    Ok(())
}

/// All records of a creation's revision and later ones.
fn all_records(alloc: Global, rev: &Rev, later: &[Rev], public: bool) -> Result<Vec<Record>, PutBad>
    requires { AreRevisions (rev.now ∷ later.now) }
    ensures records { IfOk result (λ out. out.items ≡ records_of rev.now later.now public) }
    ensures short { OnOk result (first_long newline (rev.now ∷ later.now) ≡ None) }
    ensures long { IfErr result (IsTooLong (first_long newline (rev.now ∷ later.now))) }
{
    let newline = Doc::newline(alloc)?;
    let doc = after(alloc, &newline, rev)?;
    let mut out = first(alloc, rev)?;
    add_later(alloc, doc, later, &mut out)?;
    add_public(public, &mut out)?;
    Ok(out)
}

/// All records of a history.
pub fn history_records(alloc: Global, revs: &[Rev], public: bool) -> Result<Vec<Record>, PutBad>
    requires { AreRevisions revs.now }
    ensures records { IfOk result (λ out. out.items ≡ history_records revs.now public) }
    ensures short { OnOk result (first_long newline revs.now ≡ None) }
    ensures long { IfErr result (IsTooLong (first_long newline revs.now)) }
{
    let Some((rev, later)) = revs.split_first() else {
        return Err(PutBad::NoMemory);
    };
    all_records(alloc, rev, later, public)
}

//! Revisions with their documents, sought with their steps.

ghost use Rattle.std.specs.Prelude.{◌≡◌, IfOk};
ghost use Rattle.ep_revs.specs.Revisions.{last_doc};

use ep_apply::{Doc, apply, fits};
use ep_cs::Change;
use ep_revs::{Rev, Revs, Steps, copies_of};
use ep_units::{NoMemory, Session, Units};
use std::alloc::Global;
use std::marker::Brand;
use std::sync::ledger::{Blank, Ledger};
use std::test::Fail;

/// One more revision, which alters nothing.
fn lengthen(alloc: Global, revs: &mut Revs, doc: &Doc) -> Result<Doc, NoMemory>
    requires { doc.now ≡ last_doc revs.old.revs }
    ensures { IfOk result (λ after. after ≡ last_doc revs.new.revs) }
{
    let change = Change::identity(alloc, doc.len());
    if fits(doc, &change).is_err() {
        return Err(NoMemory);
    }
    revs.reserve_two()?;
    let after = apply(alloc, doc, &change)?;
    let kept = after.copy(alloc)?;
    revs.push(
        Rev {
            change,
            author: Units::new(alloc),
            session: Session { epoch: 0, count: 0 },
            time: 7,
        },
        kept,
    );
    Ok(after)
}

/// So many revisions, each of which alters nothing.
fn revisions(alloc: Global, n: u32) -> Result<Revs, NoMemory> {
    let mut revs = Revs::new(alloc);
    let mut doc = Doc::newline(alloc)?;
    for _ in 0..n {
        doc = lengthen(alloc, &mut revs, &doc)?;
    }
    Ok(revs)
}

/// The steps that it takes to a revision, where that is there.
fn counted<L: Ledger>(
    alloc: Global,
    revs: &Revs,
    r: u64,
    blank: Blank,
) -> Result<Option<u64>, NoMemory>
    requires name { blank.name ≡ L.name }
    requires parts { blank.parts ≡ L.parts }
    requires one { blank.parts ≡ 1 }
{
    match revs.head() {
        Some(head) if r <= head => {
            let mut steps = Steps::<L>::new(blank);
            revs.seek(alloc, r, &mut steps)?;
            Ok(Some(steps.count()))
        }
        _ => Ok(None),
    }
}

/// The same, in a ledger of its own.
fn steps(alloc: Global, revs: &Revs, r: u64) -> Result<Option<u64>, NoMemory> {
    counted::<Brand>(alloc, revs, r, Blank::new(1))
}

/// How long the document of a revision is, where that is there.
fn length_at(alloc: Global, revs: &Revs, r: u64) -> Result<Option<u32>, NoMemory> {
    match revs.head() {
        Some(head) if r <= head => {
            let doc = revs.doc(alloc, r)?;
            Ok(Some(doc.len()))
        }
        _ => Ok(None),
    }
}

/// How many revisions there are behind the first, and the time of the next.
fn behind_the_first(alloc: Global, revs: &Revs) -> Result<Option<(usize, u64)>, NoMemory> {
    match revs.head() {
        Some(head) if 1 <= head => {
            let copies = copies_of(alloc, revs.since(0))?;
            Ok(Some((copies.len(), revs.rev(1).time)))
        }
        _ => Ok(None),
    }
}

#[test]
fn sought_from_the_frame_below(rt: HostRuntime) -> Result<(), Fail> {
    let alloc = rt.alloc();
    let revs = revisions(alloc, 251)?;
    assert_eq!(rt; revs.head(), Some(250));
    for (r, wanted) in [(0, 0), (50, 50), (99, 99), (100, 0), (199, 99), (250, 50)] {
        assert_eq!(rt; steps(alloc, &revs, r)?, Some(wanted), "at {r}");
    }
    Ok(())
}

#[test]
fn read_behind_the_head(rt: HostRuntime) -> Result<(), Fail> {
    let alloc = rt.alloc();
    let revs = revisions(alloc, 131)?;
    assert_eq!(rt; revs.head(), Some(130));
    for r in [128, 101, 7] {
        assert_eq!(rt; length_at(alloc, &revs, r)?, Some(1), "at {r}");
    }
    Ok(())
}

#[test]
fn read_with_ample_memory(rt: HostRuntime) -> Result<(), Fail> {
    let alloc = rt.alloc();
    let revs = revisions(alloc, 3)?;
    assert_eq!(rt; revs.head(), Some(2));
    for r in [2, 1] {
        assert_eq!(rt; length_at(alloc, &revs, r)?, Some(1), "at {r}");
    }
    assert_eq!(rt; behind_the_first(alloc, &revs)?, Some((2, 7)));
    Ok(())
}

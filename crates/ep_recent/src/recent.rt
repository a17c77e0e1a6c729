//! The last revisions.

ghost use Rattle.std.specs.Prelude.{◌≡◌, ◌↔◌, ◌⊎◌, ◌+◌, ◌-◌, ◌^◌, ◌<◌, ◌≤◌, ◌++◌, ◌∷◌, [], ℕ, suc, List, drop, length, Option, option_map, slice_get, true, false, Some, None, OnOk, IfOk, IfSome, IfNone, IsOk};
ghost use Rattle.ep_cs.specs.Edit.{apply};
ghost use Rattle.ep_cs.specs.Fits.{Fits};
ghost use Rattle.ep_history.specs.Lists.{at};
ghost use Rattle.ep_history.specs.declared.rev.Rev.{Rev as ARev};
ghost use Rattle.ep_recent.specs.Recent.{AreLastOf, HasNone, IsKeptAt, IsRevAt, Leads, count_of, doc_before, head_of};
ghost use Rattle.ep_cs.specs.Doc.{Doc as ADoc};

use ep_apply::{Doc, apply};
use ep_history::Rev;
use ep_units::NoMemory;
use std::alloc::Global;
use std::collections::VecDeque;
use std::marker::Model;
use std::mem::replace;

/// The document before one revision in so many is kept.
const NEAR: u64 = 8;

/// Before which of so many: the third, so that a document that is due at a usual spacing is not kept twice.
const THIRD: u64 = 2;

/// Fewer than this are kept, once the earliest had to go: an edit is seldom based further behind.
const MOST: usize = 42;

/// So many stay at least.
const LEAST: usize = 34;

/// A revision, and the document before it where that is kept.
#[derive(Drop)]
pub(crate) struct Kept {
    pub(crate) rev: Rev,
    pub(crate) before: Option<Doc>,
}

/// The document of the last revision, where the one of this number is among those before which it is kept.
fn kept_before(number: u64, last: Option<Doc>) -> Option<Doc>
    ensures { IfSome result (λ d. last ≡ Some d) }
{
    if number % NEAR == THIRD { last } else { None }
}

/// The last revisions, the earliest first, and the document of the last one.
pub struct Recent {
    // the number of the first revision that is kept
    first: u64,
    kept: VecDeque<Kept>,
    head: Option<Doc>,
}

impl Drop for Recent {
    fn drop(self) {
        let Recent {
            first: _,
            kept: _,
            head: _,
        } = self;
    }
}

impl Model for Recent {
    ghost use Rattle.ep_recent.specs.Recent.{LastRevs};
    ghost use Rattle.ep_recent.specs.Codes.{coded_last};

    ghost Value = { LastRevs };

    ghost coded = { coded_last };

    ghost use Rattle.ep_recent.specs.Held.{held, IsHeld};

    ghost view = { held };

    ghost invariant = { IsHeld };
}

impl Recent {
    /// No revisions, and no room.
    pub fn new(alloc: Global) -> Recent
        ensures last { AreLastOf result [] }
        ensures first { result.first ≡ 0 }
    {
        Recent {
            first: 0,
            kept: VecDeque::new(alloc),
            head: None,
        }
    }

    /// Makes room for so many more.
    pub fn reserve(&mut self, more: usize) -> Result<(), NoMemory>
        ensures same { (self.new.first ≡ self.old.first) × (self.new.kept ≡ self.old.kept) × (self.new.head ≡ self.old.head) }
        ensures room { OnOk result (more ≤ self.new.room) }
        ensures keeps_room { self.old.room ≤ self.new.room }
        ensures enough { more ≤ self.old.room → IsOk result }
    {
        self.kept.reserve(more)?;
        Ok(())
    }

    /// One more revision, with its document. Both are moved in, and no memory is taken.
    pub fn push(&mut self, rev: Rev, doc: Doc)
        requires room { 1 ≤ self.old.room }
        requires few { count_of self.old + 1 < 2 ^ 64 }
        requires fits { Fits rev.change (head_of self.old) }
        requires doc { doc ≡ apply rev.change.edit (head_of self.old) }
        ensures last { (vs : List ARev) → AreLastOf self.old vs → AreLastOf self.new (vs ++ rev ∷ []) }
        ensures head { self.new.head ≡ Some doc }
        ensures first { self.new.first ≡ self.old.first }
        ensures kept { (before : Option ADoc) × (self.new.kept ≡ self.old.kept ++ (rev, before) ∷ []) }
        ensures room { self.new.room + 1 ≡ self.old.room }
    {
        let number = self.first + self.kept.len() as u64;
        let before = kept_before(number, replace(&mut self.head, Some(doc)));
        self.kept.push_back_reserved(Kept { rev, before });
    }

    /// Whether none need go: fewer are kept than at most, and they are as few as may be or begin behind a document.
    fn stays(&self) -> bool
        ensures few { result ≡ true → length self.now.kept < 42 }
        ensures many { result ≡ false → 34 < length self.now.kept }
    {
        let len = self.kept.len();
        if len >= MOST {
            return false;
        }
        if len <= LEAST {
            return true;
        }
        self.first % NEAR == THIRD
    }

    /// The earliest revision goes, with its number, where too many are kept, until a document stands before the first.
    pub fn leave(&mut self) -> Option<(u64, Rev)>
        ensures last { (vs : List ARev) → AreLastOf self.old vs → AreLastOf self.new vs }
        ensures gone { IfSome result (λ x. (x.0 ≡ self.old.first) × (self.new.first ≡ self.old.first + 1) × (self.new.kept ≡ drop 1 self.old.kept)
            × ((vs : List ARev) → AreLastOf self.old vs → at vs x.0 ≡ Some x.1)) }
        ensures stays { IfSome result (λ _. 34 ≤ length self.new.kept) }
        ensures none { IfNone result ((self.new ≡ self.old) × (length self.new.kept < 42)) }
        ensures head { self.new.head ≡ self.old.head }
    {
        if self.stays() {
            return None;
        }
        let Kept { rev, before: _ } = self.kept.pop_front()?;
        let number = self.first;
        self.first += 1;
        Some((number, rev))
    }

    /// A revision at a place, where one is kept there.
    fn kept_at(&self, i: usize) -> Option<&Kept>
        ensures { option_map (λ k. (k.now.rev, k.now.before)) result ≡ slice_get self.now.kept i }
    {
        self.kept.get(i)
    }

    /// A revision, where it is one of these.
    pub fn rev(&self, i: u64) -> Option<&Rev>
        ensures is { (vs : List ARev) → AreLastOf self.now vs → IfSome result (λ rev. at vs i ≡ Some rev.now) }
        ensures kept { IfSome result (λ rev. IsRevAt self.now.kept (i - self.now.first) rev.now) }
        ensures none { IfNone result ((i < self.now.first) ⊎ (count_of self.now ≤ i)) }
    {
        if i < self.first {
            return None;
        }
        let kept = self.kept_at((i - self.first) as usize)?;
        Some(&kept.rev)
    }

    /// The document of the last revision, where there is one.
    pub fn head_doc(&self) -> Option<&Doc>
        ensures { option_map (λ d. d.now) result ≡ self.now.head }
    {
        self.head.as_ref()
    }

    /// The document before the revision at a place, where it is kept.
    fn doc_at(&self, i: usize) -> Option<&Doc>
        ensures there { IfSome result (λ d. IsKeptAt self.now.kept i d.now) }
        ensures none { IfNone result ((d : ADoc) → IsKeptAt self.now.kept i d → ⊥) }
    {
        self.kept_at(i)?.before.as_ref()
    }

    /// The last place among the first so many before which a document is kept, and that document.
    fn nearest(&self, end: usize) -> Option<(usize, &Doc)>
        ensures there { IfSome result (λ x. (x.0 < end) × IsKeptAt self.now.kept x.0 x.1.now) }
        ensures none { IfNone result (HasNone self.now.kept end) }
    {
        let mut i = end;
        'back: while i > 0 {
            i -= 1;
            if let Some(doc) = self.doc_at(i) {
                return Some((i, doc));
            }
        }
        None
    }

    /// The document before the revision at a place, or behind the last one, made of one that is kept before an earlier one.
    fn made(&self, alloc: Global, from: usize, first: &Doc, end: usize) -> Result<Doc, NoMemory>
        requires from { IsKeptAt self.now.kept from first.now }
        requires order { from ≤ end }
        requires there { end ≤ length self.now.kept }
        ensures is { (vs : List ARev) → AreLastOf self.now vs → IfOk result (λ d. d ≡ doc_before vs (self.now.first + end)) }
        ensures leads { IfOk result (λ d. Leads d (drop end self.now.kept) self.now.head) }
    {
        let mut doc = first.copy(alloc)?;
        for i in from..end {
            doc = apply(alloc, &doc, &self.kept[i].rev.change)?;
        }
        Ok(doc)
    }

    /// The document of a revision, made of the last one that is kept before it or an earlier one; none where none is.
    pub fn doc(&self, alloc: Global, r: u64) -> Result<Option<Doc>, NoMemory>
        requires first { self.now.first ≤ r + 1 }
        requires there { r < count_of self.now }
        ensures is { (vs : List ARev) → AreLastOf self.now vs → IfOk result (λ o. IfSome o (λ d. d ≡ doc_before vs (suc r))) }
        // Whatever was pushed, the revisions behind it fit one after another.
        ensures leads { IfOk result (λ o. IfSome o (λ d. Leads d (drop (r + 1 - self.now.first) self.now.kept) self.now.head)) }
        ensures none { IfOk result (λ o. IfNone o (HasNone self.now.kept (r + 1 - self.now.first))) }
    {
        let first = self.first;
        let end = (r + 1 - first) as usize;
        match self.nearest(end) {
            Some((from, doc)) => Ok(Some(self.made(alloc, from, doc, end)?)),
            None => Ok(None),
        }
    }
}

//! Revisions, one after another.

ghost use Rattle.std.specs.Prelude.{◌≡◌, ◌↔◌, ◌<◌, ◌++◌, ◌∷◌, [], false, length, IfOk, IfSome, IsSome, IsTrue};
ghost use Rattle.ep_cs.specs.Fits.{Fits};
ghost use Rattle.ep_history.specs.History.{lacks_newline as lacks, made, newline};
ghost use Rattle.ep_replay.specs.Standing.{MayStand, time_after};

use crate::first::{is_first, is_later};
use ep_apply::{Doc, apply};
use ep_history::Rev;
use ep_step::lacks_newline;
use ep_units::NoMemory;
use std::alloc::Global;

/// Revisions, the document after the last of them, and its time.
#[derive(Drop)]
pub struct Replay {
    pub revs: Vec<Rev>,
    pub doc: Doc,
    pub time: u64,
    pub ghost doc_is: { doc ≡ made newline revs.items },
    pub ghost time_is: { time ≡ time_after 0 revs.items },
}

impl Replay {
    /// Before the first revision.
    pub fn begun(alloc: Global) -> Result<Replay, NoMemory>
        ensures { IfOk result (λ replay. replay.revs.items ≡ []) }
    {
        let doc = Doc::newline(alloc)?;
        Ok(Replay {
            revs: Vec::new(alloc),
            doc,
            time: 0,
        })
    }

    fn is_empty(&self) -> bool
        ensures none { IsTrue result → length self.now.revs.items ≡ 0 }
        ensures some { result ≡ false → 0 < length self.now.revs.items }
    {
        self.revs.is_empty()
    }

    /// Whether a revision may stand behind these.
    #[tactic(auto, using(crate::proofs::Standing::first_stands, crate::proofs::Standing::later_stands))]
    fn may_stand(&self, alloc: Global, rev: &Rev) -> Result<bool, NoMemory>
        ensures stands { IfOk result (λ may. IsTrue may ↔ MayStand self.now.revs.items rev.now) }
        ensures fits { IfOk result (λ may. IsTrue may → Fits rev.now.change self.now.doc) }
    {
        if self.is_empty() {
            return is_first(alloc, rev);
        }
        is_later(alloc, self.time, &self.doc, rev)
    }

    /// These revisions and one more, where it may stand behind them.
    #[tactic(auto, using(crate::proofs::Standing::made_push, crate::proofs::Standing::time_push))]
    pub fn followed(self, alloc: Global, rev: Rev) -> Result<Option<Replay>, NoMemory>
        ensures stands { IfOk result (λ made. IsSome made ↔ MayStand self.revs.items rev) }
        ensures revs { IfOk result (λ made. IfSome made (λ replay. replay.revs.items ≡ self.revs.items ++ rev ∷ [])) }
    {
        if !self.may_stand(alloc, &rev)? {
            return Ok(None);
        }
        let doc = apply(alloc, &self.doc, &rev.change)?;
        let Replay { revs, .. } = self;
        let mut revs = revs;
        let time = rev.time;
        revs.push(rev)?;
        Ok(Some(Replay { revs, doc, time }))
    }

    /// Whether the last document ends in a newline.
    pub fn ends(&self) -> bool
        ensures { IsTrue result ↔ (lacks self.now.doc ≡ false) }
    {
        !lacks_newline(&self.doc)
    }
}

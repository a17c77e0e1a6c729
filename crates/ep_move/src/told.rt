//! What the bytes of a file tell.

ghost use Rattle.std.specs.Prelude.{◌≡◌, List, ℕ, length, IfErr, IfOk, IfSome};
ghost use Rattle.ep_history.specs.Pad.{PadState};
ghost use Rattle.ep_history.specs.Records.{told};
ghost use Rattle.ep_history.specs.declared.record.Record.{Record};
ghost use Rattle.ep_journal.specs.File.{records_of};
ghost use Rattle.ep_past.specs.Revisions.{AreRevisions};
ghost use Rattle.ep_pad.specs.Opening.{IsBadAt, IsFront};
ghost use Rattle.ep_verify.specs.Verdicts.{Tells, no_limits};
ghost use Rattle.ep_move.specs.Reread.{IsReread};
ghost use Rattle.ep_move.specs.Untold.{IsUntold};
ghost use Rattle.ep_move.specs.declared.told.Untold.TheVariants as untold;

use crate::rereading::Reread;
use ep_journal::{Records, scan};
use ep_past::births_are_revisions;
use ep_record::decode;
use ep_units::NoMemory;
use std::alloc::Global;

/// Why a file tells no pad.
#[derive(Clone, Copy, Debug, PartialEq, Eq)]
pub enum Untold {
    /// It is no journal.
    Foreign,
    /// The index of the first record that is none, or can't come there.
    Record(u64),
    NoMemory,
}

impl From<NoMemory> for Untold {
    ghost from_gives = { λ _ e. e ≡ untold.NoMemory };

    fn from(_error: NoMemory) -> Untold {
        Untold::NoMemory
    }
}

/// What a file's records tell.
fn reread(alloc: Global, records: &Records) -> Result<Reread, Untold>
    ensures tells { (file : List ℕ) → records_of file ≡ records.now → IfOk result (λ told_pad. (rs : List Record) × IsFront no_limits file rs (length records.now) × IsReread told_pad (told no_limits rs)) }
    ensures bad { (file : List ℕ) (k : ℕ) → records_of file ≡ records.now → IfErr result (λ why. why ≡ untold.Record k → IsBadAt no_limits file k) }
    ensures own { IfErr result (λ why. why ≡ untold.Foreign → ⊥) }
{
    let mut pad = Reread::unopened();
    for i in 0..records.len() {
        let Some(record) = decode(alloc, records.get(i))? else {
            return Err(Untold::Record(i as u64));
        };
        if !pad.next(alloc, record)? {
            return Err(Untold::Record(i as u64));
        }
    }
    Ok(pad)
}

/// What the bytes of a file tell of its pad.
pub fn told_by(alloc: Global, bytes: &[u8]) -> Result<Reread, Untold>
    ensures tells { IfOk result (λ pad. (p : PadState) × Tells bytes.now p × IsReread pad p) }
    ensures revisions { IfOk result (λ pad. IfSome pad.last (λ last. AreRevisions last.revs.items)) }
    ensures untold { IfErr result (IsUntold bytes.now) }
{
    births_are_revisions();
    let Some(records) = scan(alloc, bytes)? else {
        return Err(Untold::Foreign);
    };
    reread(alloc, &records)
}

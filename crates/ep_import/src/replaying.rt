//! The revisions that rows say, replayed.

ghost use Rattle.std.specs.Prelude.{◌≡◌, [], IfOk, IfSome};
ghost use Rattle.ep_import.specs.Answer.{Answers};
ghost use Rattle.ep_import.specs.Imported.{Ends, Replays, rev_of};
ghost use Rattle.ep_import.specs.Seen.{revs_of, row_view, row_views};
ghost use Rattle.ep_import.specs.Steps.{Follows};

use crate::bad::ImportBad;
use crate::rows::Row;
use ep_csread::{ReadBad, read};
use ep_history::Rev;
use ep_pool::Pool;
use ep_replay::Replay;
use ep_units::NoMemory;
use ep_wire_words::members::units_from;
use std::alloc::Global;

/// The revision that a row says with a pool.
#[tactic(auto, using(crate::proofs::Said::rev_said, crate::proofs::Said::rev_unsaid))]
fn rev_of(alloc: Global, row: &Row<'_>, pool: &Pool) -> Result<Option<Rev>, NoMemory>
    ensures { IfOk result (λ rev. rev ≡ rev_of pool.now.pairs (row_view row.now)) }
{
    let text = units_from(alloc, row.changeset)?;
    let author = units_from(alloc, row.author)?;
    match read(alloc, &text, pool) {
        Ok(change) => Ok(Some(Rev {
            change,
            author,
            session: row.session,
            time: row.time,
        })),
        Err(ReadBad::NoMemory) => Err(NoMemory),
        Err(_) => Ok(None),
    }
}

/// These revisions, and the one that a row says.
#[tactic(auto, using(crate::proofs::Said::follows_some, crate::proofs::Said::follows_unsaid, crate::proofs::Said::follows_unstood))]
fn followed(alloc: Global, replay: Replay, row: &Row<'_>, pool: &Pool) -> Result<Replay, ImportBad>
    ensures { Answers revs_of (Follows pool.now.pairs (revs_of replay) (row_view row.now)) result }
{
    let n = replay.revs.len() as u64;
    let Some(rev) = rev_of(alloc, row, pool)? else {
        return Err(ImportBad::Revision(n));
    };
    match replay.followed(alloc, rev)? {
        Some(replay) => Ok(replay),
        None => Err(ImportBad::Revision(n)),
    }
}

/// The last revision leaves a final newline.
#[tactic(auto, using(crate::proofs::Said::ends_well, crate::proofs::Said::ends_badly))]
fn ended(replay: Replay) -> Result<Replay, ImportBad>
    ensures { Answers revs_of (Ends (revs_of replay)) result }
{
    if replay.ends() {
        return Ok(replay);
    }
    Err(ImportBad::Revision(replay.revs.len().saturating_sub(1) as u64))
}

/// The revisions that all rows say.
pub fn replayed(alloc: Global, rows: &[Row<'_>], pool: &Pool) -> Result<Replay, ImportBad>
    ensures { Answers revs_of (Replays pool.now.pairs [] (row_views rows.now)) result }
{
    let mut replay = Replay::begun(alloc)?;
    for row in rows {
        replay = followed(alloc, replay, row, pool)?;
    }
    ended(replay)
}

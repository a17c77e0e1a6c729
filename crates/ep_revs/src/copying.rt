//! Revisions again.

ghost use Rattle.std.specs.Prelude.{◌≡◌, IfOk};

use ep_history::Rev;
use ep_units::NoMemory;
use std::alloc::Global;

fn copy_of(alloc: Global, rev: &Rev) -> Result<Rev, NoMemory>
    ensures { IfOk result (λ again. again ≡ rev.now) }
{
    Ok(Rev {
        change: rev.change.copy(alloc)?,
        author: rev.author.copy(alloc)?,
        session: rev.session,
        time: rev.time,
    })
}

/// These revisions again.
pub fn copies_of(alloc: Global, revs: &[Rev]) -> Result<Vec<Rev>, NoMemory>
    ensures { IfOk result (λ again. again.items ≡ revs.now) }
{
    let mut again = Vec::with_capacity(alloc, revs.len())?;
    for rev in revs {
        again.push(copy_of(alloc, rev)?)?;
    }
    Ok(again)
}

//! Copies of what a call is given.

ghost use Rattle.std.specs.Prelude.{◌≡◌, IfOk, option_map};

use ep_units::{Grant, NoMemory, Units};
use std::alloc::Global;

pub(crate) fn copied_grant(alloc: Global, grant: &Grant) -> Result<Grant, NoMemory>
    ensures { IfOk result (λ copy. copy ≡ grant.now) }
{
    let pad = grant.pad.copy(alloc)?;
    let asked = grant.asked.copy(alloc)?;
    let author = grant.author.copy(alloc)?;
    let token_author = grant.token_author.copy(alloc)?;
    Ok(Grant {
        pad,
        asked,
        author,
        token_author,
        member: grant.member,
        read_only: grant.read_only,
    })
}

pub(crate) fn copied_author(
    alloc: Global,
    author: Option<&Units>,
) -> Result<Option<Units>, NoMemory>
    ensures { IfOk result (λ copy. copy ≡ option_map (λ x. x.now) author.entry) }
{
    match author {
        Some(author) => Ok(Some(author.copy(alloc)?)),
        None => Ok(None),
    }
}

//! The first message.

ghost use Rattle.std.specs.Prelude.{◌≡◌, IfOk};
ghost use Rattle.ep_editor.specs.Replies.{ready};

use crate::editor::Wanted;
use ep_units::{NoMemory, Units};
use ep_wire_words::{ClientMsg, Listed, Resume};
use std::alloc::Global;

/// The same ids again.
fn ids_again(alloc: Global, ids: &[Units]) -> Result<Listed<Units>, NoMemory>
    ensures { IfOk result (λ all. all ≡ ids.now) }
{
    let mut all = Listed::new(alloc);
    for id in ids {
        all.push(id.copy(alloc)?)?;
    }
    Ok(all)
}

/// The message of who wants a pad, and maybe comes back to it.
pub fn ready(alloc: Global, wanted: &Wanted, resume: Option<Resume>) -> Result<ClientMsg, NoMemory>
    ensures { IfOk result (λ m. m ≡ ready wanted.now resume) }
{
    Ok(ClientMsg::Ready {
        pad: wanted.pad.copy(alloc)?,
        token: wanted.token.copy(alloc)?,
        sessions: ids_again(alloc, wanted.sessions.as_slice())?,
        resume,
    })
}

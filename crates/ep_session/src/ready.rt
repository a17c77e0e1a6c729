//! The first message.

ghost use Rattle.std.specs.Prelude.{◌≡◌, IfOk, take};
ghost use Rattle.ep_session.specs.Session.{is_short, most_ids};

use ep_units::{NoMemory, Units};
use ep_wire_words::{Listed, Resume};
use std::alloc::Global;

/// How many ids of sessions are looked at. A message may have more.
const MOST_IDS: usize = 100;

/// A longer token is refused.
const MOST_TOKEN_BYTES: usize = 1_024;

/// Who comes, and to which pad.
#[derive(Drop)]
pub struct Ready {
    pub pad: Units,
    pub token: Units,
    pub sessions: Listed<Units>,
    pub resume: Option<Resume>,
}

impl Ready {
    /// The token has at most 1,024 bytes.
    pub fn has_short_token(&self, alloc: Global) -> Result<bool, NoMemory>
        ensures { IfOk result (λ short. short ≡ is_short self.now.token) }
    {
        Ok(self.token.to_text_lossy(alloc)?.len() <= MOST_TOKEN_BYTES)
    }

    /// The ids of sessions that are looked at: those that stand first.
    pub fn looked_at(&self) -> &[Units]
        ensures { result.now ≡ take most_ids self.now.sessions }
    {
        let ids = self.sessions.as_slice();
        if ids.len() <= MOST_IDS {
            ids
        } else {
            &ids[..MOST_IDS]
        }
    }
}

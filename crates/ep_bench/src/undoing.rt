//! A client that takes back its edits among those of others.

use crate::data::{AUTHORS, document};
use crate::draws::Draws;
use crate::typing::letter;
use crate::work::{authors, doc};
use anyhow::Result;
use ep_client::{Client, Heard};
use ep_undo::UndoClient;
use ep_units::Session;
use std::alloc::Global;

/// The client's session.
const OWN: Session = Session { epoch: 1, count: 1 };

/// The session of who makes the other revisions.
const OTHER: Session = Session { epoch: 1, count: 2 };

/// How many letters of others come behind each of the client's.
const OTHERS: u32 = 15;

/// A client, and the last revision that it heard.
struct Turns {
    client: UndoClient,
    rev: u64,
    draws: Draws,
}

impl Drop for Turns {
    fn drop(self) {
        let Turns {
            client: _,
            rev: _,
            draws: _,
        } = self;
    }
}

impl Turns {
    /// A letter somewhere in what the client sees is heard as a revision of others.
    fn hear_letter(&mut self, alloc: Global) -> Result<()> {
        let view = self.client.client().view();
        let at = self.draws.pick((view.len() as usize).max(1)) as u32;
        let change = letter(alloc, view, at)?;
        self.rev = self.rev.saturating_add(1);
        let heard = Heard::Rev {
            rev: self.rev,
            change,
            session: OTHER,
        };
        self.client.hear(alloc, &heard)?;
        Ok(())
    }

    /// What the client has is sent, and committed.
    fn commit(&mut self, alloc: Global) -> Result<()> {
        if let Some(sent) = self.client.submit(alloc)? {
            self.rev = self.rev.saturating_add(1);
            let heard = Heard::Rev {
                rev: self.rev,
                change: sent.change,
                session: OWN,
            };
            self.client.hear(alloc, &heard)?;
        }
        Ok(())
    }

    /// The client types a letter, and hears those of others.
    fn turn(&mut self, alloc: Global) -> Result<()> {
        let view = self.client.client().view();
        let at = self.draws.pick((view.len() as usize).max(1)) as u32;
        let typed = letter(alloc, view, at)?;
        self.client.edit(alloc, &typed)?;
        self.commit(alloc)?;
        for _ in 0..OTHERS {
            self.hear_letter(alloc)?;
        }
        Ok(())
    }
}

/// So many turns; behind each the last letter is taken back and made again, and both are committed, or not.
pub fn take_back(alloc: Global, units: u32, count: u32, is_undone: bool) -> Result<u64> {
    let mut draws = Draws::new(7);
    let pool = authors(alloc, AUTHORS)?;
    let text = document(alloc, units as usize, &mut draws)?;
    let doc = doc(alloc, &text, &pool, text.len())?;
    let client = UndoClient::start(alloc, Client::start(alloc, doc, 0, OWN)?);
    let mut turns = Turns {
        client,
        rev: 0,
        draws,
    };
    for _ in 0..count {
        turns.turn(alloc)?;
        if is_undone {
            drop(turns.client.undo(alloc)?);
            drop(turns.client.redo(alloc)?);
        }
    }
    Ok(turns.rev)
}

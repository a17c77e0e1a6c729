//! A client that hears the revisions of others.

use crate::data::{AUTHORS, document};
use crate::draws::Draws;
use crate::two::made_since;
use crate::typing::letter;
use crate::work::{authors, doc};
use anyhow::Result;
use ep_apply::Doc;
use ep_client::{Client, Heard};
use ep_cs::Change;
use ep_units::Session;
use std::alloc::Global;

/// The client's session.
const OWN: Session = Session { epoch: 1, count: 1 };

/// The session of who makes the revisions.
const OTHER: Session = Session { epoch: 1, count: 2 };

/// The revisions that these changes make, as a client hears them.
fn as_heard(alloc: Global, changes: Vec<Change>) -> Result<Vec<Heard>> {
    let mut heard = Vec::new(alloc);
    let mut rev: u64 = 0;
    for change in changes {
        rev = rev.saturating_add(1);
        heard.push(Heard::Rev {
            rev,
            change,
            session: OTHER,
        })?;
    }
    Ok(heard)
}

/// A client with a letter that it has not submitted hears all of them.
fn hear_all(alloc: Global, doc: &Doc, typed: &Change, heard: &[Heard]) -> Result<Client> {
    let mut client = Client::start(alloc, doc.copy(alloc)?, 0, OWN)?;
    client.edit(alloc, typed)?;
    for one in heard {
        client.hear(alloc, one)?;
    }
    Ok(client)
}

pub fn hear_edits(alloc: Global, units: u32, count: u32) -> Result<u64> {
    let mut draws = Draws::new(7);
    let pool = authors(alloc, AUTHORS)?;
    let text = document(alloc, units as usize, &mut draws)?;
    let doc = doc(alloc, &text, &pool, text.len())?;
    let changes = made_since(alloc, &doc, &pool, &mut draws)?;
    let heard = as_heard(alloc, changes)?;
    let typed = letter(alloc, &doc, units / 2)?;
    let mut sum: u64 = 0;
    for _ in 0..count {
        let client = hear_all(alloc, &doc, &typed, &heard)?;
        sum = sum.wrapping_add(u64::from(client.view().len()));
    }
    Ok(sum)
}

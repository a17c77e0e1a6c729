//! Messages between browser and server.

use crate::data::{AUTHORS, document};
use crate::draws::Draws;
use crate::work::{DOC_EDITS, RUN, authors, doc, fitting_edits};
use anyhow::Result;
use ep_cs::Change;
use ep_units::{Session, Units};
use ep_wire::{ClientMsg, ServerMsg, read_client, write_client, write_server};
use std::alloc::Global;

/// The most bytes that a message may have.
const LIMIT: u64 = 4_194_304;

/// An author's id, as long as they are.
const AUTHOR: &str = "a.s8oes9dhwrvt0zif";

const SESSION: Session = Session { epoch: 1, count: 1 };

/// A moment in 2026, in milliseconds since 1970.
const NOW: u64 = 1_790_000_000_000;

/// Small edits of a document of so many units with one author.
fn edits(alloc: Global, units: u32) -> Result<Vec<Change>> {
    let mut draws = Draws::new(7);
    let pool = authors(alloc, AUTHORS)?;
    let text = document(alloc, units as usize, &mut draws)?;
    let doc = doc(alloc, &text, &pool, text.len())?;
    fitting_edits(alloc, &doc, &pool, &mut draws)
}

/// The texts with which a browser sends small edits.
fn sent(alloc: Global, units: u32) -> Result<Vec<String>> {
    let mut texts = Vec::new(alloc);
    for change in edits(alloc, units)? {
        texts.push(write_client(alloc, &ClientMsg::Edit { base: 1, change })?)?;
    }
    Ok(texts)
}

/// The news of small edits.
fn news(alloc: Global, units: u32) -> Result<Vec<ServerMsg>> {
    let mut messages = Vec::new(alloc);
    for change in edits(alloc, units)? {
        messages.push(ServerMsg::News {
            rev: 2,
            change,
            author: Units::from_str(alloc, AUTHOR)?,
            session: SESSION,
            time: NOW,
            delta: 250,
        })?;
    }
    Ok(messages)
}

/// What a client is told that enters a pad of so many units, with another author each 50.
fn entered(alloc: Global, units: u32) -> Result<ServerMsg> {
    let mut draws = Draws::new(7);
    let pool = authors(alloc, AUTHORS)?;
    let text = document(alloc, units as usize, &mut draws)?;
    Ok(ServerMsg::Vars {
        pad: Units::from_str(alloc, "pad")?,
        author: Units::from_str(alloc, AUTHOR)?,
        read_only: false,
        session: SESSION,
        birth: 1,
        rev: 1,
        doc: doc(alloc, &text, &pool, RUN)?,
        time: NOW,
    })
}

pub fn read_changes(alloc: Global, units: u32, count: u32) -> Result<u64> {
    let texts = sent(alloc, units)?;
    let mut sum: u64 = 0;
    for i in 0..count as usize {
        if let Some(text) = texts.get(i % DOC_EDITS) {
            if let ClientMsg::Edit { change, .. } = read_client(alloc, text, LIMIT)? {
                sum = sum.wrapping_add(u64::from(change.new_len()));
            }
        }
    }
    Ok(sum)
}

pub fn print_news(alloc: Global, units: u32, count: u32) -> Result<u64> {
    let messages = news(alloc, units)?;
    let mut sum: u64 = 0;
    for i in 0..count as usize {
        if let Some(message) = messages.get(i % DOC_EDITS) {
            sum = sum.wrapping_add(write_server(alloc, message)?.len() as u64);
        }
    }
    Ok(sum)
}

pub fn print_vars(alloc: Global, units: u32, count: u32) -> Result<u64> {
    let message = entered(alloc, units)?;
    let mut sum: u64 = 0;
    for _ in 0..count {
        sum = sum.wrapping_add(write_server(alloc, &message)?.len() as u64);
    }
    Ok(sum)
}

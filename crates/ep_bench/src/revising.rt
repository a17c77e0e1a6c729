//! Records of small revisions, as bytes.

use crate::data::{AUTHORS, document};
use crate::draws::Draws;
use crate::typing::letter;
use crate::work::{authors, doc};
use anyhow::Result;
use ep_record::{Record, decode, encode};
use ep_units::{Session, Units};
use std::alloc::Global;

/// An author's id, as long as they are.
pub const AUTHOR: &str = "a.s8oes9dhwrvt0zif";

/// The session that types.
const SESSION: Session = Session { epoch: 1, count: 1 };

/// A moment in 2026, in milliseconds since 1970.
pub const NOW: u64 = 1_790_000_000_000;

/// The record of one letter that is typed into a document of so many units.
fn small_record(alloc: Global, units: u32) -> Result<Record> {
    let mut draws = Draws::new(7);
    let pool = authors(alloc, AUTHORS)?;
    let text = document(alloc, units as usize, &mut draws)?;
    let doc = doc(alloc, &text, &pool, text.len())?;
    Ok(Record::Rev {
        session: SESSION,
        time: NOW,
        author: Units::from_str(alloc, AUTHOR)?,
        fixed: false,
        change: letter(alloc, &doc, units / 2)?,
    })
}

pub fn encode_records(alloc: Global, units: u32, count: u32) -> Result<u64> {
    let record = small_record(alloc, units)?;
    let mut sum: u64 = 0;
    for _ in 0..count {
        let bytes = encode(alloc, &record)?;
        sum = sum.wrapping_add(bytes.len() as u64);
    }
    Ok(sum)
}

pub fn decode_records(alloc: Global, units: u32, count: u32) -> Result<u64> {
    let bytes = encode(alloc, &small_record(alloc, units)?)?;
    let mut sum: u64 = 0;
    for _ in 0..count {
        if decode(alloc, &bytes)?.is_some() {
            sum = sum.wrapping_add(1);
        }
    }
    Ok(sum)
}

//! What one line gives.

ghost use Rattle.std.specs.Prelude.{◌≡◌, IfOk};
ghost use Rattle.ep_journal.specs.Journal.{IsReady};
ghost use Rattle.ep_past.specs.Revisions.{AreRevisions};

use anyhow::{Result, anyhow};
use ep_disk_mem::MemDisk;
use ep_import::{History, import};
use ep_journal::{Journal, scan};
use ep_outside::{Crash, Disk, Image};
use ep_put::put;
use ep_units::{PadId, Units};
use serde_json::Value;
use std::alloc::Global;

/// So many bytes a file may have.
const LIMIT: u64 = 268_435_456;

/// The member of a row, a text.
fn text<'a>(row: &'a Value, name: &str) -> &'a str {
    row.get(name).and_then(Value::as_str).unwrap_or("")
}

/// The image that is asked for.
fn image(alloc: Global, row: &Value) -> Result<Image> {
    match text(row, "image") {
        "old" => Ok(Image::Old),
        "new" => Ok(Image::New),
        byte => Ok(Image::Torn {
            length: if text(row, "length") == "least" {
                0
            } else {
                u64::MAX
            },
            fill: hex::decode(alloc, byte)?,
        }),
    }
}

/// The journal of a row's file, on a disk that stops as the row says.
fn journal(alloc: Global, row: &Value) -> Result<Journal<MemDisk>>
    ensures { IfOk result (IsReady ⟦<MemDisk as Disk>⟧.told) }
{
    let file = hex::decode(alloc, text(row, "file"))?;
    let disk = MemDisk::new(alloc, file, Vec::new(alloc))?;
    match Journal::open(alloc, disk, LIMIT) {
        Ok(journal) => Ok(journal),
        Err(refused) => Err(anyhow!("{}", refused.why)),
    }
}

/// For how many records a disk's file stands.
fn count(alloc: Global, disk: MemDisk) -> Result<usize> {
    let mut disk = disk;
    disk.restart();
    let Ok(size) = disk.length() else {
        return Err(anyhow!("no length"));
    };
    let mut bytes = vec![in alloc; 0u8; size as usize]?;
    let _read = disk.read(0, &mut bytes);
    Ok(scan(alloc, &bytes)?.map_or(0, |records| records.len()))
}

fn said(alloc: Global, row: &Value, history: History) -> Result<String>
    requires { AreRevisions history.revs.items }
{
    let mut journal = journal(alloc, row)?;
    if let Some(calls) = row.get("calls").and_then(Value::as_u64) {
        journal.stop_after(calls, image(alloc, row)?);
    }
    let (disk, said) = match put(alloc, journal, &history.revs, history.public) {
        Ok(disk) => (disk, String::from_str(alloc, "ok")?),
        Err(refused) => {
            let why = refused.why;
            (refused.back, format!(in alloc; "{why:?}")?)
        }
    };
    let count = count(alloc, disk)?;
    Ok(format!(in alloc; "{said} {count}")?)
}

pub fn shown(alloc: Global, line: &str) -> Result<String> {
    let row = Value::from_str(alloc, line)?;
    let id = Units::from_str(alloc, text(&row, "pad"))?;
    let Some(pad) = PadId::read(alloc, &id)? else {
        return Err(anyhow!("no pad's id"));
    };
    match import(alloc, &pad, text(&row, "text")) {
        Ok(history) => said(alloc, &row, history),
        Err(why) => Err(anyhow!("{}", why)),
    }
}

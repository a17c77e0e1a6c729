//! What the tests share.

ghost use Rattle.std.specs.Prelude.{[], IfOk};

use ep_apply::Doc;
use ep_disk_mem::MemDisk;
use ep_groups::Drawn;
use ep_outside::{Limits, Machine};
use ep_pad::PadMachine;
use ep_units::{Grant, NoMemory, PadId, Units};
use std::alloc::Global;
use std::test::Fail;

pub const LIMITS: Limits = Limits {
    live: 64,
    logins: 64,
    units: 1_000,
    journal: 10_000,
    openings: 0,
    pads: 2,
};

pub const DRAWN: Drawn = Drawn {
    digits: [10, 11, 12, 13, 14, 15, 16, 17, 18, 19],
};

pub fn id(alloc: Global, name: &str) -> Result<PadId, NoMemory> {
    let text = Units::from_str(alloc, name)?;
    let id = PadId::read(alloc, &text)?;
    id.ok_or(NoMemory)
}

/// Leave for an author to enter the pad `a`.
pub fn grant(alloc: Global) -> Result<Grant, NoMemory> {
    let pad = id(alloc, "a")?;
    let asked = Units::from_str(alloc, "a")?;
    let author = Units::from_str(alloc, "a.1")?;
    let token_author = Units::from_str(alloc, "a.1")?;
    Ok(Grant {
        pad,
        asked,
        author,
        token_author,
        member: false,
        read_only: false,
    })
}

/// A pad on an empty disk.
pub fn machine(alloc: Global) -> Result<PadMachine<MemDisk>, Fail>
    ensures { IfOk result (λ m. ⟦<PadMachine<MemDisk> as Machine>⟧.stands m m []) }
{
    let disk = MemDisk::new(alloc, Vec::new(alloc), Vec::new(alloc))?;
    match PadMachine::open(alloc, disk, LIMITS) {
        Ok(pad) => Ok(pad),
        Err(refused) => Err(Fail::from(refused.why)),
    }
}

pub fn has_text(alloc: Global, doc: &Doc, text: &str) -> Result<bool, NoMemory> {
    let units = doc.text(alloc)?;
    let found = units.to_text_lossy(alloc)?;
    Ok(found.as_str() == text)
}

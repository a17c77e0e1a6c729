//! What the tests of files share: ids of pads, and a folder that is not there before.

use ep_units::{PadId, Units};
use std::alloc::Global;
use std::fs;
use std::test::Fail;

pub fn pad(alloc: Global, id: &str) -> Result<PadId, Fail> {
    let units = Units::from_str(alloc, id)?;
    Ok(PadId::read(alloc, &units)?.ok_or("no id")?)
}

pub fn fresh_folder(rt: &HostRuntime, path: &str) -> Result<(), Fail> {
    let _ = fs::remove_dir_all(rt, path);
    Ok(fs::create_dir(rt, path)?)
}

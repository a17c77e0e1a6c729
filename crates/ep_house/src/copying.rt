//! Copies of what a call is given.

ghost use Rattle.std.specs.Prelude.{◌≡◌, IfOk, option_map};

use ep_groups::Listed;
use ep_units::{NoMemory, Units};
use std::alloc::Global;

pub fn copied_all(alloc: Global, items: &[Units]) -> Result<Listed<Units>, NoMemory>
    ensures { IfOk result (λ all. all ≡ items.now) }
{
    let mut all = Listed::new(alloc);
    for item in items {
        all.push(item.copy(alloc)?)?;
    }
    Ok(all)
}

pub fn copied_name(alloc: Global, name: Option<&Units>) -> Result<Option<Units>, NoMemory>
    ensures { IfOk result (λ copy. copy ≡ option_map (λ x. x.now) name.entry) }
{
    match name {
        Some(name) => Ok(Some(name.copy(alloc)?)),
        None => Ok(None),
    }
}

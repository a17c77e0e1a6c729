//! The names of the members of a pad's exported history.

ghost use Rattle.std.specs.Prelude.{◌≡◌, IfOk};
ghost use Rattle.std.specs.String.{string_bytes};
ghost use Rattle.ep_units.specs.Utf8.{utf8_of};
ghost use Rattle.ep_export.specs.Keys.{pad_key, rev_key};

use ep_units::{NoMemory, PadId, Units};
use std::alloc::Global;

/// The id as a text.
fn id(alloc: Global, pad: &PadId) -> Result<String, NoMemory>
    ensures { IfOk result (λ s. string_bytes s ≡ utf8_of pad.now) }
{
    let units = Units::from_slice(alloc, pad.as_slice())?;
    units.to_text_lossy(alloc)
}

/// The name of the member that says what the pad is.
pub fn pad_key(alloc: Global, pad: &PadId) -> Result<String, NoMemory>
    ensures { IfOk result (λ s. string_bytes s ≡ pad_key pad.now) }
{
    let id = id(alloc, pad)?;
    let id = id.as_str();
    Ok(format!(in alloc; "pad:{id}")?)
}

/// The name of the member that is a revision, behind that of the pad's.
pub fn rev_key(alloc: Global, pad: &str, n: u64) -> Result<String, NoMemory>
    ensures { IfOk result (λ s. string_bytes s ≡ rev_key pad.now n) }
{
    Ok(format!(in alloc; "{pad}:revs:{n}")?)
}

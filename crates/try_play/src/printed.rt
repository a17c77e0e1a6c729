//! Whether what is shown is printed as a line.

use ep_event::Shown;
use ep_print::print_shown;
use ep_units::NoMemory;
use std::alloc::Global;

/// Whether the line begins so, and has this behind it.
pub fn is_printed(alloc: Global, shown: Shown, start: &str, rest: &str) -> Result<bool, NoMemory> {
    let line = print_shown(alloc, &shown)?;
    Ok(line.as_str().strip_prefix(start) == Some(rest))
}

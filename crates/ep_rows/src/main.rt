//! Worked rows: what the calls of several crates answer, with ample memory.
//!
//! A line has a question and its answer, below the name of what is shown. The stored run has the answers that must come,
//! which are worked out from the rules and not taken from this program. A row stands here where it needs a crate that the
//! one it shows doesn't stand on, as a changeset's text or a disk in memory.
#![tactic(auto)]

mod changes;
mod files;
mod inverses;
mod journals;
mod slides;
mod splices;
mod stops;

use anyhow::Result;

fn main(rt: HostRuntime) -> Result<()> {
    splices::print(&rt)?;
    splices::print_paintings(&rt)?;
    inverses::print(&rt)?;
    slides::print(&rt)?;
    files::print(&rt)?;
    files::print_records(&rt)?;
    files::print_full(&rt)?;
    stops::print(&rt)?;
    stops::print_faults(&rt)
}

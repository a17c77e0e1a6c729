//! The real devices: files, the clock, random numbers, and standard input and output. This is the edge that is trusted.
//!
//! The crates above may rest on the traits' clauses alone. No device here tells what it holds or has left, since no
//! contract can say what the system gives or takes; each counts its faults, and fails only where it counted one.
//! It is not for what bytes mean.
#![tactic(auto)]

mod body;
mod file_disk;
mod file_shelf;
mod keeping;
mod mending;
mod naming;
mod ordered;
mod place;
mod standard;
mod sys_clock;
mod sys_draws;

pub use file_disk::FileDisk;
pub use file_shelf::{FileShelf, Lacking};
pub use naming::{file_name, id_of};
pub use place::Place;
pub use standard::{StdSink, StdSource};
pub use sys_clock::{SysClock, whole_ms};
pub use sys_draws::SysDraws;

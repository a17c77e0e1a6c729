//! The pads of a server and its directory: one cell for each pad, which gets it at its first pass and keeps it, and one
//! for the directory.
//!
//! `Registry` is a machine that answers a name with the name's one cell, and it stands in a cell of its own. It calls no
//! pad's disk: a pad is opened within its own cell. The crates above may rest on what each pass of a pad has seen, and on
//! what a hall has seen of the names that were asked for: which cell each name has, and why a name was refused one. It is
//! over any machine that stands on a disk (`PadOver`), as `LazyPad` of `ep_pad` does, and is not for what a pad does.
//!
//! `Directory` is a `DirPort` over any keeper. What a call answers stands with the directory's machine.
#![tactic(auto)]

mod copying;
mod dir_calls;
mod directory;
mod named;
mod pad_machine;
mod pad_over;
mod pads;
mod passing;
mod registry;
mod replies;
mod shelved;

pub use directory::{DirPass, Directory};
pub use ep_pad::PassBad;
pub use named::{Kept, Named, Waiting};
pub use pad_over::PadOver;
pub use pads::{Hall, PadPass, Pads};
pub use registry::{Found, Registry};

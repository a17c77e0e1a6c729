//! A pad's whole history, moved: from its file to a sink as one text, or from such a text of a source into its file.
//!
//! The crates above may rest on what is written, on what the file then stands for, whatever a crash leaves, and on the cause
//! of each end. It is not for what a text says, nor for which words ask for it.
#![tactic(auto)]

mod exporting;
mod file;
mod importing;
mod last;
mod lines;
mod moved;
mod moving;
mod putting;
mod rereading;
mod stop;
mod text;
mod told;
mod usage;

pub use exporting::export_to;
pub use importing::{Imported, import_into, import_to};
pub use moved::Moved;
pub use moving::move_pad;
pub use usage::say_usage;

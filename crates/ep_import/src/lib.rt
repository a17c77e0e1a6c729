//! A pad's whole history, read from one JSON text.
//!
//! The crates above may rest on `specs/Imported`: `import` answers a history exactly where a text says one, and else its
//! first refusal, with the path of the member that is missing or wrong. Nothing here knows of a file.
#![tactic(auto)]

mod bad;
mod history;
mod importing;
mod laws;
mod members;
mod place;
mod replaying;
mod rows;

pub use bad::ImportBad;
pub use history::History;
pub use importing::{MOST_BYTES, import};
pub use laws::{a_text_has_one_answer, an_export_is_imported, births_can_be_exported};
pub use place::Place;

//! Texts as lists of UTF-16 units, the unit of every length and place of a changeset.
//!
//! The crates above may rest on `Units` being that list, on the definitions in `specs/`, on the laws in
//! `laws` and on the exact clauses of the calls. It is not for anything that has attributes.
#![tactic(auto)]

mod base36;
mod clean;
mod grant;
mod halves;
mod laws;
mod lines;
mod no_memory;
mod order;
mod pad_id;
mod session;
mod units;
mod utf8;

pub use base36::{DigitRun, MOST_READ, digits36, read36, write36};
pub use grant::Grant;
pub use halves::is_high;
pub use laws::{utf8_and_units_are_one, well_formed_has_no_lone_half, write36_is_read_back};
pub use lines::ends_in_newline;
pub use no_memory::NoMemory;
pub use pad_id::PadId;
pub use session::Session;
pub use units::Units;
pub use utf8::TextBad;

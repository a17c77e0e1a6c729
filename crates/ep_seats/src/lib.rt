//! The sessions of one opening of a pad, as a pad keeps them in memory.
//!
//! The crates above may rest on `Seats` standing for the sessions of pads of `ep_history`: each call answers what holds
//! of every pad that it stands for, and after a change it stands for what became of them. Of a session that ended it
//! keeps why, and nothing else. It is not for what a session reads or writes, and nothing here is in a journal.
#![tactic(auto)]

mod admission;
mod laws;
mod place;
mod seats;

pub use admission::PadFacts;
pub use ep_history::{PadBad, Why};
pub use laws::kept_seats_stand_for_pads;
pub use seats::{Live, Seats};

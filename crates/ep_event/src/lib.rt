//! What happens to a pad and its clients, and what a line of output shows of it: the types alone.
//!
//! A script reads and prints them, and a world plays them; neither needs the other. The crates above may rest on nothing
//! here but the types. What an event does stands with the world, and how a line is spelled with the script.
#![tactic(auto)]

mod event;
mod shown;

pub use event::{Event, Local, StopAt};
pub use shown::{Ended, Reason, Shown, State, Verb};

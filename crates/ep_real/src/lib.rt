//! The real devices that a program's words speak of, opened, and all that the program does over them.
//!
//! The program and its stored runs may rest on one way to begin: what the words name is opened here, and nowhere else.
//! What is done over the devices is `run` of `ep_run`. It is not for who comes to the doors, nor for when they end.
#![tactic(auto)]

mod begun;
mod doors;
mod host;
mod keeping;
mod missing;
mod opened;
mod running;
mod shelf;
mod spoken;

pub use begun::{Begun, Beside, begin};
pub use doors::RealDoors;
pub use host::RealJob;
pub use missing::Missing;
pub use running::{run_begun, run_words};

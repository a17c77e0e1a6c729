//! A schedule that is drawn from a number, and played: clients edit, send, hear, are lost and resume, until all have
//! heard everything.
//!
//! It is played on the world that plays scripts. The crates above may rest on `make` writing the five lines of the world to
//! which the drawn events lead, for whatever number, on there being one such world (`one_world`), and on the schedule theorem
//! speaking of it. How often each thing happens is the generator's, and no clause says it.
#![tactic(auto)]

mod bad;
mod drawing;
mod generator;
mod laws;
mod lines;
mod playing;
mod round;
mod same;
mod schedule;

pub use bad::MakeBad;
pub use laws::one_world;
pub use schedule::make;

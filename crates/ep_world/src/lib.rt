//! One pad with its clients and guests, played event by event on the machines that a server and its browsers run.
//!
//! The pad is a `PadMachine` on a disk, and who takes part is of `ep_members`. What this crate adds is what each event does
//! to them. The crates above may rest on `World::step` making the step of `ep_schedule`'s world that an event asks for, and
//! on what it answers being `shows` of it, over any disk that tells; so the schedule theorem is about what is played. It
//! doesn't know how a line or a changeset is spelled.
#![tactic(auto)]

mod bad;
mod clients;
mod entering;
mod reading;
mod schedule;
mod sending;
mod server;
mod stopping;
mod taking;
mod telling;
mod world;

pub use bad::WorldBad;
pub use schedule::{late_law, schedule_law};
pub use world::World;

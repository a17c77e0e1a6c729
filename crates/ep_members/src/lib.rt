//! Who takes part in a schedule: clients and guests by name, the connection of each, and what is under way on it.
//!
//! The crates above may rest on each of these being what the definitions in `specs/` say: a connection is its two queues,
//! and each call makes its step; a client hears, edits and submits as the client of `ep_undo` does; a name stands for one
//! client or guest. It knows no pad: whoever has one hands a connection what was fetched for it, and takes what was sent.
#![tactic(auto)]

mod actors;
mod conn;
mod member;
mod message;
mod telling;
mod undoing;

pub use actors::{Actor, Actors, Slot};
pub use conn::Conn;
pub use member::Member;
pub use message::{Down, Sent};
pub use telling::Pushed;
pub use undoing::Remake;

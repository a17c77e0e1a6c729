//! What the messages between a browser and the server are: their values, their members, and what each text says.
//!
//! The layers above may rest on the definitions in `specs/`, which are a table of members for each message, on the laws (no
//! text has two answers, and what is written is read again), and on the exact clauses of what reads one member. The calls
//! that read and write whole messages are in `ep_wire`.
#![tactic(auto)]

mod bad;
mod client;
mod laws;
mod listed;
mod member;
pub mod members;
mod refusals;
mod server;
pub mod session;

pub use bad::WireBad;
pub use client::{ClientMsg, Resume};
pub use laws::{a_text_has_one_answer, client_is_read_again, server_is_read_again};
pub use listed::Listed;
pub use member::Member;
pub use server::{ServerMsg, Word};

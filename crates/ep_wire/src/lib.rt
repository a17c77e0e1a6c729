//! The messages between a browser and the server, read from JSON texts and written as such.
//!
//! The layers above may rest on the exact clauses of the four calls: a text is read as what `ep_wire_words` says that it is,
//! and a message is written as the compact text of its JSON. It is not for sockets, nor for what an answer to a message is.
#![tactic(auto)]

mod client_reader;
mod client_writer;
mod pooled;
mod printing;
mod server_reader;
mod server_writer;

pub use client_reader::read_client;
pub use client_writer::write_client;
pub use ep_wire_words::{ClientMsg, Listed, Member, Resume, ServerMsg, WireBad, Word};
pub use server_reader::read_server;
pub use server_writer::write_server;

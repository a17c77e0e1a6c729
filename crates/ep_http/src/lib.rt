//! Requests of HTTP/1.1, read from a source, and replies, written to a sink.
//!
//! A connection brings one request and takes one reply. The crates above may rest on what a request is over the bytes of the
//! source, on the cause of each refusal and how much was taken by then, and on the bytes of a reply. It is not for chunked
//! bodies, for a second request on a connection, for fields of a head that only a proxy or a browser reads, or for what a
//! request asks for.
#![tactic(auto)]

mod bad;
mod fields;
mod head;
mod laws;
mod parameters;
mod piece;
mod reply;
mod request;
mod target;

pub use bad::HttpBad;
pub use laws::{a_source_has_one_answer, bytes_come_to_one_answer};
pub use reply::{SinkBad, refusal, write_reply};
pub use request::{Method, Request, read_request};

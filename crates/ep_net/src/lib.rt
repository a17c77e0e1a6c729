//! Callers of the API over sockets, and the doors at which they and the callers of pads come. This is the edge that is
//! trusted.
//!
//! The crates above may rest on the traits' clauses alone. No device here tells what it gives or takes, since no contract
//! can say that of a socket; each counts its faults, and fails only where it counted one. It is not for what a message or
//! a request means.
#![tactic(auto)]

mod api_stream;
mod room;
mod tcp_doors;

pub use api_stream::ApiStream;
pub use ep_ws::{Bounds, Patience, Place, Places, WakeEar, WsLink};
pub use room::connections_under;
pub use tcp_doors::TcpDoors;

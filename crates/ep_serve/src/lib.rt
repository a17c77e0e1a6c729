//! The server: what is done for each caller at its doors.
//!
//! A caller of pads gets a session on the house's pads and directory, by a port that rings for the others; a caller of the
//! API gets the reply to its one request. It is not for sockets and files: it takes any doors, shelf, keeper, clock and
//! draws.
#![tactic(auto)]

mod asked;
mod server;
mod work;

pub use asked::{Came, Due, Unanswered, answer_caller};
pub use server::Server;
pub use work::{Asking, Replied, RepliedOf, Sat, SatOf, Serving, Sitting, Work};

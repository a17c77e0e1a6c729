//! One connection, served: from its first message to its end.
//!
//! `serve_session` serves a link over any pads, directory and clock. What it did is one list, its log, of which the walk in
//! `specs/Session` says which there may be. The crates above may rest on that, and on the laws of the walk in `laws`. It is
//! not for what a pad answers, nor for how messages travel.
#![tactic(auto)]

mod act;
mod begin;
mod drawing;
mod end;
mod entering;
mod fetch;
mod hear;
mod laws;
mod place;
mod ready;
mod say;
mod serve;
mod session;
mod turn;

pub use end::{BadKind, End};
pub use laws::{
    asks_as_told, begins_in_order, cursor_counts, refuses_where_none_is, sends_its_output,
    tells_before_hearing,
};
pub use place::Place;
pub use ready::Ready;
pub use session::{Report, serve_session};

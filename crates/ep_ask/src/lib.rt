//! Requests of the HTTP API, read to calls, and its replies as JSON.
//!
//! The crates above may rest on which call a request asks for, or why it is refused, by one table of functions with
//! their parameters, and on the text of each reply. It is not for what a call does, nor for the bytes of HTTP.
#![tactic(auto)]

mod answer;
mod bad;
mod call;
mod function;
mod key;
mod param;
mod parameters;
mod path;
mod reading;
mod reply;

pub use answer::Data;
pub use bad::ApiBad;
pub use call::Call;
pub use function::Function;
pub use param::Param;
pub use reading::read_call;
pub use reply::{Reply, make_reply};

//! A client: the document of the revision that it has heard, what it submitted, what it did not, and what it shows.
//!
//! The crates above may rest on `Client` being a kept client of `ep_history`, whose steps its calls make, each refusal
//! in its order, and on the view always being the document changed by the two. Nothing here knows of a connection:
//! whoever owns a client hands it what it hears, in the order in which it came.
#![tactic(auto)]

mod bad;
mod client;
mod heard;

pub use bad::ClientBad;
pub use client::Client;
pub use ep_history::Submission;
pub use heard::{Heard, Told};

//! The HTTP API: what each of its functions does, and what is replied.
//!
//! The crates above may rest on which calls of the directory and of pads a request makes, in their order, and on the reply
//! being the one that their answers ask for. It is not for how a request is read or a reply is spelled.
#![tactic(auto)]

mod answering;
mod both;
mod causes;
mod directory;
mod drawing;
mod pads;
mod visiting;

pub use answering::{Answered, answer};

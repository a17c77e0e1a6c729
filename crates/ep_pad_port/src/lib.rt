//! A house: the pads of a server, each on its file, and its directory, as one value that many threads share.
//!
//! It is both ports. A call of the pads' port is one call of the pad's machine; the directory's calls are those of
//! `ep_house`. The crates above take any `PadPort` and any
//! `DirPort`, and rest on the clauses of these; only who opens a house names it. It is not for what a call answers, which
//! stands with the pad and with the directory, nor for which cell a name has.
#![tactic(auto)]

mod dir_port;
mod house;
mod pad_calls;
mod pad_port;

pub use house::{House, HouseOf};
pub use pad_calls::PadCalls;

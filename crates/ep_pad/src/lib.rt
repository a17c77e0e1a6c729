//! A pad on its file: each call is one step of a pad machine.
//!
//! A call that changes what is recorded appends its record, synced, before the pad in memory changes; after a fault of
//! the store the machine is closed, and the next call first opens it again. The crates above may rest on each call being
//! a step of the rules' machine (`IsStep` of `ep_history`) over any disk that tells, of each state that it stands for.
//! `LazyPad` is such a pad that its first call opens, and `PadPort` is what many callers know of the pads of a server. It
//! knows no connection, and has no thread.
#![tactic(auto)]

mod calls;
mod entries;
mod keeping;
mod lazy;
mod lengths;
mod machine;
mod opening;
mod pad_port;
mod pass_bad;
mod taking;
mod wanted;

pub use entries::{PadEntry, PadReply};
pub use ep_history::PadBad;
pub use ep_pad_state::{CatchUp, Committed, Fetched, PadStatus, Piece, Welcome};
pub use lazy::LazyPad;
pub use machine::PadMachine;
pub use pad_port::PadPort;
pub use pass_bad::PassBad;
pub use wanted::Wanted;

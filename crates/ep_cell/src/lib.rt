//! A machine behind a lock, whose calls stand in one history that each pass has seen a beginning of.
//!
//! A `Cell` takes any `Machine`. The crates above may rest on what each call says of the history that its
//! pass has seen: how it goes on, that it is legal, and that of two passes the one begins with what the
//! other has seen. It knows no pad and no disk. It is not for when a call gets its turn: a call may wait
//! for as long as the machine is out.
#![tactic(auto)]

mod calls;
mod cell;
mod closing;
mod opening;
mod passes;
mod rule;
mod view;

pub use cell::{Cell, Pass, PassOf};
pub use view::{Call, Held, Last, View};

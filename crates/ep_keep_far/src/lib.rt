//! A keeper that another thread has.
//!
//! A database stays in the thread that opened it; whoever else wants something of it asks there. A call goes to that
//! thread, is made, and its answer comes back with what was asked. The crates above may rest on this: a far keeper
//! tells what the keeper at its desk told with the last answer. It is not for what a keeper keeps.
#![tactic(auto)]

mod asked;
mod desk;
mod far_keeper;
mod puts;

pub use asked::{Answer, Asked, Chain, Said};
pub use desk::Desk;
pub use far_keeper::FarKeeper;

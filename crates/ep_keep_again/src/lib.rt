//! A keeper that is opened anew after a call of it failed.
//!
//! A database that met a fault may stay in it as long as its connection is open. So the call that failed gives that up,
//! and the next one opens it again. The crates above may rest on this being a keeper, which tells what the keeper told
//! that it began with, until a call of that fails. It is not for what an opening finds.
#![tactic(auto)]

mod again;

pub use again::{AgainKeeper, Opener};

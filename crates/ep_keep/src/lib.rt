//! A keeper in memory, some of whose calls fail.
//!
//! `MapKeeper` tells its map and meets every clause of `Keeper` exactly, so the crates above can be read
//! and tested over it. It is not for data that must outlive the program, nor for many pairs: a call
//! walks all of them.
#![tactic(auto)]

mod map_keeper;
mod pairs;

pub use map_keeper::MapKeeper;

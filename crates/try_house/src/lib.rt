//! Tries a house: its pads, with toys and threads, its directory, by the calls of its ports, and who is woken by them.
//!
//! The libraries are `ep_house`, `ep_pad_port`, `ep_cell` and `ep_ring`, over a shelf and a keeper in memory.
#![tactic(auto)]

#[cfg(test)]
mod cell;
#[cfg(test)]
mod directory;
#[cfg(test)]
mod ears;
#[cfg(test)]
mod given;
#[cfg(test)]
mod house;
#[cfg(test)]
mod pads;

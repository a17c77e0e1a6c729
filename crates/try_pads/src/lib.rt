//! Tries pads: the steps of a head, who sits in an opening, a pad in memory and one on a disk in memory, a client,
//! and one that takes back what it did.
//!
//! Nothing but tests stands here.
#![tactic(auto)]

#[cfg(test)]
mod client;
#[cfg(test)]
mod grants;
#[cfg(test)]
mod machine;
#[cfg(test)]
mod seats;
#[cfg(test)]
mod state;
#[cfg(test)]
mod step;
#[cfg(test)]
mod undo;

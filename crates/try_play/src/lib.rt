//! Tries what scripts say, what is printed of what happens, and schedules.
//!
//! Nothing but tests stands here.
#![tactic(auto)]

#[cfg(test)]
mod lines;
#[cfg(test)]
mod printed;
#[cfg(test)]
mod reasons;
#[cfg(test)]
mod schedules;
#[cfg(test)]
mod scripts;
#[cfg(test)]
mod shown;
#[cfg(test)]
mod told;
#[cfg(test)]
mod worlds;

//! Tries the real devices of `ep_edge`: the clock, the draws, the names of pads' files, and files and folders as disks and
//! shelves.
#![tactic(auto)]

#[cfg(test)]
mod file_disk;
#[cfg(test)]
mod file_shelf;
#[cfg(test)]
mod folders;
#[cfg(test)]
mod keeping;
#[cfg(test)]
mod mending;
#[cfg(test)]
mod naming;
#[cfg(test)]
mod sys_clock;
#[cfg(test)]
mod sys_draws;

//! Doors at which callers come, spawners that start a job for each, and the loop that joins them.
//!
//! Doors count the callers that they gave, and a spawner the jobs that it started; so who serves can be told that each
//! caller got a job. It is not for what a job does, nor for what a caller says.
#![tactic(auto)]

mod came;
mod doors;
mod mem_spawner;
mod serving;
mod spawner;
mod thread_spawner;

pub use came::Came;
pub use doors::Doors;
pub use mem_spawner::MemSpawner;
pub use serving::{Host, Served, serve};
pub use spawner::{Job, Spawner};
pub use thread_spawner::{Starter, ThreadSpawner, start_all};

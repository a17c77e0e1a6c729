//! Devices in memory, for tests and for programs that need no real ones.
//!
//! Each is made from what it holds or may answer, and the devices that can fail from a list of the numbers of
//! their calls that fail, counted from 1. Each meets the trait of its device and tells what it holds. None
//! takes memory where its call has no answer for it. It is not for data that must outlive the program.
#![tactic(auto)]

mod disk_calls;
mod faults;
mod held;
mod mem_clock;
mod mem_disk;
mod mem_draws;
mod mem_file;
mod mem_shelf;
mod mem_sink;
mod mem_source;
mod ranges;
mod slots;
mod torn;

pub use faults::Faults;
pub use mem_clock::MemClock;
pub use mem_disk::MemDisk;
pub use mem_draws::MemDraws;
pub use mem_file::MemFile;
pub use mem_shelf::MemShelf;
pub use mem_sink::MemSink;
pub use mem_source::MemSource;

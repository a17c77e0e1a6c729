//! The outside: the devices that a program is handed, as traits with contracts.
//!
//! Each device has a count of faults that never falls, and answers `Failed` only where it rose. A device
//! may tell that it never fails (`is_steady`), and may tell what it holds or has left. So the crates
//! above say the cause of each fault, and what comes out where the device tells. It is not for what
//! bytes mean.
#![tactic(auto)]

mod clock;
mod crash;
mod device;
mod disk;
mod draws;
mod image;
mod keeper;
mod limits;
mod machine;
mod read;
mod refused;
mod shelf;
mod sink;
mod source;
mod text;

pub use clock::Clock;
pub use crash::Crash;
pub use device::Device;
pub use disk::Disk;
pub use draws::Draws;
pub use image::Image;
pub use keeper::{KeepBad, Keeper, Pair, Pairs, Put};
pub use limits::Limits;
pub use machine::Machine;
pub use read::{ReadBad, read_all};
pub use refused::Refused;
pub use shelf::{Shelf, ShelfBad};
pub use sink::Sink;
pub use source::{Failed, Got, Source};
pub use text::Text;

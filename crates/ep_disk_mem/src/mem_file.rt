//! Files of a shelf in memory.

use ep_units::PadId;

/// A file, and the numbers of the device calls of its disk that fail, counted from 1.
#[derive(Drop)]
pub struct MemFile {
    pub name: PadId,
    pub bytes: Vec<u8>,
    pub fails: Vec<u64>,
}

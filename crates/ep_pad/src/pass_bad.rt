//! Why a pass of a pad was not given.

/// Why a pass of a pad was not given.
#[derive(Drop)]
pub enum PassBad {
    /// So many pads have a place, which is the limit, and this is not one of them.
    Pads(u64),
    /// The shelf failed; so often has it failed.
    Shelf(u64),
    /// Nobody has made the pad, and who asked doesn't make it.
    Absent,
    NoMemory,
}

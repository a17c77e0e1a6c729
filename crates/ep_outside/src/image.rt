//! Images.

/// What a crash leaves of what isn't synced.
#[derive(Debug, Drop)]
pub enum Image {
    /// The bytes and the length of the last sync.
    Old,
    /// What a read gives.
    New,
    /// The fill, over and over from the file's beginning, wherever another byte may stand; the length is
    /// moved into the span that a crash may leave. An empty fill stands for a byte 00.
    Torn { length: u64, fill: Vec<u8> },
}

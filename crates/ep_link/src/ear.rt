//! What wakes a link that waits.

/// Wakes a link that waits for a message. No clause speaks of it: a link that isn't woken finds at the end of its wait
/// what it missed.
pub trait Ear: Drop {
    /// False where nobody listens any more.
    fn ring(&self) -> bool;
}

/// The ear of a link that never waits.
#[derive(Clone, Copy, Debug)]
pub struct NoEar;

impl Ear for NoEar {
    fn ring(&self) -> bool {
        true
    }
}

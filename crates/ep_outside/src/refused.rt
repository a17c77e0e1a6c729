//! Refusals that give a value back.

/// A value that was taken and refused, and why.
#[derive(Debug, Drop)]
pub struct Refused<T, E> {
    pub back: T,
    pub why: E,
}

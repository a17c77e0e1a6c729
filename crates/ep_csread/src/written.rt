//! Changeset text as it is written, before anything is counted.

use ep_cs::Kind;

/// A number that stands in a text.
#[derive(Clone, Copy, Debug)]
pub struct Number {
    /// Its value, 4,294,967,296 standing for all that are larger.
    pub value: u64,
    /// How many units of the text stand from its first digit on.
    pub left: usize,
}

/// An operation.
#[derive(Drop)]
pub struct WrittenOp {
    pub stars: Vec<Number>,
    /// 0 where none is written.
    pub lines: Number,
    pub kind: Kind,
    pub units: Number,
}

/// A text up to its `$`, and what stands behind it.
#[derive(Drop)]
pub struct Written<'a> {
    pub old: Number,
    pub shrinks: bool,
    pub difference: Number,
    pub ops: Vec<WrittenOp>,
    pub bank: &'a [u16],
}

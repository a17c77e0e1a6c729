//! How moving a pad ends.

ghost use Rattle.std.specs.Prelude.{◌≡◌};
ghost use Rattle.ep_move.specs.Moving.{code_of};

/// How moving a pad ended.
#[derive(Clone, Copy, Debug, PartialEq, Eq)]
pub enum Moved {
    /// All of it was moved.
    All,
    /// The pad or the text is refused: a line says why, and nothing was moved.
    Refused,
    /// The source failed.
    SourceFault,
    /// The sink failed.
    SinkFault,
    /// The shelf failed, or the pad's disk.
    DiskFault,
    NoMemory,
}

impl Moved {
    /// The status of a program that ends so.
    pub fn code(self) -> u8
        ensures { result ≡ code_of self }
    {
        match self {
            Moved::All => 0,
            Moved::SourceFault => 4,
            Moved::SinkFault => 5,
            Moved::DiskFault => 6,
            Moved::NoMemory => 7,
            Moved::Refused => 13,
        }
    }
}

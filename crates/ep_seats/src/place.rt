//! What is kept of a session.

ghost use Rattle.std.specs.Prelude.{◌≡◌};
ghost use Rattle.ep_seats.specs.Places.{sits};

use ep_history::Why;
use ep_units::Units;

/// A live session's author and whether it may read alone; of an ended one, why it ended.
#[derive(Drop)]
pub enum Place {
    Sits { author: Units, read_only: bool },
    Ended(Why),
}

impl Place {
    /// Whether this author sits there.
    pub fn is_of(&self, author: &Units) -> bool
        ensures { result ≡ sits author.now self.now }
    {
        match self {
            Place::Sits {
                author: sitting,
                ..
            } => sitting == author,
            Place::Ended(_) => false,
        }
    }
}

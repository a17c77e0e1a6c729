//! Where a session stands.

ghost use Rattle.std.specs.Prelude.{◌≡◌};
ghost use Rattle.ep_session.specs.Session.{counted, nowhere};
ghost use Rattle.ep_session.specs.Served.{session_of};

use ep_units::Session;

/// Where a session stands.
#[derive(Clone, Copy, Debug, PartialEq, Eq)]
pub struct Place {
    /// A session was answered.
    pub inside: bool,
    pub me: Session,
    pub birth: u64,
    /// The revision that the client begins at.
    pub start: u64,
    /// The last revision that was told, and its time.
    pub rev: u64,
    pub time: u64,
    /// The head at a resumption: up to it revisions are told as missed.
    pub caught: u64,
    /// Of how many of its edits it was told that they have become nothing.
    pub nops: u64,
    /// How many of its edits were committed.
    pub taken: u64,
}

/// A number so much higher, which stands still at the greatest `u64`.
pub fn counted(n: u64, more: u64) -> u64
    ensures { result ≡ counted n more }
{
    n.saturating_add(more)
}

impl Place {
    /// Before a session was answered.
    pub fn nowhere() -> Place
        ensures { result ≡ nowhere }
    {
        Place {
            inside: false,
            me: Session { epoch: 0, count: 0 },
            birth: 0,
            start: 0,
            rev: 0,
            time: 0,
            caught: 0,
            nops: 0,
            taken: 0,
        }
    }

    /// The session that was answered, or none.
    pub fn session(&self) -> Option<Session>
        ensures { result ≡ session_of self.now }
    {
        if self.inside { Some(self.me) } else { None }
    }
}

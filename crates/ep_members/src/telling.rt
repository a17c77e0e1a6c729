//! What goes down a connection.

ghost use Rattle.std.specs.Prelude.{◌≡◌, IfOk, OnOk};
ghost use Rattle.ep_members.specs.Conns.{kept_closing_if};
ghost use Rattle.ep_members.specs.Telling.{ended_by, is_first, pushed_by, pushed_next, pushed_rev, shows_pushed, told_next, told_rev};

use crate::conn::Conn;
use ep_event::{Ended, Shown, Verb};
use ep_history::{Rev, Why};
use ep_pad_state::Fetched;
use ep_units::{NoMemory, Units};

/// What a client is told.
#[derive(Clone, Copy, Debug, PartialEq, Eq)]
pub enum Pushed {
    Nothing,
    Revision(u64),
    /// That its submission has become nothing, at this revision.
    Spent(u64),
    Closing(Ended),
}

impl Conn {
    /// Of what was fetched for its session, the next enters the queue down: that an edit became nothing at the last
    /// revision sent, and else the next revision, where there is one.
    pub fn tell_next(&mut self, fetched: Fetched) -> Result<Pushed, NoMemory>
        ensures pushed { IfOk result (λ p. p ≡ pushed_next self.old.sent fetched.nops.items fetched.revs.items) }
        ensures told { OnOk result (self.new ≡ told_next fetched.nops.items fetched.revs.items self.old) }
    {
        if is_first(&fetched.nops, self.sent) {
            self.tell_spent()?;
            return Ok(Pushed::Spent(self.sent));
        }
        tell_rev(self, fetched.revs)
    }

    /// The closing of a session that was replaced, or whose pad was deleted, enters the queue down; of one that ended
    /// otherwise nothing does.
    pub fn tell_end(&mut self, why: Why) -> Result<Pushed, NoMemory>
        ensures pushed { IfOk result (λ p. p ≡ pushed_by (ended_by why)) }
        ensures told { OnOk result (self.new ≡ kept_closing_if (ended_by why) self.old) }
    {
        let word = match why {
            Why::Replaced(_) => Ended::UserDup,
            Why::Deleted(_) => Ended::Deleted,
            Why::Reopened(_) | Why::Left => return Ok(Pushed::Nothing),
        };
        self.close(word)?;
        Ok(Pushed::Closing(word))
    }
}

/// Whether the first of these is this revision.
fn is_first(nops: &[u64], rev: u64) -> bool
    ensures { result ≡ is_first nops.now rev }
{
    match nops.first() {
        Some(first) => *first == rev,
        None => false,
    }
}

/// The next revision, where there is one.
fn tell_rev(conn: &mut Conn, mut revs: Vec<Rev>) -> Result<Pushed, NoMemory>
    ensures pushed { IfOk result (λ p. p ≡ pushed_rev conn.old.sent revs.items) }
    ensures told { OnOk result (conn.new ≡ told_rev revs.items conn.old) }
{
    if revs.is_empty() {
        return Ok(Pushed::Nothing);
    }
    conn.tell(revs.remove(0))?;
    Ok(Pushed::Revision(conn.sent))
}

impl Pushed {
    /// What is shown of a push to the client of this name.
    pub fn show(self, name: Units) -> Shown
        ensures { result ≡ shows_pushed name self }
    {
        let verb = Verb::Push;
        match self {
            Pushed::Nothing => Shown::Nothing { verb, name },
            Pushed::Revision(rev) => Shown::Pushed { name, rev },
            Pushed::Spent(rev) => Shown::Noted { verb, name, rev },
            Pushed::Closing(word) => Shown::Closed { verb, name, word },
        }
    }
}

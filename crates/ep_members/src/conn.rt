//! A connection with its two queues.

ghost use Rattle.std.specs.Prelude.{◌≡◌, ◌∷◌, ◌++◌, [], List, Option, Some, None, OnOk};
ghost use Rattle.ep_members.specs.Conns.{kept_new, kept_sends, kept_tells, kept_tells_spent, kept_closing, kept_closing_if, kept_down, kept_cut, TakesUp, TakesDown};

use crate::message::{Down, Sent};
use ep_event::Ended;
use ep_history::Rev;
use ep_units::{NoMemory, Session};
use std::alloc::Global;
use std::collections::VecDeque;
use std::marker::Model;

/// A connection of one session. `up` is what the server is to take and `down` what the client is to hear, the first
/// first; `sent` is the last revision that entered the queue down, and `nops` counts the session's edits that became
/// nothing and were told there. Once `closed`, no second closing enters it. Where a call answers that memory was wanting, it
/// is not to be used any more.
pub struct Conn {
    pub(crate) session: Session,
    up: VecDeque<Sent>,
    down: VecDeque<Down>,
    pub(crate) sent: u64,
    nops: u64,
    pub(crate) closed: bool,
}

// It is written out, so that who drops one doesn't prove again how its parts are dropped.
impl Drop for Conn {
    fn drop(self) {
        let Conn {
            session: _,
            up: _,
            down: _,
            sent: _,
            nops: _,
            closed: _,
        } = self;
    }
}

impl Model for Conn {
    ghost use Rattle.ep_members.specs.Conns.{KeptConn, held_conn};

    ghost Value = { KeptConn };

    ghost view = { held_conn };
}

impl Conn {
    /// A new connection, whose client has this revision.
    pub fn new(alloc: Global, session: Session, rev: u64) -> Conn
        ensures { result ≡ kept_new session rev }
    {
        Conn {
            session,
            up: VecDeque::new(alloc),
            down: VecDeque::new(alloc),
            sent: rev,
            nops: 0,
            closed: false,
        }
    }

    pub fn session(&self) -> Session
        ensures { result ≡ self.now.session }
    {
        self.session
    }

    /// The last revision that entered the queue down.
    pub fn sent(&self) -> u64
        ensures { result ≡ self.now.sent }
    {
        self.sent
    }

    /// How many edits of its session that became nothing were told there.
    pub fn nops(&self) -> u64
        ensures { result ≡ self.now.nops }
    {
        self.nops
    }

    /// A message enters the queue up.
    pub fn send(&mut self, sent: Sent) -> Result<(), NoMemory>
        ensures { OnOk result (self.new ≡ kept_sends sent self.old) }
    {
        self.up.push_back(sent)?;
        Ok(())
    }

    /// The server takes the first message, where there is one.
    pub fn take(&mut self) -> Option<Sent>
        ensures { TakesUp self.old result self.new }
    {
        self.up.pop_front()
    }

    /// The next revision enters the queue down.
    pub fn tell(&mut self, rev: Rev) -> Result<(), NoMemory>
        ensures { OnOk result (self.new ≡ kept_tells rev self.old) }
    {
        let Some(sent) = self.sent.checked_add(1) else {
            return Err(NoMemory);
        };
        self.down.push_back(Down::Revision(rev))?;
        self.sent = sent;
        Ok(())
    }

    /// That its submission became nothing enters the queue down.
    pub fn tell_spent(&mut self) -> Result<(), NoMemory>
        ensures { OnOk result (self.new ≡ kept_tells_spent self.old) }
    {
        let Some(nops) = self.nops.checked_add(1) else {
            return Err(NoMemory);
        };
        self.down.push_back(Down::Spent(self.sent))?;
        self.nops = nops;
        Ok(())
    }

    /// The closing enters the queue down, once.
    pub fn close(&mut self, word: Ended) -> Result<(), NoMemory>
        ensures { OnOk result (self.new ≡ kept_closing word self.old) }
    {
        if self.closed {
            return Ok(());
        }
        self.down.push_back(Down::Closing(word))?;
        self.closed = true;
        Ok(())
    }

    /// The closing with this word, where there is one, enters the queue down, once.
    pub fn close_if(&mut self, word: Option<Ended>) -> Result<(), NoMemory>
        ensures { OnOk result (self.new ≡ kept_closing_if word self.old) }
    {
        match word {
            None => Ok(()),
            Some(word) => self.close(word),
        }
    }

    /// The client hears the first of the queue down, where there is something.
    pub fn hear(&mut self) -> Option<Down>
        ensures { TakesDown self.old result self.new }
    {
        self.down.pop_front()
    }

    /// The queue down is given up.
    pub fn give_up(&mut self)
        ensures { self.new ≡ kept_down self.old [] }
    {
        self.down.clear();
    }

    /// Both queues are gone.
    pub fn cut(&mut self)
        ensures { self.new ≡ kept_cut self.old }
    {
        self.up.clear();
        self.down.clear();
    }
}

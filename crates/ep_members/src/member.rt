//! A client with its connections.

ghost use Rattle.std.specs.Prelude.{◌≡◌, true, suc, not, ◌&&◌, if◌then◌else◌, Option, Some, None, OnOk, IfOk};
ghost use Rattle.ep_history.specs.Kept.{is_kept_own};
ghost use Rattle.ep_client.specs.Hearing.{told_of};
ghost use Rattle.ep_undo.specs.Undo.{undo_hears, undo_hears_rev};
ghost use Rattle.ep_event.specs.declared.shown.Shown.TheVariants as shown;
ghost use Rattle.ep_members.specs.Conns.{kept_new};
ghost use Rattle.ep_members.specs.Members.{HearsDown, SubmitsUp, TakesLate, kept_member_cut, kept_member_lost, kept_member_resumed};
ghost use Rattle.ep_local.specs.Local.{is_local_text};
ghost use Rattle.ep_members.specs.Undoing.{Edits, Remakes};

use crate::conn::Conn;
use crate::message::{Down, Sent};
use crate::undoing::{Remake, edit_view};
use ep_client::{Heard, Told};
use ep_event::{Local, Shown, Verb};
use ep_history::Rev;
use ep_invert::SpliceBad;
use ep_undo::UndoClient;
use ep_units::{NoMemory, Session, Units};
use std::alloc::Global;
use std::mem::replace;

/// A client, the birth of the pad that it is of, its connection, and the one before its last resumption. Where a call answers
/// that memory was wanting, it is not to be used any more.
pub struct Member {
    pub client: UndoClient,
    pub birth: u64,
    pub conn: Conn,
    pub earlier: Option<Conn>,
}

// It is written out, so that who drops one doesn't prove again how its parts are dropped.
impl Drop for Member {
    fn drop(self) {
        let Member {
            client: _,
            birth: _,
            conn: _,
            earlier: _,
        } = self;
    }
}

impl Member {
    /// The client's connection is lost: its queue down is given up, its queue up stays.
    pub fn lose(&mut self)
        ensures { self.new ≡ kept_member_lost self.old }
    {
        if self.client.client().is_connected() {
            self.client.lost();
            self.conn.give_up();
        }
    }

    /// It is connected anew, in this session, and is told the head.
    pub fn resume(&mut self, alloc: Global, session: Session, head: u64)
        ensures { self.new ≡ kept_member_resumed session head self.old }
    {
        let conn = Conn::new(alloc, session, self.client.client().rev());
        self.client.resume(session, head);
        self.earlier = Some(replace(&mut self.conn, conn));
    }

    /// All its connections are gone.
    pub fn cut_off(&mut self)
        ensures { self.new ≡ kept_member_cut self.old }
    {
        self.client.lost();
        self.conn.cut();
        self.earlier = None;
    }

    /// Whether it can be told anything: it is connected, and had no closing.
    pub fn may_be_told(&self) -> bool
        ensures { result ≡ (self.now.client.client.connected && not self.now.conn.closed) }
    {
        self.client.client().is_connected() && !self.conn.closed
    }

    /// The first message of the connection before its last resumption, with that connection's session.
    pub fn late(&mut self) -> Option<(Session, Sent)>
        ensures { TakesLate self.old result self.new }
    {
        let conn = self.earlier.as_mut()?;
        let sent = conn.take()?;
        Some((conn.session, sent))
    }

    /// It hears the first of its queue down. By the rules a client refuses nothing that it hears; if it did, that would be
    /// answered as want of memory.
    pub fn hear(&mut self, alloc: Global, name: Units) -> Result<Shown, NoMemory>
        ensures { IfOk result (HearsDown name self.old self.new) }
    {
        let verb = Verb::Hear;
        match self.conn.hear() {
            None => Ok(Shown::Nothing { verb, name }),
            Some(Down::Closing(word)) => {
                self.client.lost();
                Ok(Shown::Closed { verb, name, word })
            }
            Some(Down::Spent(rev)) => {
                heard(&mut self.client, alloc, Heard::Nop { rev })?;
                Ok(Shown::Noted { verb, name, rev })
            }
            Some(Down::Revision(rev)) => self.hear_rev(alloc, name, rev),
        }
    }

    fn hear_rev(&mut self, alloc: Global, name: Units, next: Rev) -> Result<Shown, NoMemory>
        ensures made { OnOk result (self.new ≡ record self.old { client = undo_hears_rev next.change next.session self.old.client }) }
        ensures shown { IfOk result (λ s. s ≡ (if is_kept_own next.session self.old.client.client.sent_in then shown.Committed name (suc self.old.client.client.rev) else shown.Heard name (suc self.old.client.client.rev))) }
    {
        let Some(rev) = self.client.client().rev().checked_add(1) else {
            return Err(NoMemory);
        };
        let told = heard(
            &mut self.client,
            alloc,
            Heard::Rev {
                rev,
                change: next.change,
                session: next.session,
            },
        )?;
        Ok(match told {
            Told::Commit => Shown::Committed { name, rev },
            Told::News => Shown::Heard { name, rev },
        })
    }

    /// It makes a local edit of what it sees, which it can take back, or is told why that is none.
    pub fn edit(&mut self, alloc: Global, edit: &Local) -> Result<Option<SpliceBad>, NoMemory>
        requires { is_local_text edit.now ≡ true }
        ensures { IfOk result (Edits edit.now self.old self.new) }
    {
        edit_view(alloc, &mut self.client, edit)
    }

    /// It takes an edit back, or makes one again, if there is one.
    pub fn remake(&mut self, alloc: Global, remake: Remake, name: Units) -> Result<Shown, NoMemory>
        ensures { IfOk result (Remakes remake name self.old self.new) }
    {
        remake.make(alloc, &mut self.client, name)
    }

    /// It sends what it has to send, if there is something.
    pub fn submit(&mut self, alloc: Global, name: Units) -> Result<Shown, NoMemory>
        ensures { IfOk result (SubmitsUp name self.old self.new) }
    {
        let Some(submission) = self.client.submit(alloc)? else {
            return Ok(Shown::Nothing {
                verb: Verb::Submit,
                name,
            });
        };
        let change = submission.change.copy(alloc)?;
        self.conn.send(Sent {
            base: submission.base,
            change: Ok(change),
        })?;
        Ok(Shown::Submitted {
            name,
            base: submission.base,
            change: submission.change,
        })
    }
}

/// A client hears, or memory is wanting.
fn heard(client: &mut UndoClient, alloc: Global, heard: Heard) -> Result<Told, NoMemory>
    ensures made { OnOk result (client.new ≡ undo_hears heard client.old) }
    ensures told { IfOk result (λ t. t ≡ told_of heard client.old.client) }
{
    match client.hear(alloc, &heard) {
        Ok(told) => Ok(told),
        Err(_) => Err(NoMemory),
    }
}

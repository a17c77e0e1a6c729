//! The client.

ghost use Rattle.std.specs.Prelude.{◌≡◌, ◌⊎◌, Err, is_some, option_map, IfOk, IfSome, OnErr, OnOk};
ghost use Rattle.ep_cs.specs.Edit.{apply};
ghost use Rattle.ep_cs.specs.Fits.{Fits};
ghost use Rattle.ep_cs.specs.Fitting.{fit_bad};
ghost use Rattle.ep_history.specs.Kept.{IsKeptSound};
ghost use Rattle.ep_client.specs.Hearing.{told_of, view_change};
ghost use Rattle.ep_client.specs.Refusals.{Refuses, fit_fault, hear_fault};
ghost use Rattle.ep_client.specs.Submitting.{Submits};
ghost use Rattle.ep_client.specs.declared.bad.ClientBad.TheVariants as bad;
ghost use Rattle.ep_undo.specs.Undo.{edited_beside, top, undo_edited, undo_hears, undo_lost, undo_resumes, undo_started, undone, redone, with_client};

use crate::stack::{Stack, copy_all, make_top, spread, take_news};
use ep_apply::fits;
use ep_client::{Client, ClientBad, Heard, Submission, Told};
use ep_cs::Change;
use ep_invert::invert;
use ep_units::{NoMemory, Session};
use std::alloc::Global;
use std::marker::Model;

/// A client, what takes back the edits of its user, and what makes these again.
///
/// What is heard of others waits: `recent` has the changes of the view since the last edit, undo or redo, for both stacks, and
/// each edit of a stack has those that came while it was the top. They are brought through an edit only where that is to be
/// made. So a heard change costs no follow, and an undo two for each that waits at the top.
pub struct UndoClient {
    client: Client,
    undos: Stack,
    redos: Stack,
    recent: Vec<Change>,
}

impl Drop for UndoClient {
    fn drop(self) {
        let UndoClient {
            client: _,
            undos: _,
            redos: _,
            recent: _,
        } = self;
    }
}

impl Model for UndoClient {
    ghost use Rattle.ep_undo.specs.Undo.{UndoState};
    ghost use Rattle.ep_undo.specs.Held.{coded_undo, held, IsHeld};

    ghost Value = { UndoState };

    ghost coded = { coded_undo };

    ghost view = { held };

    ghost invariant = { IsHeld };
}

impl UndoClient {
    /// A client with nothing to take back.
    pub fn start(alloc: Global, client: Client) -> UndoClient
        ensures { result ≡ undo_started client }
    {
        UndoClient {
            client,
            undos: Stack::new(alloc),
            redos: Stack::new(alloc),
            recent: Vec::new(alloc),
        }
    }

    /// The client, which is sound.
    pub fn client(&self) -> &Client
        ensures shown { result.now ≡ self.now.client }
        ensures sound { IsKeptSound self.now.client }
    {
        self.client.equations();
        &self.client
    }

    /// The user changes the view. Where that alters something it can be taken back, and what was taken back can't be made
    /// again.
    pub fn edit(&mut self, alloc: Global, change: &Change) -> Result<(), ClientBad>
        ensures made { OnOk result (self.new ≡ undo_edited change.now.edit self.old) }
        ensures refused { Refuses (fit_fault (fit_bad change.now self.old.client.view)) result }
        ensures kept { OnErr result (self.new ≡ self.old) }
    {
        fits(self.client.view(), change)?;
        if change.is_identity() {
            return self.client.edit(alloc, change);
        }
        let back = invert(alloc, change, self.client.view())?;
        spread(alloc, &mut self.undos, &mut self.redos, &mut self.recent)?;
        self.undos.reserve()?;
        self.client.edit(alloc, change)?;
        self.undos.push(alloc, back);
        self.undos.cut();
        self.redos.clear();
        Ok(())
    }

    /// The user's view is changed by an edit that isn't taken back by itself: what is on the stacks goes behind it, as behind
    /// another's.
    pub fn edit_beside(&mut self, alloc: Global, change: &Change) -> Result<(), ClientBad>
        ensures made { OnOk result (self.new ≡ edited_beside change.now.edit self.old) }
        ensures refused { Refuses (fit_fault (fit_bad change.now self.old.client.view)) result }
        ensures kept { OnErr result (self.new ≡ self.old) }
    {
        fits(self.client.view(), change)?;
        let waiting = change.copy(alloc)?;
        if self.recent.reserve(1).is_err() {
            return Err(ClientBad::NoMemory);
        }
        self.client.edit(alloc, change)?;
        take_news(
            &self.undos,
            &self.redos,
            &mut self.recent,
            Told::News,
            waiting,
        );
        Ok(())
    }

    /// The same client once more, with its stacks. It shares all blocks.
    pub fn copy(&self, alloc: Global) -> Result<UndoClient, NoMemory>
        ensures { IfOk result (λ c. c ≡ self.now) }
    {
        Ok(UndoClient {
            client: self.client.copy(alloc)?,
            undos: self.undos.copy(alloc)?,
            redos: self.redos.copy(alloc)?,
            recent: copy_all(alloc, &self.recent)?,
        })
    }

    /// It hears the next revision, or that its submission became nothing.
    pub fn hear(&mut self, alloc: Global, heard: &Heard) -> Result<Told, ClientBad>
        ensures made { OnOk result (self.new ≡ undo_hears heard.now self.old) }
        ensures told { IfOk result (λ told. told ≡ told_of heard.now self.old.client) }
        ensures refused { Refuses (hear_fault heard.now self.old.client) result ⊎ (result ≡ Err bad.NoMemory) }
        ensures kept { OnErr result (self.new ≡ self.old) }
    {
        let told = self.client.told_of(heard);
        if self.recent.reserve(1).is_err() {
            return Err(ClientBad::NoMemory);
        }
        let change = self.client.hear_change(alloc, heard)?;
        take_news(&self.undos, &self.redos, &mut self.recent, told, change);
        Ok(told)
    }

    /// As `hear`, but it answers what that changes of the view: nothing, where it was its own.
    pub fn hear_change(&mut self, alloc: Global, heard: &Heard) -> Result<Change, ClientBad>
        ensures made { OnOk result (self.new ≡ undo_hears heard.now self.old) }
        ensures change { IfOk result (λ c. c.edit ≡ view_change heard.now self.old.client) }
        ensures fits { IfOk result (λ c. Fits c self.old.client.view) }
        ensures shown { IfOk result (λ c. self.new.client.view ≡ apply c.edit self.old.client.view) }
        ensures refused { Refuses (hear_fault heard.now self.old.client) result ⊎ (result ≡ Err bad.NoMemory) }
        ensures kept { OnErr result (self.new ≡ self.old) }
    {
        let told = self.client.told_of(heard);
        let mut client = self.client.copy(alloc)?;
        let change = client.hear_change(alloc, heard)?;
        let waiting = change.copy(alloc)?;
        if self.recent.reserve(1).is_err() {
            return Err(ClientBad::NoMemory);
        }
        self.client = client;
        take_news(&self.undos, &self.redos, &mut self.recent, told, waiting);
        Ok(change)
    }

    /// Whether something can be taken back.
    pub fn can_undo(&self) -> bool
        ensures { result ≡ is_some (top self.now.undos) }
    {
        self.undos.has_top()
    }

    /// Whether something that was taken back can be made again.
    pub fn can_redo(&self) -> bool
        ensures { result ≡ is_some (top self.now.redos) }
    {
        self.redos.has_top()
    }

    /// What it sends now, if there is something to send.
    pub fn submit(&mut self, alloc: Global) -> Result<Option<Submission>, NoMemory>
        ensures sent { IfOk result (λ sent. Submits self.old.client sent self.new.client) }
        ensures stacks { self.new ≡ with_client self.old self.new.client }
        ensures kept { OnErr result (self.new ≡ self.old) }
    {
        self.client.submit(alloc)
    }

    /// Its connection is lost.
    pub fn lost(&mut self)
        ensures { self.new ≡ undo_lost self.old }
    {
        self.client.lost();
    }

    /// It is connected again, in a newer session, and is told the head.
    pub fn resume(&mut self, session: Session, head: u64)
        ensures { self.new ≡ undo_resumes session head self.old }
    {
        self.client.resume(session, head);
    }

    /// The last edit that isn't taken back is taken back, where there is one: the change that this is.
    pub fn undo(&mut self, alloc: Global) -> Result<Option<Change>, NoMemory>
        ensures made { OnOk result (self.new ≡ undone self.old) }
        ensures told { IfOk result (λ o. option_map (λ c. c.edit) o ≡ top self.old.undos) }
        ensures fits { IfOk result (λ o. IfSome o (λ c. Fits c self.old.client.view)) }
        ensures kept { OnErr result (self.new ≡ self.old) }
    {
        spread(alloc, &mut self.undos, &mut self.redos, &mut self.recent)?;
        make_top(alloc, &mut self.client, &mut self.undos, &mut self.redos)
    }

    /// The last that was taken back is made again, where there is one: the change that this is.
    pub fn redo(&mut self, alloc: Global) -> Result<Option<Change>, NoMemory>
        ensures made { OnOk result (self.new ≡ redone self.old) }
        ensures told { IfOk result (λ o. option_map (λ c. c.edit) o ≡ top self.old.redos) }
        ensures fits { IfOk result (λ o. IfSome o (λ c. Fits c self.old.client.view)) }
        ensures kept { OnErr result (self.new ≡ self.old) }
    {
        spread(alloc, &mut self.undos, &mut self.redos, &mut self.recent)?;
        make_top(alloc, &mut self.client, &mut self.redos, &mut self.undos)
    }
}

//! Clients edit and send, and guests send what they like.

ghost use Rattle.std.specs.Prelude.{◌≡◌, [], ℕ, true, IfOk};
ghost use Rattle.ep_cs.specs.EditFits.{is_edit};
ghost use Rattle.ep_event.specs.declared.event.Event.TheVariants as event;
ghost use Rattle.ep_local.specs.Local.{is_local_text};
ghost use Rattle.ep_world.specs.Shows.{shows_edited, verb_of};
ghost use Rattle.ep_world.specs.Standing.{Ends, Plays};
ghost use Rattle.ep_world.specs.Events.{remake_event};

use crate::bad::WorldBad;
use crate::world::World;
use ep_cs::Change;
use ep_csread::ReadBad;
use ep_event::{Local, Reason, Shown, Verb};
use ep_invert::SpliceBad;
use ep_members::{Actor, Remake, Sent};
use ep_outside::Crash;
use ep_units::{NoMemory, Units};

impl<D: Crash> World<D> {
    /// A client edits what it sees.
    pub(crate) fn edit(&mut self, name: Units, edit: &Local) -> Result<Shown, WorldBad>
        ensures plays { (now : ℕ) → Plays D.told D.failures D.stops_alone self.old now (event.Edit name edit.now) result self.new }
        ensures ends { (now : ℕ) → Ends D.told D.failures D.stops_alone self.old now (event.Edit name edit.now) result self.new }
    {
        if !is_text(edit) {
            return Err(WorldBad::NoText);
        }
        let Some(member) = self.actors.client(&name) else {
            return Err(WorldBad::Unknown);
        };
        let bad = member.edit(self.alloc, edit)?;
        Ok(show_edited(verb_of(edit), name, bad))
    }

    /// A client takes back the last edit that it hasn't taken back, or makes the last one again that it took back.
    pub(crate) fn remake(&mut self, remake: Remake, name: Units) -> Result<Shown, WorldBad>
        ensures plays { (now : ℕ) → Plays D.told D.failures D.stops_alone self.old now (remake_event remake name) result self.new }
        ensures ends { (now : ℕ) → Ends D.told D.failures D.stops_alone self.old now (remake_event remake name) result self.new }
    {
        let Some(member) = self.actors.client(&name) else {
            return Err(WorldBad::Unknown);
        };
        Ok(member.remake(self.alloc, remake, name)?)
    }

    /// A client sends what it has to send.
    pub(crate) fn submit(&mut self, name: Units) -> Result<Shown, WorldBad>
        ensures plays { (now : ℕ) → Plays D.told D.failures D.stops_alone self.old now (event.Submit name) result self.new }
        ensures ends { (now : ℕ) → Ends D.told D.failures D.stops_alone self.old now (event.Submit name) result self.new }
    {
        let Some(member) = self.actors.client(&name) else {
            return Err(WorldBad::Unknown);
        };
        Ok(member.submit(self.alloc, name)?)
    }

    /// A guest sends a change, or a text that spells none.
    pub(crate) fn inject(
        &mut self,
        name: Units,
        base: u64,
        change: Result<Change, ReadBad>,
    ) -> Result<Shown, WorldBad>
        ensures plays { (now : ℕ) → Plays D.told D.failures D.stops_alone self.old now (event.Inject name base change) result self.new }
        ensures ends { (now : ℕ) → Ends D.told D.failures D.stops_alone self.old now (event.Inject name base change) result self.new }
    {
        match self.actors.take(&name) {
            Some(Actor::Guest(mut conn)) => {
                conn.send(message(base, change))?;
                self.actors.put(self.alloc, &name, Actor::Guest(conn))?;
                Ok(Shown::Done {
                    verb: Verb::Inject,
                    name: Some(name),
                })
            }
            Some(Actor::Named(member)) => {
                self.actors.seat(self.alloc, &name, member)?;
                Err(WorldBad::Unknown)
            }
            None => Err(WorldBad::Unknown),
        }
    }
}

/// A message; a change is always one that an edit spells.
fn message(base: u64, change: Result<Change, ReadBad>) -> Sent
    ensures whole { result ≡ record { base = base; change = change } }
    ensures normal { IfOk change (λ c. is_edit c.edit ≡ true) }
{
    match change {
        Ok(change) => {
            let _normal = change.ops();
            Sent {
                base,
                change: Ok(change),
            }
        }
        Err(why) => Sent {
            base,
            change: Err(why),
        },
    }
}

/// What is shown of a local edit.
fn show_edited(verb: Verb, name: Units, bad: Option<SpliceBad>) -> Shown
    ensures { result ≡ shows_edited verb name bad }
{
    let why = match bad {
        None => return Shown::Done {
            verb,
            name: Some(name),
        },
        Some(SpliceBad::CutsPair(at)) => Reason::CutsPair(at),
        Some(SpliceBad::Place | SpliceBad::NoMemory) => Reason::Place,
    };
    Shown::Refused {
        verb,
        name: Some(name),
        why,
    }
}

/// Whether what is inserted is a text.
fn is_text(edit: &Local) -> bool
    ensures { result ≡ is_local_text edit.now }
{
    match edit {
        Local::Insert { text, .. } => text.well_formed(),
        _ => true,
    }
}

fn verb_of(edit: &Local) -> Verb
    ensures { result ≡ verb_of edit.now }
{
    match edit {
        Local::Insert { .. } => Verb::Insert,
        Local::Delete { .. } => Verb::Delete,
        Local::Format { .. } => Verb::Format,
    }
}

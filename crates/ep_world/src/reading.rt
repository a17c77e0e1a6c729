//! What can be shown of a world.

ghost use Rattle.std.specs.Prelude.{◌≡◌, ℕ, Bool, List, not, is_some, IfErr, IfOk};
ghost use Rattle.std.specs.Option.{option_map};
ghost use Rattle.ep_cs.specs.Fits.{is_identity};
ghost use Rattle.ep_history.specs.Pad.{PadState};
ghost use Rattle.ep_world.specs.Kepts.{Kepts};
ghost use Rattle.ep_schedule.specs.World.{WorldState};
ghost use Rattle.ep_event.specs.declared.shown.Shown.TheVariants as shown;
ghost use Rattle.ep_event.specs.declared.shown.Verb.TheVariants as verb;
ghost use Rattle.ep_world.specs.Journal.{reads_as};
ghost use Rattle.ep_world.specs.Counting.{Counts};
ghost use Rattle.ep_world.specs.declared.bad.WorldBad.TheVariants as wanting;
ghost use Rattle.ep_world.specs.Failing.{IsFailure};
ghost use Rattle.ep_world.specs.Reading.{client_kept, ShowsClient, ShowsPad, TellsHead};
ghost use Rattle.ep_world.specs.Shows.{shows_head, shows_marks, shows_text, shows_view, shows_view_marks, state_of};
ghost use Rattle.ep_world.specs.Standing.{IsAt, IsRun, StandsFor};
ghost use Rattle.ep_history.specs.declared.record.Record.{Record};

use crate::bad::{WorldBad, failure, full};
use crate::world::World;
use ep_apply::Doc;
use ep_client::Client;
use ep_event::{Shown, State, Verb};
use ep_history::PadBad;
use ep_members::Actor;
use ep_outside::{Crash, Disk};
use ep_pad::PadMachine;
use ep_units::Units;
use std::alloc::Global;

/// What is found of the head.
#[derive(Drop)]
pub(crate) enum Top {
    There(u64, Doc),
    Gone,
    /// The journal has no room for an opening: it would have so many bytes.
    Shut(u64),
}

impl<D: Crash> World<D> {
    /// The client of a name, where there is one.
    pub fn view(&self, name: &Units) -> Option<&Client>
        ensures { (alone : Bool) (rs : List Record) (w : WorldState) (ks : Kepts) → StandsFor D.told D.failures D.stops_alone alone rs self.now w ks → option_map (λ c. c.now) result ≡ client_kept w ks name.now }
    {
        match self.actors.find(name) {
            Some(Actor::Named(member)) => Some(member.client.client()),
            _ => None,
        }
    }

    /// What a client sees, and what it has pending.
    pub fn show(&self, name: Units) -> Result<Shown, WorldBad>
        ensures { (alone : Bool) (rs : List Record) (w : WorldState) (ks : Kepts) → IsRun w ks → StandsFor D.told D.failures D.stops_alone alone rs self.now w ks → ShowsClient (shows_view w name) result }
    {
        match self.view(&name) {
            Some(client) => show_view(self.alloc, client, name),
            None => Err(WorldBad::Unknown),
        }
    }

    /// The attributes of what a client sees.
    pub fn view_marks(&self, name: Units) -> Result<Shown, WorldBad>
        ensures { (alone : Bool) (rs : List Record) (w : WorldState) (ks : Kepts) → IsRun w ks → StandsFor D.told D.failures D.stops_alone alone rs self.now w ks → ShowsClient (shows_view_marks w name) result }
    {
        match self.view(&name) {
            Some(client) => show_marks(self.alloc, client, name),
            None => Err(WorldBad::Unknown),
        }
    }

    /// The head.
    pub fn head(&mut self) -> Result<Shown, WorldBad>
        ensures { (alone : Bool) (rs : List Record) (w : WorldState) (ks : Kepts) → StandsFor D.told D.failures D.stops_alone alone rs self.old w ks → ShowsPad D.told D.failures D.stops_alone alone rs (D.failures self.old.machine.disk) w ks (reads_as rs w.pad verb.Head (shows_head w.pad)) result self.new }
    {
        match head(&mut self.machine)? {
            Top::There(rev, doc) => Ok(Shown::Head { rev, doc }),
            Top::Gone => Ok(Shown::Gone { verb: Verb::Head }),
            Top::Shut(bytes) => Ok(full(Verb::Head, None, bytes)),
        }
    }

    /// The attributes of the head.
    pub fn marks(&mut self) -> Result<Shown, WorldBad>
        ensures { (alone : Bool) (rs : List Record) (w : WorldState) (ks : Kepts) → StandsFor D.told D.failures D.stops_alone alone rs self.old w ks → ShowsPad D.told D.failures D.stops_alone alone rs (D.failures self.old.machine.disk) w ks (reads_as rs w.pad verb.Marks (shows_marks w.pad)) result self.new }
    {
        match head(&mut self.machine)? {
            Top::There(rev, doc) => Ok(Shown::HeadMarks { rev, doc }),
            Top::Gone => Ok(Shown::Gone { verb: Verb::Marks }),
            Top::Shut(bytes) => Ok(full(Verb::Marks, None, bytes)),
        }
    }

    /// The document of a revision.
    pub fn text(&mut self, rev: u64) -> Result<Shown, WorldBad>
        ensures { (alone : Bool) (rs : List Record) (w : WorldState) (ks : Kepts) → StandsFor D.told D.failures D.stops_alone alone rs self.old w ks → ShowsPad D.told D.failures D.stops_alone alone rs (D.failures self.old.machine.disk) w ks (reads_as rs w.pad verb.Text (shows_text w.pad rev)) result self.new }
    {
        match self.machine.text(Some(rev)) {
            Ok(doc) => Ok(Shown::Text { rev, doc }),
            Err(PadBad::Gone) => Ok(Shown::TextGone { rev }),
            Err(PadBad::NoRev(head)) => Ok(Shown::NoRev { rev, head }),
            Err(PadBad::JournalFull(bytes)) => Ok(full(Verb::Text, None, bytes)),
            Err(bad) => Err(failure(bad)),
        }
    }
}

fn show_view(alloc: Global, client: &Client, name: Units) -> Result<Shown, WorldBad>
    ensures shown { IfOk result (λ s. s ≡ shown.View name client.now.rev (state_of (is_some client.now.sent_in) (not (is_identity client.now.local))) client.now.view) }
    ensures failed { IfErr result (λ bad. bad ≡ wanting.NoMemory) }
{
    Ok(Shown::View {
        rev: client.rev(),
        state: state_of(client.pending()),
        doc: client.view().copy(alloc)?,
        name,
    })
}

fn show_marks(alloc: Global, client: &Client, name: Units) -> Result<Shown, WorldBad>
    ensures shown { IfOk result (λ s. s ≡ shown.ViewMarks name client.now.view) }
    ensures failed { IfErr result (λ bad. bad ≡ wanting.NoMemory) }
{
    Ok(Shown::ViewMarks {
        doc: client.view().copy(alloc)?,
        name,
    })
}

/// The head with its document, where the pad is there.
fn head<D: Disk>(machine: &mut PadMachine<D>) -> Result<Top, WorldBad>
    ensures told { (alone : Bool) (rs : List Record) (pad : PadState) → IsAt D.told D.failures D.stops_alone alone rs machine.old pad → TellsHead D.told D.failures D.stops_alone alone rs pad result machine.new }
    ensures failed { IfErr result IsFailure }
    ensures counts { (alone : Bool) (rs : List Record) (pad : PadState) → IsAt D.told D.failures D.stops_alone alone rs machine.old pad → Counts (D.failures machine.old.disk) (D.failures machine.new.disk) result }
{
    match machine.status() {
        Ok(status) => match machine.text(None) {
            Ok(doc) => Ok(Top::There(status.head, doc)),
            Err(bad) => Err(failure(bad)),
        },
        Err(PadBad::Gone) => Ok(Top::Gone),
        Err(PadBad::JournalFull(bytes)) => Ok(Top::Shut(bytes)),
        Err(bad) => Err(failure(bad)),
    }
}

fn state_of(pending: (bool, bool)) -> State
    ensures { result ≡ state_of pending.0 pending.1 }
{
    match pending {
        (false, false) => State::Clean,
        (true, false) => State::Sent,
        (false, true) => State::Local,
        (true, true) => State::Both,
    }
}

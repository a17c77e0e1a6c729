//! The world: a pad's machine, and who takes part.

ghost use Rattle.std.specs.Prelude.{◌≡◌, [], Bool, List, IfErr, IfOk};
ghost use Rattle.ep_history.specs.declared.record.Record.{Record};
ghost use Rattle.ep_schedule.specs.World.{WorldState, start};
ghost use Rattle.ep_world.specs.Kepts.{Kepts, nobodies};
ghost use Rattle.ep_pad_file.specs.Standing.{Holds};
ghost use Rattle.ep_world.specs.Journal.{begun};
ghost use Rattle.ep_world.specs.Standing.{Ends, IsLent, IsUnbegun, Plays, StandsFor};

use crate::bad::{WorldBad, opening_failure};
use ep_event::{Event, Shown};
use ep_members::{Actors, Remake};
use ep_outside::{Crash, Limits, Refused};
use ep_pad::PadMachine;
use ep_units::PadId;
use std::alloc::Global;

/// One pad on its disk, its clients and its guests, with a connection for each.
pub struct World<D: Crash> {
    pub(crate) alloc: Global,
    pub(crate) id: PadId,
    pub(crate) machine: PadMachine<D>,
    pub(crate) actors: Actors,
}

impl<D: Crash + Drop> Drop for World<D> {
    fn drop(self) {
        let World {
            alloc: _,
            id: _,
            machine: _,
            actors: _,
        } = self;
    }
}

impl<D: Crash> World<D> {
    /// The pad of an empty disk, which isn't made yet, and nobody.
    pub fn new(alloc: Global, disk: D, limits: Limits, id: PadId) -> Result<World<D>, WorldBad>
    where
        D: Drop,
        ensures begins { Holds (D.told disk) [] → IfOk result (λ world. StandsFor D.told D.failures D.stops_alone (D.stops_alone disk) begun world (start limits id) nobodies) }
        ensures ends { IfErr result (IsUnbegun D.told D.failures disk limits id) }
    {
        match PadMachine::open(alloc, disk, limits) {
            Ok(machine) => Ok(World {
                alloc,
                id,
                machine,
                actors: Actors::new(alloc),
            }),
            Err(Refused { back: _, why }) => Err(opening_failure(why)),
        }
    }

    /// One event at this moment, in milliseconds since 1970.
    pub fn step(&mut self, now: u64, event: Event) -> Result<Shown, WorldBad>
        ensures plays { Plays D.told D.failures D.stops_alone self.old now event result self.new }
        ensures ends { Ends D.told D.failures D.stops_alone self.old now event result self.new }
    {
        match event {
            Event::Create { text } => self.create(&text, now),
            Event::SetText { text } => self.set_text(&text, now),
            Event::Delete => self.delete(now),
            Event::Login { name } => self.login(name, now),
            Event::Guest { name, read_only } => self.visit(name, read_only, now),
            Event::Edit { name, edit } => self.edit(name, &edit),
            Event::Undo { name } => self.remake(Remake::Undo, name),
            Event::Redo { name } => self.remake(Remake::Redo, name),
            Event::Submit { name } => self.submit(name),
            Event::Inject { name, base, change } => self.inject(name, base, change),
            Event::Take { name } => self.take(name, now),
            Event::Late { name } => self.late(name, now),
            Event::Push { name } => self.push(name),
            Event::Hear { name } => self.hear(name),
            Event::Lose { name } => self.lose(name),
            Event::Resume { name } => self.resume(name, now),
            Event::Stop { at: None } => self.crash(now),
            Event::Stop { at: Some(at) } => self.stop(at, now),
        }
    }

    /// The pad's machine, which is lent: its file has the records of the pad.
    pub fn pad(&self) -> &PadMachine<D>
        ensures lends { result.now ≡ self.now.machine }
        ensures stands { (alone : Bool) (rs : List Record) (w : WorldState) (ks : Kepts) → StandsFor D.told D.failures D.stops_alone alone rs self.now w ks
            → IsLent D.told D.failures D.stops_alone alone rs result.now w.pad }
    {
        &self.machine
    }
}

//! What the server does to the pad by itself.

ghost use Rattle.std.specs.Prelude.{◌≡◌, ℕ, true, IfOk};
ghost use Rattle.ep_units.specs.Text.{is_well_formed};
ghost use Rattle.ep_history.specs.History.{first_rev};
ghost use Rattle.ep_event.specs.declared.event.Event.TheVariants as event;
ghost use Rattle.ep_world.specs.Standing.{Ends, Plays};

use crate::bad::{WorldBad, refused};
use crate::world::World;
use ep_cs::Change;
use ep_event::{Shown, Verb};
use ep_outside::Crash;
use ep_pad::Committed;
use ep_step::first_step;
use ep_units::{NoMemory, Units};
use std::alloc::Global;

impl<D: Crash> World<D> {
    /// The pad is made with a text.
    pub(crate) fn create(&mut self, text: &Units, now: u64) -> Result<Shown, WorldBad>
        ensures plays { Plays D.told D.failures D.stops_alone self.old now (event.Create text.now) result self.new }
        ensures ends { Ends D.told D.failures D.stops_alone self.old now (event.Create text.now) result self.new }
    {
        if !text.well_formed() {
            return Err(WorldBad::NoText);
        }
        match self.machine.create(text, now) {
            Ok(_birth) => Ok(Shown::Created {
                change: first_change(self.alloc, text)?,
            }),
            Err(bad) => refused(Verb::Create, None, bad),
        }
    }

    /// The pad's text is replaced.
    pub(crate) fn set_text(&mut self, text: &Units, now: u64) -> Result<Shown, WorldBad>
        ensures plays { Plays D.told D.failures D.stops_alone self.old now (event.SetText text.now) result self.new }
        ensures ends { Ends D.told D.failures D.stops_alone self.old now (event.SetText text.now) result self.new }
    {
        if !text.well_formed() {
            return Err(WorldBad::NoText);
        }
        match self.machine.set_text(text, now) {
            Ok(
                Committed {
                    rev,
                    fixed,
                    nop: _,
                    change,
                },
            ) => Ok(Shown::Set { rev, fixed, change }),
            Err(bad) => refused(Verb::Set, None, bad),
        }
    }

    /// The pad is deleted.
    pub(crate) fn delete(&mut self, now: u64) -> Result<Shown, WorldBad>
        ensures plays { Plays D.told D.failures D.stops_alone self.old now event.Delete result self.new }
        ensures ends { Ends D.told D.failures D.stops_alone self.old now event.Delete result self.new }
    {
        match self.machine.delete(now) {
            Ok(()) => Ok(Shown::Done {
                verb: Verb::Drop,
                name: None,
            }),
            Err(bad) => refused(Verb::Drop, None, bad),
        }
    }
}

/// The change of one newline that makes a pad with this text.
fn first_change(alloc: Global, text: &Units) -> Result<Change, NoMemory>
    requires { is_well_formed text.now ≡ true }
    ensures { (now : ℕ) → IfOk result (λ c. c ≡ (first_rev now text.now).change) }
{
    match first_step(alloc, text, u64::MAX) {
        Ok(step) => Ok(step.edit.change),
        Err(_) => Err(NoMemory),
    }
}

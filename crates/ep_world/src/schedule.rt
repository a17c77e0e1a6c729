//! The schedule theorem, of what is played.

ghost use Rattle.std.specs.Prelude.{◌∷◌, ◌++◌, Bool, [], List, ℕ, IfOk};
ghost use Rattle.ep_units.specs.Text.{Text};
ghost use Rattle.ep_outside.specs.declared.limits.Limits.{Limits as TheLimits};
ghost use Rattle.ep_schedule.specs.Headline.{after};
ghost use Rattle.ep_schedule.specs.World.{Event as AnEvent, WorldState, start};
ghost use Rattle.ep_world.specs.Kepts.{Kepts, nobodies};
ghost use Rattle.ep_pad_file.specs.Standing.{Holds};
ghost use Rattle.ep_event.specs.declared.event.Event.{Event as Told};
ghost use Rattle.ep_world.specs.Journal.{begun};
ghost use Rattle.ep_world.specs.Late.{RefusesLate};
ghost use Rattle.ep_world.specs.Leading.{IsScheduled, Lead, Stays};
ghost use Rattle.ep_world.specs.Standing.{StandsFor};
ghost use Rattle.ep_history.specs.declared.record.Record.{Record};

use crate::bad::WorldBad;
use crate::world::World;
use ep_event::Event;
use ep_outside::{Crash, Limits};
use ep_units::PadId;
use std::alloc::Global;

/// Plays events, each at its moment, on the pad of an empty disk; one that names nobody, or brings no text, is passed over.
/// Whatever they are, the world then stands for one of the rules to which they lead, and of that the schedule theorem
/// says: each well-formed edit that the server took from a live writer is committed once, rebased through every later
/// revision; what was acknowledged is there; and each client that has nothing pending or undelivered shows the head.
pub fn schedule_law<D: Crash + Drop>(
    alloc: Global,
    disk: D,
    limits: Limits,
    id: PadId,
    events: Vec<(u64, Event)>,
) -> Result<World<D>, WorldBad>
    ensures { Holds (D.told disk) [] → IfOk result (λ world. (rs : List Record) × ((w : WorldState) × ((ks : Kepts)
        × (Lead (D.stops_alone disk) begun (start limits id) nobodies events.items rs w ks × StandsFor D.told D.failures D.stops_alone (D.stops_alone disk) rs world w ks × IsScheduled w ks)))) }
{
    let mut world = World::new(alloc, disk, limits, id)?;
    for (now, event) in events {
        play(&mut world, now, event)?;
    }
    Ok(world)
}

/// One event, or none where it names nobody or brings no text.
fn play<D: Crash>(world: &mut World<D>, now: u64, event: Event) -> Result<(), WorldBad>
    ensures { (alone : Bool) (first : WorldState) (es : List (ℕ × Told)) → Stays D.told D.failures D.stops_alone alone world.old first es
        → IfOk result (λ _. Stays D.told D.failures D.stops_alone alone world.new first (es ++ (now, event) ∷ [])) }
{
    match world.step(now, event) {
        Ok(_shown) => Ok(()),
        Err(WorldBad::Unknown) => Ok(()),
        Err(WorldBad::NoText) => Ok(()),
        Err(bad) => Err(bad),
    }
}

/// A message that comes late, from the connection that a client had before its last resumption, is always refused: its text
/// spells no change, or its session has ended. Nothing of it is recorded.
pub fn late_law()
    ensures { (limits : TheLimits) (id : Text) (events : List AnEvent) → RefusesLate (after limits id events) }
{}

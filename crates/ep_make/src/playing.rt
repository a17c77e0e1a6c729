//! Events of a schedule, played on a world.

ghost use Rattle.std.specs.Prelude.{◌≡◌, false, OnOk};
ghost use Rattle.ep_event.specs.declared.event.Event.TheVariants as event;
ghost use Rattle.ep_make.specs.Made.{Leads, Moves, Plays, is_overfull, is_unscheduled};
ghost use Rattle.ep_make.specs.Round.{IsDrained, after, back, is_nothing, sent};

use crate::bad::Stopped;
use ep_event::{Event, Reason, Shown};
use ep_history::PadBad;
use ep_outside::Crash;
use ep_units::Units;
use ep_world::World;
use std::alloc::Global;

/// One event at the moment 0, and whether it found something to do. A journal without room ends the schedule.
pub(crate) fn play<D: Crash>(world: &mut World<D>, event: Event) -> Result<bool, Stopped>
    requires { is_unscheduled event ≡ false }
    ensures { Plays D.told D.failures D.stops_alone event world.old result world.new }
{
    let shown = world.step(0, event)?;
    if is_overfull(&shown) {
        return Err(Stopped);
    }
    Ok(!is_nothing(&shown))
}

/// Whether the journal had no room.
fn is_overfull(shown: &Shown) -> bool
    ensures { result ≡ is_overfull shown.now }
{
    match shown {
        Shown::Refused {
            why: Reason::Pad(PadBad::JournalFull(_)),
            ..
        } => true,
        _ => false,
    }
}

/// Whether there was nothing to do.
fn is_nothing(shown: &Shown) -> bool
    ensures { result ≡ is_nothing shown.now }
{
    match shown {
        Shown::Nothing { .. } => true,
        _ => false,
    }
}

/// Whether the server had something to tell a client, which is then on its way.
fn push<D: Crash>(alloc: Global, world: &mut World<D>, name: &Units) -> Result<bool, Stopped>
    ensures { Plays D.told D.failures D.stops_alone (event.Push name.now) world.old result world.new }
{
    let copy = name.copy(alloc)?;
    play(world, Event::Push { name: copy })
}

fn hear<D: Crash>(alloc: Global, world: &mut World<D>, name: &Units) -> Result<(), Stopped>
    ensures { OnOk result (Moves D.told D.failures D.stops_alone (λ w. after w (event.Hear name.now)) world.old world.new) }
{
    let copy = name.copy(alloc)?;
    play(world, Event::Hear { name: copy })?;
    Ok(())
}

/// The server tells a client what it has to tell, one by one, and each is heard.
pub(crate) fn drain<D: Crash>(
    alloc: Global,
    world: &mut World<D>,
    name: &Units,
) -> Result<(), Stopped>
    ensures { OnOk result (Leads D.told D.failures D.stops_alone (IsDrained name.now) world.old world.new) }
{
    'pushes: for _ in 0..u64::MAX {
        let told = push(alloc, world, name)?;
        if !told {
            return Ok(());
        }
        hear(alloc, world, name)?;
    }
    Err(Stopped)
}

/// Whether a client had something to submit, which is then on its way.
fn submit<D: Crash>(alloc: Global, world: &mut World<D>, name: &Units) -> Result<bool, Stopped>
    ensures { Plays D.told D.failures D.stops_alone (event.Submit name.now) world.old result world.new }
{
    let copy = name.copy(alloc)?;
    play(world, Event::Submit { name: copy })
}

/// A client submits, and where there is a submission the server takes it.
pub(crate) fn send<D: Crash>(
    alloc: Global,
    world: &mut World<D>,
    name: &Units,
) -> Result<(), Stopped>
    ensures { OnOk result (Moves D.told D.failures D.stops_alone (λ w. sent w name.now) world.old world.new) }
{
    let submitted = submit(alloc, world, name)?;
    if !submitted {
        return Ok(());
    }
    let copy = name.copy(alloc)?;
    play(world, Event::Take { name: copy })?;
    Ok(())
}

/// A client is lost, and resumes.
pub(crate) fn come_back<D: Crash>(
    alloc: Global,
    world: &mut World<D>,
    name: &Units,
) -> Result<(), Stopped>
    ensures { OnOk result (Moves D.told D.failures D.stops_alone (λ w. back w name.now) world.old world.new) }
{
    let lost = name.copy(alloc)?;
    play(world, Event::Lose { name: lost })?;
    let resumed = name.copy(alloc)?;
    play(world, Event::Resume { name: resumed })?;
    Ok(())
}

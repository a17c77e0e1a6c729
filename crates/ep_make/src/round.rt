//! The rounds of a schedule, and its end.

ghost use Rattle.std.specs.Prelude.{◌≡◌, ◌<◌, length, IfOk, OnOk};
ghost use Rattle.ep_schedule.specs.World.{WorldState};
ghost use Rattle.ep_make.specs.Made.{IsOf, Leads};
ghost use Rattle.ep_make.specs.Round.{IsDrained, Rests, Round, view_length};
ghost use Rattle.ep_make.specs.Schedule.{Each, LogsIn, Rounds, Settles};

use crate::bad::Stopped;
use crate::drawing::{draw_edit, draw_name, name_of};
use crate::generator::Generator;
use crate::playing::{come_back, drain, play, send};
use ep_client::Client;
use ep_event::Event;
use ep_outside::Crash;
use ep_units::Units;
use ep_world::World;
use std::alloc::Global;

/// How many units a client sees. By the rules there is one at least.
fn units_of(client: &Client) -> Result<u32, Stopped>
    ensures some { IfOk result (λ units. 0 < units) }
    ensures length { IfOk result (λ units. units ≡ length client.now.view) }
{
    let units = client.view().len();
    if units == 0 {
        return Err(Stopped);
    }
    Ok(units)
}

/// How many units the client of a name sees.
fn view_length<D: Crash>(world: &World<D>, name: &Units) -> Result<u32, Stopped>
    ensures some { IfOk result (λ units. 0 < units) }
    ensures length { (w : WorldState) → IsOf D.told D.failures D.stops_alone world.now w → IfOk result (λ units. units ≡ view_length w name.now) }
{
    let Some(client) = world.view(name) else {
        return Err(Stopped);
    };
    units_of(client)
}

/// By a number below 3 a client hears what it is told, or is lost and resumes, or neither.
fn rest<D: Crash>(
    alloc: Global,
    world: &mut World<D>,
    name: &Units,
    number: u32,
) -> Result<(), Stopped>
    ensures { OnOk result (Leads D.told D.failures D.stops_alone (Rests number name.now) world.old world.new) }
{
    match number {
        0 => drain(alloc, world, name),
        1 => come_back(alloc, world, name),
        _ => Ok(()),
    }
}

/// A client edits what it sees, sends that, and hears, or is lost, or neither.
fn round<D: Crash>(
    alloc: Global,
    world: &mut World<D>,
    lots: &mut Generator,
    clients: u32,
) -> Result<(), Stopped>
    requires { 0 < clients }
    ensures { OnOk result (Leads D.told D.failures D.stops_alone (λ w v. Round clients lots.old.number w lots.new.number v) world.old world.new) }
{
    let name = draw_name(alloc, lots, clients)?;
    let units = view_length(world, &name)?;
    let edit = draw_edit(alloc, lots, units)?;
    let copy = name.copy(alloc)?;
    play(world, Event::Edit { name: copy, edit })?;
    send(alloc, world, &name)?;
    rest(alloc, world, &name, lots.pick(3))?;
    Ok(())
}

pub(crate) fn play_rounds<D: Crash>(
    alloc: Global,
    world: &mut World<D>,
    lots: &mut Generator,
    clients: u32,
    edits: u32,
) -> Result<(), Stopped>
    requires { 0 < clients }
    ensures { OnOk result (Leads D.told D.failures D.stops_alone (λ w v. Rounds edits clients lots.old.number w lots.new.number v) world.old world.new) }
{
    'rounds: for _round in 0..edits {
        round(alloc, world, lots, clients)?;
    }
    Ok(())
}

pub(crate) fn log_in<D: Crash>(
    alloc: Global,
    world: &mut World<D>,
    clients: u32,
) -> Result<(), Stopped>
    ensures { OnOk result (Leads D.told D.failures D.stops_alone (Each LogsIn clients) world.old world.new) }
{
    for k in 0..clients {
        let name = name_of(alloc, k + 1)?;
        play(world, Event::Login { name })?;
    }
    Ok(())
}

/// A client hears all, and sends what it has left: three times.
fn settle<D: Crash>(alloc: Global, world: &mut World<D>, name: &Units) -> Result<(), Stopped>
    ensures { OnOk result (Leads D.told D.failures D.stops_alone (Settles 3 name.now) world.old world.new) }
{
    'times: for _time in 0_u32..3 {
        drain(alloc, world, name)?;
        send(alloc, world, name)?;
    }
    Ok(())
}

pub(crate) fn settle_all<D: Crash>(
    alloc: Global,
    world: &mut World<D>,
    clients: u32,
) -> Result<(), Stopped>
    ensures { OnOk result (Leads D.told D.failures D.stops_alone (Each (Settles 3) clients) world.old world.new) }
{
    for k in 0..clients {
        let name = name_of(alloc, k + 1)?;
        settle(alloc, world, &name)?;
    }
    Ok(())
}

pub(crate) fn drain_all<D: Crash>(
    alloc: Global,
    world: &mut World<D>,
    clients: u32,
) -> Result<(), Stopped>
    ensures { OnOk result (Leads D.told D.failures D.stops_alone (Each IsDrained clients) world.old world.new) }
{
    for k in 0..clients {
        let name = name_of(alloc, k + 1)?;
        drain(alloc, world, &name)?;
    }
    Ok(())
}

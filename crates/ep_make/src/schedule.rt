//! A schedule from its number to its five lines.

ghost use Rattle.std.specs.Prelude.{◌≡◌, ◌≤◌, true, IfOk, OnOk, IsErrOf};
ghost use Rattle.ep_outside.specs.Outside.{HasRisen};
ghost use Rattle.ep_schedule.specs.World.{WorldState, start};
ghost use Rattle.ep_make.specs.Made.{BeginsLines, IsMade, IsOf};
ghost use Rattle.ep_make.specs.Schedule.{Makes, make_limits, new_world, pad_name};

use crate::bad::{MakeBad, Stopped};
use crate::generator::Generator;
use crate::lines::five_lines;
use crate::playing::play;
use crate::round::{drain_all, log_in, play_rounds, settle_all};
use ep_disk_mem::MemDisk;
use ep_event::Event;
use ep_outside::{Device, Disk, Limits, Sink};
use ep_units::{PadId, Units};
use ep_world::World;
use std::alloc::Global;

/// The limits of a play.
const LIMITS: Limits = Limits {
    live: 500,
    logins: 1_000_000,
    units: 1_000_000,
    journal: 268_435_456,
    openings: 0,
    pads: 10_000,
};

/// The pad of an empty disk, which isn't made yet, and nobody.
fn open(alloc: Global) -> Result<World<MemDisk>, Stopped>
    ensures { IfOk result (λ world. IsOf ⟦<MemDisk as Disk>⟧.told ⟦<MemDisk as Device>⟧.failures ⟦<MemDisk as Disk>⟧.stops_alone world (start make_limits pad_name)) }
{
    let disk = MemDisk::new(alloc, Vec::new(alloc), Vec::new(alloc))?;
    let name = Units::from_str(alloc, "pad")?;
    let read = PadId::read(alloc, &name)?;
    let Some(id) = read else {
        return Err(Stopped);
    };
    let world = World::new(alloc, disk, LIMITS, id)?;
    Ok(world)
}

/// A new pad with an empty text.
fn begin(alloc: Global) -> Result<World<MemDisk>, Stopped>
    ensures { IfOk result (λ world. IsOf ⟦<MemDisk as Disk>⟧.told ⟦<MemDisk as Device>⟧.failures ⟦<MemDisk as Disk>⟧.stops_alone world new_world) }
{
    let mut world = open(alloc)?;
    let text = Units::new(alloc);
    play(&mut world, Event::Create { text })?;
    Ok(world)
}

/// All events of a schedule.
fn play_schedule(
    alloc: Global,
    number: u64,
    clients: u32,
    edits: u32,
) -> Result<World<MemDisk>, Stopped>
    requires { 1 ≤ clients }
    ensures { IfOk result (λ world. (end : WorldState) × (Makes number clients edits end × IsOf ⟦<MemDisk as Disk>⟧.told ⟦<MemDisk as Device>⟧.failures ⟦<MemDisk as Disk>⟧.stops_alone world end)) }
{
    let mut world = begin(alloc)?;
    log_in(alloc, &mut world, clients)?;
    let mut lots = Generator { number };
    play_rounds(alloc, &mut world, &mut lots, clients, edits)?;
    settle_all(alloc, &mut world, clients)?;
    drain_all(alloc, &mut world, clients)?;
    Ok(world)
}

/// Plays the schedule of this number, and writes its five lines. `Failed` may come at any time.
pub fn make<K: Sink>(
    alloc: Global,
    sink: &mut K,
    number: u64,
    clients: u32,
    edits: u32,
) -> Result<(), MakeBad>
    requires some { 1 ≤ clients }
    requires few { clients ≤ 64 }
    requires short { edits ≤ 100000 }
    // The five lines of the world that the schedule makes are written; and of that world the schedule theorem speaks.
    ensures made { OnOk result (IsMade number clients edits (K.held sink.old) (K.held sink.new)) }

    // A fault of the sink has its cause, and comes where a beginning of them is written. Any other comes before.
    ensures sink_fault { IsErrOf result MakeBad.SinkFault → HasRisen (K.failures sink.old) (K.failures sink.new) }
    ensures part { IsErrOf result MakeBad.SinkFault → BeginsLines number clients edits (K.held sink.old) (K.held sink.new) }
    ensures failed { IsErrOf result MakeBad.Failed → sink.new ≡ sink.old }
    ensures steady { K.is_steady sink.new ≡ K.is_steady sink.old }
    ensures complete { K.is_steady sink.old ≡ true → IsErrOf result MakeBad.SinkFault → ⊥ }
{
    let mut world = play_schedule(alloc, number, clients, edits)?;
    let lines = five_lines(alloc, &mut world, clients, edits)?;
    sink.write(lines.as_bytes())?;
    Ok(())
}

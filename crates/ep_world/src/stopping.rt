//! The server stops and starts again.

ghost use Rattle.std.specs.Prelude.{◌≡◌, ◌≤◌, Bool, List, Option, Some, None, Err, IfErr, IfOk, OnOk, MatchResult};
ghost use Rattle.std.specs.Option.{option_map};
ghost use Rattle.ep_units.specs.declared.session.Session.{Session};
ghost use Rattle.ep_history.specs.Machine.{MachineState, IsKeptState};
ghost use Rattle.ep_history.specs.Pad.{PadState};
ghost use Rattle.ep_history.specs.declared.pad_bad.PadBad.TheVariants as bad;
ghost use Rattle.ep_schedule.specs.World.{Message};
ghost use Rattle.ep_pad.specs.Standing.{Stands};
ghost use Rattle.ep_event.specs.declared.event.Event.TheVariants as event;
ghost use Rattle.ep_world.specs.Counting.{Counts};
ghost use Rattle.ep_world.specs.declared.bad.WorldBad.TheVariants as wanting;
ghost use Rattle.ep_world.specs.Failing.{IsFailure};
ghost use Rattle.ep_world.specs.Journal.{is_shut};
ghost use Rattle.ep_world.specs.Standing.{Ends, IsAt, IsOpenAt, Plays};
ghost use Rattle.ep_world.specs.Stopping.{BreaksNot, BreaksOff, FindsFirst, Reopens, Starts, shows_start, taken_of};
ghost use Rattle.ep_history.specs.declared.record.Record.{Record};

use crate::bad::{WorldBad, failure, full};
use crate::world::World;
use ep_event::{Shown, StopAt, Verb};
use ep_history::PadBad;
use ep_members::{Actors, Sent};
use ep_outside::{Crash, Disk, Image};
use ep_pad::{Committed, PadMachine};
use ep_units::{Session, Units};
use std::alloc::Global;

impl<D: Crash> World<D> {
    /// A crash between two calls: all connections are lost, and the pad is opened anew.
    pub(crate) fn crash(&mut self, now: u64) -> Result<Shown, WorldBad>
        ensures plays { Plays D.told D.failures D.stops_alone self.old now (event.Stop None) result self.new }
        ensures ends { Ends D.told D.failures D.stops_alone self.old now (event.Stop None) result self.new }
    {
        start_again(&mut self.machine)?;
        self.actors.cut_off();
        opening(&mut self.machine, None)
    }

    /// A crash within the take of a name's first message, where it has one.
    pub(crate) fn stop(&mut self, at: StopAt, now: u64) -> Result<Shown, WorldBad>
        ensures plays { Plays D.told D.failures D.stops_alone self.old now (event.Stop (Some at)) result self.new }
        ensures ends { Ends D.told D.failures D.stops_alone self.old now (event.Stop (Some at)) result self.new }
    {
        let StopAt { name, calls, image } = at;
        let first = first_sent(self.alloc, &mut self.actors, &name)?;
        stop_take(&mut self.machine, first, calls, image, now)?;
        self.actors.cut_off();
        opening(&mut self.machine, Some(name))
    }
}

/// Whether the pad is shut: the journal has no room for its opening.
fn is_shut<D: Disk>(machine: &mut PadMachine<D>) -> Result<bool, WorldBad>
    ensures tells { (alone : Bool) (rs : List Record) (pad : PadState) → IsAt D.told D.failures D.stops_alone alone rs machine.old pad
        → MatchResult result (λ shut. (shut ≡ is_shut rs pad) × IsAt D.told D.failures D.stops_alone alone rs machine.new pad) IsFailure }
    ensures failed { IfErr result IsFailure }
    ensures counts { (alone : Bool) (rs : List Record) (pad : PadState) → IsAt D.told D.failures D.stops_alone alone rs machine.old pad → Counts (D.failures machine.old.disk) (D.failures machine.new.disk) result }
{
    match machine.status() {
        Ok(_) => Ok(false),
        Err(PadBad::Gone) => Ok(false),
        Err(PadBad::JournalFull(_)) => Ok(true),
        Err(bad) => Err(failure(bad)),
    }
}

/// The pad is started again; one that is shut stays so.
fn start_again<D: Crash>(machine: &mut PadMachine<D>) -> Result<(), WorldBad>
    ensures starts { (alone : Bool) (rs : List Record) (pad : PadState) → IsAt D.told D.failures D.stops_alone alone rs machine.old pad
        → IfOk result (λ _. Starts D.told D.failures D.stops_alone alone rs pad machine.new) }
    ensures failed { IfErr result IsFailure }
    ensures counts { (alone : Bool) (rs : List Record) (pad : PadState) → IsAt D.told D.failures D.stops_alone alone rs machine.old pad → Counts (D.failures machine.old.disk) (D.failures machine.new.disk) result }
{
    match is_shut(machine) {
        Ok(true) => Ok(()),
        Ok(false) => reopen(machine),
        Err(bad) => Err(bad),
    }
}

/// So where the crash came into a take, which a pad that is shut never began.
fn stop_take<D: Crash>(
    machine: &mut PadMachine<D>,
    first: Option<(Session, Sent)>,
    calls: u64,
    image: Image,
    now: u64,
) -> Result<(), WorldBad>
    ensures breaks { (alone : Bool) (rs : List Record) (pad : PadState) (message : Option (Session × Message)) → first ≡ option_map taken_of message
        → IsAt D.told D.failures D.stops_alone alone rs machine.old pad
        → IfOk result (λ _. BreaksOff D.told D.failures D.stops_alone alone rs pad now message calls image machine.new) }
    ensures failed { IfErr result IsFailure }
    ensures counts { (alone : Bool) (rs : List Record) (pad : PadState) → IsAt D.told D.failures D.stops_alone alone rs machine.old pad
        → MatchResult result (λ _. D.failures machine.old.disk ≤ D.failures machine.new.disk) (BreaksNot alone (D.failures machine.old.disk) (D.failures machine.new.disk)) }
{
    match is_shut(machine) {
        Ok(true) => Ok(()),
        Ok(false) => break_off(machine, first, calls, image, now),
        Err(bad) => Err(bad),
    }
}

/// An open machine is started again, and finds what the crash left. Where the journal has no room for its opening it stays
/// closed.
fn reopen<D: Crash>(machine: &mut PadMachine<D>) -> Result<(), WorldBad>
    ensures reopens { (alone : Bool) (st : MachineState) → IsKeptState st → Stands D.told D.failures machine.old st → D.stops_alone machine.old.disk ≡ alone
        → IfOk result (λ _. Reopens D.told D.failures D.stops_alone alone st machine.new) }
    ensures failed { IfErr result IsFailure }
    ensures counts { (alone : Bool) (rs : List Record) (pad : PadState) → IsOpenAt D.told D.failures D.stops_alone alone rs machine.old pad → Counts (D.failures machine.old.disk) (D.failures machine.new.disk) result }
{
    match machine.restart() {
        Ok(()) => Ok(()),
        Err(PadBad::JournalFull(_)) => Ok(()),
        Err(bad) => Err(failure(bad)),
    }
}

/// The crash comes into a take of an open pad, where there is a message, after so many device calls of it; and the machine is
/// started again with the image that is asked for. Where the journal has no room for its opening it stays closed.
fn break_off<D: Crash>(
    machine: &mut PadMachine<D>,
    first: Option<(Session, Sent)>,
    calls: u64,
    image: Image,
    now: u64,
) -> Result<(), WorldBad>
    ensures breaks { (alone : Bool) (rs : List Record) (pad : PadState) (message : Option (Session × Message)) → first ≡ option_map taken_of message
        → IsOpenAt D.told D.failures D.stops_alone alone rs machine.old pad
        → IfOk result (λ _. BreaksOff D.told D.failures D.stops_alone alone rs pad now message calls image machine.new) }
    ensures failed { IfErr result IsFailure }
    ensures counts { (alone : Bool) (rs : List Record) (pad : PadState) → IsOpenAt D.told D.failures D.stops_alone alone rs machine.old pad
        → MatchResult result (λ _. D.failures machine.old.disk ≤ D.failures machine.new.disk) (BreaksNot alone (D.failures machine.old.disk) (D.failures machine.new.disk)) }
{
    let Some((session, sent)) = first else {
        return reopen(machine);
    };
    let Sent { base, change } = sent;
    let Ok(change) = change else {
        return reopen(machine);
    };
    let _normal = change.ops();
    match machine.accept_stopped(calls, image, session, base, change, now) {
        Ok(taken) => unheard(taken),
        Err(PadBad::JournalFull(_)) => Ok(()),
        Err(bad) => Err(failure(bad)),
    }
}

/// What a take was answered that the crash came into nobody hears, but that memory was wanting for it.
fn unheard(taken: Result<Committed, PadBad>) -> Result<(), WorldBad>
    ensures heard { OnOk result (taken ≡ Err bad.NoMemory → ⊥) }
    ensures failed { IfErr result IsFailure }
    ensures memory { IfErr result (λ bad. bad ≡ wanting.NoMemory) }
{
    match taken {
        Err(PadBad::NoMemory) => Err(WorldBad::NoMemory),
        _ => Ok(()),
    }
}

/// The first message of a name, with its session. The queue is gone after the crash in any case.
fn first_sent(
    alloc: Global,
    actors: &mut Actors,
    name: &Units,
) -> Result<Option<(Session, Sent)>, WorldBad>
    ensures { FindsFirst actors.old name.now result actors.new }
{
    match actors.take(name) {
        Some(mut actor) => {
            let first = actor.first_sent();
            actors.put(alloc, name, actor)?;
            Ok(first)
        }
        None => Err(WorldBad::Unknown),
    }
}

/// The number of the opening, and the head where the pad is there; or that the journal has no room for the opening.
fn opening<D: Disk>(machine: &mut PadMachine<D>, name: Option<Units>) -> Result<Shown, WorldBad>
    ensures shows { (alone : Bool) (rs : List Record) (pad : PadState) → IsAt D.told D.failures D.stops_alone alone rs machine.old pad
        → MatchResult result (λ shown. (shown ≡ shows_start name rs pad) × IsAt D.told D.failures D.stops_alone alone rs machine.new pad) IsFailure }
    ensures counts { (alone : Bool) (rs : List Record) (pad : PadState) → IsAt D.told D.failures D.stops_alone alone rs machine.old pad → Counts (D.failures machine.old.disk) (D.failures machine.new.disk) result }
{
    let epoch = machine.epoch();
    match machine.status() {
        Ok(status) => Ok(Shown::Crashed {
            epoch,
            head: Some(status.head),
        }),
        Err(PadBad::Gone) => Ok(Shown::Crashed { epoch, head: None }),
        Err(PadBad::JournalFull(bytes)) => Ok(full(Verb::Crash, name, bytes)),
        Err(bad) => Err(failure(bad)),
    }
}

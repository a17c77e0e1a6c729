//! What goes down to clients, and what they hear.

ghost use Rattle.std.specs.Prelude.{◌≡◌, ℕ, if◌then◌else◌, Bool, List, IfErr, IfOk};
ghost use Rattle.ep_history.specs.Pad.{PadState};
ghost use Rattle.ep_event.specs.declared.event.Event.TheVariants as event;
ghost use Rattle.ep_event.specs.declared.shown.Shown.TheVariants as shown;
ghost use Rattle.ep_event.specs.declared.shown.Verb.TheVariants as verb;
ghost use Rattle.ep_world.specs.Counting.{Counts};
ghost use Rattle.ep_world.specs.Failing.{IsFailure};
ghost use Rattle.ep_world.specs.Standing.{Ends, IsAt, Plays};
ghost use Rattle.ep_world.specs.Pushing.{TellsMember, TellsOf};
ghost use Rattle.ep_history.specs.declared.record.Record.{Record};

use crate::bad::{WorldBad, failure};
use crate::clients;
use crate::world::World;
use ep_event::{Shown, Verb};
use ep_history::PadBad;
use ep_members::{Conn, Member, Pushed};
use ep_outside::{Crash, Disk};
use ep_pad::PadMachine;
use ep_units::Units;

impl<D: Crash> World<D> {
    /// The server sends a client the next that it is to be told.
    pub(crate) fn push(&mut self, name: Units) -> Result<Shown, WorldBad>
        ensures plays { (now : ℕ) → Plays D.told D.failures D.stops_alone self.old now (event.Push name) result self.new }
        ensures ends { (now : ℕ) → Ends D.told D.failures D.stops_alone self.old now (event.Push name) result self.new }
    {
        let Some(member) = self.actors.client(&name) else {
            return Err(WorldBad::Unknown);
        };
        let pushed = tell_member(&mut self.machine, member)?;
        Ok(pushed.show(name))
    }

    /// A client hears the first of its queue down.
    pub(crate) fn hear(&mut self, name: Units) -> Result<Shown, WorldBad>
        ensures plays { (now : ℕ) → Plays D.told D.failures D.stops_alone self.old now (event.Hear name) result self.new }
        ensures ends { (now : ℕ) → Ends D.told D.failures D.stops_alone self.old now (event.Hear name) result self.new }
    {
        let Some(member) = self.actors.client(&name) else {
            return Err(WorldBad::Unknown);
        };
        Ok(member.hear(self.alloc, name)?)
    }

    /// A client's connection is lost.
    pub(crate) fn lose(&mut self, name: Units) -> Result<Shown, WorldBad>
        ensures plays { (now : ℕ) → Plays D.told D.failures D.stops_alone self.old now (event.Lose name) result self.new }
        ensures ends { (now : ℕ) → Ends D.told D.failures D.stops_alone self.old now (event.Lose name) result self.new }
    {
        let mut member = clients::member(self.alloc, &mut self.actors, &name)?;
        let was = member.client.client().is_connected();
        member.lose();
        self.actors.seat(self.alloc, &name, member)?;
        Ok(show_lost(name, was))
    }
}

/// What is shown of a loss.
fn show_lost(name: Units, was_connected: bool) -> Shown
    ensures { result ≡ (if was_connected then shown.Done verb.Lose (Some name) else shown.Nothing verb.Lose name) }
{
    let verb = Verb::Lose;
    if was_connected {
        Shown::Done {
            verb,
            name: Some(name),
        }
    } else {
        Shown::Nothing { verb, name }
    }
}

/// A client is told the next, if it can be told anything.
pub(crate) fn tell_member<D: Disk>(
    machine: &mut PadMachine<D>,
    member: &mut Member,
) -> Result<Pushed, WorldBad>
    ensures told { (alone : Bool) (rs : List Record) (pad : PadState) → IsAt D.told D.failures D.stops_alone alone rs machine.old pad → IfOk result (TellsMember D.told D.failures D.stops_alone alone rs pad member.old machine.new member.new) }
    ensures failed { IfErr result IsFailure }
    ensures counts { (alone : Bool) (rs : List Record) (pad : PadState) → IsAt D.told D.failures D.stops_alone alone rs machine.old pad → Counts (D.failures machine.old.disk) (D.failures machine.new.disk) result }
{
    if !member.may_be_told() {
        return Ok(Pushed::Nothing);
    }
    tell(machine, &mut member.conn)
}

/// The next of what a session has not been told enters its queue down.
fn tell<D: Disk>(machine: &mut PadMachine<D>, conn: &mut Conn) -> Result<Pushed, WorldBad>
    ensures told { (alone : Bool) (rs : List Record) (pad : PadState) → IsAt D.told D.failures D.stops_alone alone rs machine.old pad → IfOk result (TellsOf D.told D.failures D.stops_alone alone rs pad conn.old machine.new conn.new) }
    ensures failed { IfErr result IsFailure }
    ensures counts { (alone : Bool) (rs : List Record) (pad : PadState) → IsAt D.told D.failures D.stops_alone alone rs machine.old pad → Counts (D.failures machine.old.disk) (D.failures machine.new.disk) result }
{
    match machine.fetch_first(conn.session(), conn.sent(), conn.nops(), 1) {
        Ok(fetched) => Ok(conn.tell_next(fetched)?),
        Err(PadBad::Dead(why)) => Ok(conn.tell_end(why)?),
        Err(bad) => Err(failure(bad)),
    }
}

//! The server takes messages.

ghost use Rattle.std.specs.Prelude.{◌≡◌, ℕ, Bool, List, true, not, Some, MatchResult};
ghost use Rattle.ep_cs.specs.EditFits.{is_edit};
ghost use Rattle.ep_history.specs.Pad.{PadState, leave};
ghost use Rattle.ep_schedule.specs.World.{Message, Conn as AConn, Member as AMember, WorldState};
ghost use Rattle.ep_schedule.specs.World.Actor.{Guest, Named};
ghost use Rattle.ep_world.specs.Kepts.{Kepts};
ghost use Rattle.ep_event.specs.declared.event.Event.TheVariants as event;
ghost use Rattle.ep_world.specs.Actors.{member_of};
ghost use Rattle.ep_world.specs.Conns.{conn_of, sent_of};
ghost use Rattle.ep_world.specs.Counting.{Counts};
ghost use Rattle.ep_world.specs.Failing.{IsFailure};
ghost use Rattle.ep_world.specs.Journal.{is_shut};
ghost use Rattle.ep_world.specs.Standing.{Comes, Ends, IsAt, Plays, StandsBut};
ghost use Rattle.ep_step.specs.Telling.{told_by};
ghost use Rattle.ep_event.specs.declared.shown.Shown.TheVariants as shown;
ghost use Rattle.ep_world.specs.Shows.{shows_made};
ghost use Rattle.ep_world.specs.Taking.{Brings, Settles, closing_of, closing_word, not_made, shows_late, shows_took};
ghost use Rattle.ep_history.specs.declared.record.Record.{Record};

use crate::bad::{WorldBad, failure, full};
use crate::clients;
use crate::world::World;
use ep_cs::Change;
use ep_event::{Ended, Reason, Shown, Verb};
use ep_history::{PadBad, Why};
use ep_members::{Actor, Conn, Member, Sent};
use ep_outside::{Crash, Disk};
use ep_pad::{Committed, PadMachine};
use ep_units::{Session, Units};

/// What a take of a message comes to.
#[derive(Drop)]
pub(crate) enum Took {
    Made(Committed),
    Refused(Reason),
    /// The journal would have so many bytes.
    NoRoom(u64),
    /// It would have so many with the opening of a pad that is shut.
    Shut(u64),
}

impl<D: Crash> World<D> {
    /// The server takes the first message of a name.
    pub(crate) fn take(&mut self, name: Units, now: u64) -> Result<Shown, WorldBad>
        ensures plays { Plays D.told D.failures D.stops_alone self.old now (event.Take name) result self.new }
        ensures ends { Ends D.told D.failures D.stops_alone self.old now (event.Take name) result self.new }
    {
        match self.actors.take(&name) {
            None => Err(WorldBad::Unknown),
            Some(Actor::Guest(conn)) => self.take_of_guest(name, conn, now),
            Some(Actor::Named(member)) => self.take_of_member(name, member, now),
        }
    }

    fn take_of_guest(&mut self, name: Units, mut conn: Conn, now: u64) -> Result<Shown, WorldBad>
        ensures comes { (alone : Bool) (rs : List Record) (w : WorldState) (ks : Kepts) (c : AConn) → w.actors name ≡ Guest c → conn ≡ conn_of c → StandsBut D.told D.failures D.stops_alone alone rs self.old name w ks
            → Comes D.told D.failures D.stops_alone alone rs w ks now (event.Take name) self.new result }
        ensures counts { (alone : Bool) (rs : List Record) (w : WorldState) (ks : Kepts) (c : AConn) → w.actors name ≡ Guest c → conn ≡ conn_of c → StandsBut D.told D.failures D.stops_alone alone rs self.old name w ks
            → Counts (D.failures self.old.machine.disk) (D.failures self.new.machine.disk) result }
    {
        let session = conn.session();
        let Some(sent) = conn.take() else {
            self.actors.put(self.alloc, &name, Actor::Guest(conn))?;
            return Ok(Shown::Nothing {
                verb: Verb::Take,
                name,
            });
        };
        let took = match bring_or_leave(&mut self.machine, session, sent, now) {
            Ok(took) => took,
            Err(bad) => return Err(bad),
        };
        self.actors.put(self.alloc, &name, Actor::Guest(conn))?;
        Ok(took.show(Verb::Take, name))
    }

    fn take_of_member(
        &mut self,
        name: Units,
        mut member: Member,
        now: u64,
    ) -> Result<Shown, WorldBad>
        ensures comes { (alone : Bool) (rs : List Record) (w : WorldState) (ks : Kepts) (m : AMember) → w.actors name ≡ Named m → member ≡ member_of m (ks name) → StandsBut D.told D.failures D.stops_alone alone rs self.old name w ks
            → Comes D.told D.failures D.stops_alone alone rs w ks now (event.Take name) self.new result }
        ensures counts { (alone : Bool) (rs : List Record) (w : WorldState) (ks : Kepts) (m : AMember) → w.actors name ≡ Named m → member ≡ member_of m (ks name) → StandsBut D.told D.failures D.stops_alone alone rs self.old name w ks
            → Counts (D.failures self.old.machine.disk) (D.failures self.new.machine.disk) result }
    {
        let session = member.conn.session();
        let Some(sent) = member.conn.take() else {
            self.actors.seat(self.alloc, &name, member)?;
            return Ok(Shown::Nothing {
                verb: Verb::Take,
                name,
            });
        };
        let took = match bring_or_leave(&mut self.machine, session, sent, now) {
            Ok(took) => took,
            Err(bad) => return Err(bad),
        };
        member.conn.close_if(took.closing())?;
        self.actors.seat(self.alloc, &name, member)?;
        Ok(took.show(Verb::Take, name))
    }

    /// The server takes the first message of the connection that a client had before its last resumption.
    pub(crate) fn late(&mut self, name: Units, now: u64) -> Result<Shown, WorldBad>
        ensures plays { Plays D.told D.failures D.stops_alone self.old now (event.Late name) result self.new }
        ensures ends { Ends D.told D.failures D.stops_alone self.old now (event.Late name) result self.new }
    {
        let mut member = clients::member(self.alloc, &mut self.actors, &name)?;
        let Some((session, sent)) = member.late() else {
            self.actors.seat(self.alloc, &name, member)?;
            return Ok(Shown::Nothing {
                verb: Verb::Late,
                name,
            });
        };
        let took = match bring(&mut self.machine, session, sent, now) {
            Ok(took) => took,
            Err(bad) => return Err(bad),
        };
        self.actors.seat(self.alloc, &name, member)?;
        took.show_late(name)
    }
}

/// A session's message is brought to the pad; where it isn't taken the session is left.
fn bring_or_leave<D: Disk>(
    machine: &mut PadMachine<D>,
    session: Session,
    sent: Sent,
    now: u64,
) -> Result<Took, WorldBad>
    ensures settles { (alone : Bool) (rs : List Record) (pad : PadState) (msg : Message) → sent ≡ sent_of msg → IsAt D.told D.failures D.stops_alone alone rs machine.old pad
        → MatchResult result (Settles D.told D.failures D.stops_alone alone rs pad session msg now machine.new) IsFailure }
    ensures counts { (alone : Bool) (rs : List Record) (pad : PadState) (msg : Message) → sent ≡ sent_of msg → IsAt D.told D.failures D.stops_alone alone rs machine.old pad
        → Counts (D.failures machine.old.disk) (D.failures machine.new.disk) result }
{
    match bring(machine, session, sent, now) {
        Ok(took) => leave_unless_made(machine, session, took),
        Err(bad) => Err(bad),
    }
}

/// A session whose message isn't taken is left.
fn leave_unless_made<D: Disk>(
    machine: &mut PadMachine<D>,
    session: Session,
    took: Took,
) -> Result<Took, WorldBad>
    ensures settles { (alone : Bool) (rs : List Record) (pad : PadState) (msg : Message) (now : ℕ) → Brings D.told D.failures D.stops_alone alone rs pad session msg now machine.old took
        → MatchResult result (Settles D.told D.failures D.stops_alone alone rs pad session msg now machine.new) IsFailure }
    ensures counts { (alone : Bool) (rs : List Record) (pad : PadState) → IsAt D.told D.failures D.stops_alone alone rs machine.old pad → Counts (D.failures machine.old.disk) (D.failures machine.new.disk) result }
{
    match took {
        Took::Made(made) => Ok(Took::Made(made)),
        Took::Refused(why) => match give_leave(machine, session) {
            Ok(_) => Ok(Took::Refused(why)),
            Err(bad) => Err(bad),
        },
        Took::NoRoom(bytes) => match give_leave(machine, session) {
            Ok(true) => Ok(Took::NoRoom(bytes)),
            Ok(false) => Ok(Took::Shut(bytes)),
            Err(bad) => Err(bad),
        },
        Took::Shut(bytes) => Ok(Took::Shut(bytes)),
    }
}

/// A session's message is brought to the pad, where its text spells a change.
pub(crate) fn bring<D: Disk>(
    machine: &mut PadMachine<D>,
    session: Session,
    sent: Sent,
    now: u64,
) -> Result<Took, WorldBad>
    ensures brings { (alone : Bool) (rs : List Record) (pad : PadState) (msg : Message) → sent ≡ sent_of msg → IsAt D.told D.failures D.stops_alone alone rs machine.old pad
        → MatchResult result (Brings D.told D.failures D.stops_alone alone rs pad session msg now machine.new) IsFailure }
    ensures counts { (alone : Bool) (rs : List Record) (pad : PadState) → IsAt D.told D.failures D.stops_alone alone rs machine.old pad → Counts (D.failures machine.old.disk) (D.failures machine.new.disk) result }
{
    let Sent { base, change } = sent;
    match change {
        Ok(change) => accept(machine, session, base, change, now),
        Err(why) => Ok(Took::Refused(Reason::Read(why))),
    }
}

/// A session's change is brought to the pad.
fn accept<D: Disk>(
    machine: &mut PadMachine<D>,
    session: Session,
    base: u64,
    change: Change,
    now: u64,
) -> Result<Took, WorldBad>
    ensures brings { (alone : Bool) (rs : List Record) (pad : PadState) (msg : Message) → msg.base ≡ base → msg.change ≡ change → is_edit change.edit ≡ true → IsAt D.told D.failures D.stops_alone alone rs machine.old pad
        → MatchResult result (Brings D.told D.failures D.stops_alone alone rs pad session msg now machine.new) IsFailure }
    ensures counts { (alone : Bool) (rs : List Record) (pad : PadState) → IsAt D.told D.failures D.stops_alone alone rs machine.old pad → Counts (D.failures machine.old.disk) (D.failures machine.new.disk) result }
{
    match machine.accept(session, base, change, now) {
        Ok(made) => Ok(Took::Made(made)),
        Err(bad) => not_made(bad),
    }
}

/// What a refusal by the pad comes to.
fn not_made(bad: PadBad) -> Result<Took, WorldBad>
    ensures { result ≡ not_made bad }
{
    match bad {
        PadBad::Store(count) => Err(WorldBad::Store(count)),
        PadBad::NoMemory => Err(WorldBad::NoMemory),
        PadBad::JournalFull(bytes) => Ok(Took::NoRoom(bytes)),
        bad => Ok(Took::Refused(Reason::Pad(bad))),
    }
}

/// A session whose message isn't taken is left, if it was live; and whether the pad is open. One that is shut has no session.
fn give_leave<D: Disk>(machine: &mut PadMachine<D>, session: Session) -> Result<bool, WorldBad>
    ensures leaves { (alone : Bool) (rs : List Record) (pad : PadState) → IsAt D.told D.failures D.stops_alone alone rs machine.old pad
        → MatchResult result (λ is_open. (is_open ≡ not (is_shut rs pad)) × IsAt D.told D.failures D.stops_alone alone rs machine.new (leave pad session)) IsFailure }
    ensures counts { (alone : Bool) (rs : List Record) (pad : PadState) → IsAt D.told D.failures D.stops_alone alone rs machine.old pad → Counts (D.failures machine.old.disk) (D.failures machine.new.disk) result }
{
    match machine.leave(session) {
        Ok(()) => Ok(true),
        Err(PadBad::Dead(_)) => Ok(true),
        Err(PadBad::JournalFull(_)) => Ok(false),
        Err(bad) => Err(failure(bad)),
    }
}

/// The word with which a refusal closes.
fn closing_word(why: &Reason) -> Ended
    ensures { result ≡ closing_word why.now }
{
    match why {
        Reason::Pad(PadBad::Dead(Why::Deleted(_))) => Ended::Deleted,
        Reason::Pad(PadBad::Dead(Why::Replaced(_))) => Ended::UserDup,
        Reason::Pad(PadBad::Gone) => Ended::Deleted,
        _ => Ended::BadChangeset,
    }
}

impl Took {
    /// The word of the closing that it brings.
    fn closing(&self) -> Option<Ended>
        ensures { result ≡ closing_of self.now }
    {
        match self {
            Took::Made(_) => None,
            Took::Refused(why) => Some(closing_word(why)),
            Took::NoRoom(_) => Some(Ended::Full),
            Took::Shut(_) => Some(Ended::BadChangeset),
        }
    }

    fn show(self, verb: Verb, name: Units) -> Shown
        ensures { result ≡ shows_took verb name self }
    {
        match self {
            Took::Made(made) => show_made(verb, name, made),
            Took::Refused(why) => refuse(verb, name, why),
            Took::NoRoom(bytes) | Took::Shut(bytes) => full(verb, Some(name), bytes),
        }
    }

    /// The session of a late message has ended, so that by the rules it is refused before the journal is asked; and nothing is
    /// late where the pad is shut. One for which there is no room would be answered as want of memory.
    fn show_late(self, name: Units) -> Result<Shown, WorldBad>
        ensures { result ≡ shows_late name self }
    {
        match self {
            Took::Made(made) => Ok(show_made(Verb::Late, name, made)),
            Took::Refused(why) => Ok(refuse(Verb::Late, name, why)),
            Took::NoRoom(_) | Took::Shut(_) => Err(WorldBad::NoMemory),
        }
    }
}

fn refuse(verb: Verb, name: Units, why: Reason) -> Shown
    ensures { result ≡ shown.Refused verb (Some name) why }
{
    Shown::Refused {
        verb,
        name: Some(name),
        why,
    }
}

fn show_made(verb: Verb, name: Units, made: Committed) -> Shown
    ensures { result ≡ shows_made verb name (told_by made) }
{
    if made.nop {
        Shown::Noted {
            verb,
            name,
            rev: made.rev,
        }
    } else {
        Shown::Taken {
            verb,
            name,
            rev: made.rev,
            fixed: made.fixed,
            change: made.change,
        }
    }
}

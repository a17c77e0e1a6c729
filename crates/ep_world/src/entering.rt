//! Clients and guests come, and clients come back.

ghost use Rattle.std.specs.Prelude.{◌≡◌, IfOk, OnOk};
ghost use Rattle.ep_schedule.specs.World.{WorldState, author_of, grant_of};
ghost use Rattle.ep_event.specs.declared.event.Event.TheVariants as event;
ghost use Rattle.ep_event.specs.declared.shown.Shown.TheVariants as shown;
ghost use Rattle.ep_event.specs.declared.shown.Verb.TheVariants as verb;
ghost use Rattle.ep_members.specs.declared.actors.Actor.TheVariants as actor;
ghost use Rattle.ep_members.specs.Actors.{PutsActor};
ghost use Rattle.ep_members.specs.Conns.{kept_new};
ghost use Rattle.ep_world.specs.Entering.{started_member};
ghost use Rattle.ep_world.specs.Shows.{visit_verb};
ghost use Rattle.ep_world.specs.Standing.{Ends, Plays};

use crate::bad::{WorldBad, refused};
use crate::clients;
use crate::world::World;
use ep_client::Client;
use ep_event::{Shown, Verb};
use ep_members::{Actor, Actors, Conn, Member};
use ep_outside::Crash;
use ep_pad::Welcome;
use ep_undo::UndoClient;
use ep_units::{Grant, NoMemory, PadId, Units};
use std::alloc::Global;

impl<D: Crash> World<D> {
    /// A client logs in, and starts anew.
    pub(crate) fn login(&mut self, name: Units, now: u64) -> Result<Shown, WorldBad>
        ensures plays { Plays D.told D.failures D.stops_alone self.old now (event.Login name) result self.new }
        ensures ends { Ends D.told D.failures D.stops_alone self.old now (event.Login name) result self.new }
    {
        if self.actors.is_guest(&name) {
            return Err(WorldBad::Unknown);
        }
        let grant = grant(self.alloc, &self.id, &name, false)?;
        match self.machine.login(&grant, now) {
            Ok(welcome) => Ok(start(self.alloc, &mut self.actors, name, welcome)?),
            Err(bad) => refused(Verb::Login, Some(name), bad),
        }
    }

    /// A guest comes, or starts anew.
    pub(crate) fn visit(
        &mut self,
        name: Units,
        read_only: bool,
        now: u64,
    ) -> Result<Shown, WorldBad>
        ensures plays { Plays D.told D.failures D.stops_alone self.old now (event.Guest name read_only) result self.new }
        ensures ends { Ends D.told D.failures D.stops_alone self.old now (event.Guest name read_only) result self.new }
    {
        if self.actors.is_client(&name) {
            return Err(WorldBad::Unknown);
        }
        let verb = visit_verb(read_only);
        let grant = grant(self.alloc, &self.id, &name, read_only)?;
        match self.machine.login(&grant, now) {
            Ok(welcome) => Ok(receive(self.alloc, &mut self.actors, verb, name, &welcome)?),
            Err(bad) => refused(verb, Some(name), bad),
        }
    }

    /// A client, lost if it wasn't, comes back at its revision.
    pub(crate) fn resume(&mut self, name: Units, now: u64) -> Result<Shown, WorldBad>
        ensures plays { Plays D.told D.failures D.stops_alone self.old now (event.Resume name) result self.new }
        ensures ends { Ends D.told D.failures D.stops_alone self.old now (event.Resume name) result self.new }
    {
        let mut member = clients::member(self.alloc, &mut self.actors, &name)?;
        member.lose();
        let grant = grant(self.alloc, &self.id, &name, false)?;
        let birth = Some(member.birth);
        match self
            .machine
            .resume(&grant, member.client.client().rev(), birth, None, now)
        {
            Ok(told) => {
                member.resume(self.alloc, told.session, told.head);
                self.actors.seat(self.alloc, &name, member)?;
                Ok(Shown::Resumed {
                    name,
                    session: told.session,
                    head: told.head,
                })
            }
            Err(bad) => {
                self.actors.seat(self.alloc, &name, member)?;
                refused(Verb::Resume, Some(name), bad)
            }
        }
    }
}

/// A client starts at what it was welcomed with.
fn start(
    alloc: Global,
    actors: &mut Actors,
    name: Units,
    welcome: Welcome,
) -> Result<Shown, NoMemory>
    ensures shown { IfOk result (λ s. s ≡ shown.Entered verb.Login name welcome.session welcome.rev) }
    ensures put { OnOk result (PutsActor actors.old name (actor.Named (started_member welcome)) actors.new) }
{
    let session = welcome.session;
    let rev = welcome.rev;
    let client = Client::start(alloc, welcome.doc, rev, session)?;
    let member = Member {
        client: UndoClient::start(alloc, client),
        birth: welcome.birth,
        conn: Conn::new(alloc, session, rev),
        earlier: None,
    };
    actors.seat(alloc, &name, member)?;
    Ok(Shown::Entered {
        verb: Verb::Login,
        name,
        session,
        rev,
    })
}

/// A guest has a connection.
fn receive(
    alloc: Global,
    actors: &mut Actors,
    verb: Verb,
    name: Units,
    welcome: &Welcome,
) -> Result<Shown, NoMemory>
    ensures shown { IfOk result (λ s. s ≡ shown.Entered verb name welcome.now.session welcome.now.rev) }
    ensures put { OnOk result (PutsActor actors.old name (actor.Guest (kept_new welcome.now.session welcome.now.rev)) actors.new) }
{
    let session = welcome.session;
    let rev = welcome.rev;
    let conn = Conn::new(alloc, session, rev);
    actors.put(alloc, &name, Actor::Guest(conn))?;
    Ok(Shown::Entered {
        verb,
        name,
        session,
        rev,
    })
}

fn visit_verb(read_only: bool) -> Verb
    ensures { result ≡ visit_verb read_only }
{
    if read_only { Verb::Reader } else { Verb::Guest }
}

/// `a.`
const AUTHOR: [u16; 2] = [97, 46];

/// The author of a name.
fn author_of(alloc: Global, name: &Units) -> Result<Units, NoMemory>
    ensures { IfOk result (λ author. author ≡ author_of name.now) }
{
    let mut author = Units::from_slice(alloc, &AUTHOR)?;
    author.push_all(name.as_slice())?;
    Ok(author)
}

/// The leave of a name: that of an author who is no member.
fn grant(alloc: Global, id: &PadId, name: &Units, read_only: bool) -> Result<Grant, NoMemory>
    ensures { IfOk result (λ g. (w : WorldState) → id.now ≡ w.id → g ≡ grant_of w name.now read_only) }
{
    let author = author_of(alloc, name)?;
    Ok(Grant {
        pad: id.copy(alloc)?,
        asked: Units::from_slice(alloc, id.as_slice())?,
        token_author: author.copy(alloc)?,
        author,
        member: false,
        read_only,
    })
}

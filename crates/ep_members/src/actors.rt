//! Who takes part, by name.

ghost use Rattle.std.specs.Prelude.{◌≡◌, [], Option, OnOk, position};
ghost use Rattle.std.specs.Option.{option_map};
ghost use Rattle.std.specs.Borrow.{sem};
ghost use Rattle.ep_units.specs.Text.{Text, text_eq};
ghost use Rattle.ep_members.specs.Actors.{client_in, client_of, found, kept_cut_off, is_a_client, is_a_guest, IsWithout, PutsActor, TakesFirst, TakesSent};
ghost use Rattle.ep_members.specs.Lending.{LendsClient, LendsNamed, LendsSlot};
ghost use Rattle.ep_members.specs.declared.actors.Actor.TheVariants as actor;

use crate::conn::Conn;
use crate::member::Member;
use crate::message::Sent;
use ep_units::{NoMemory, Session, Units};
use std::alloc::Global;
use std::marker::Model;
use std::mem::replace;

/// Whom a name stands for.
#[derive(Drop)]
pub enum Actor {
    /// A connection that sends what it likes, and hears nothing.
    Guest(Conn),
    Named(Member),
}

/// The place of a name.
pub struct Slot {
    pub name: Units,
    pub actor: Option<Actor>,
}

// It is written out, so that who drops one doesn't prove again how its parts are dropped.
impl Drop for Slot {
    fn drop(self) {
        let Slot { name: _, actor: _ } = self;
    }
}

/// Clients and guests by name. Where a call answers that memory was wanting, they are not to be used any more.
pub struct Actors {
    slots: Vec<Slot>,
}

// It is written out, so that who drops one doesn't prove again how its parts are dropped.
impl Drop for Actors {
    fn drop(self) {
        let Actors { slots: _ } = self;
    }
}

impl Model for Actors {
    ghost use Rattle.std.specs.Prelude.{List};
    ghost use Rattle.ep_members.specs.declared.actors.Slot.{Slot};
    ghost use Rattle.ep_members.specs.Actors.{held_actors};

    ghost Value = { List Slot };

    ghost view = { held_actors };
}

impl Actors {
    /// Nobody.
    pub fn new(alloc: Global) -> Actors
        ensures { result ≡ [] }
    {
        Actors {
            slots: Vec::new(alloc),
        }
    }

    fn place(&self, name: &Units) -> Option<usize>
        ensures { result ≡ position (λ s. text_eq name.now s.name) self.now }
    {
        self.slots.iter().position(|slot| slot.is_called(name))
    }

    /// Whom a name stands for.
    pub fn find(&self, name: &Units) -> Option<&Actor>
        ensures { option_map (λ a. a.now) result ≡ found self.now name.now }
    {
        let place = self.place(name)?;
        self.slots[place].actor.as_ref()
    }

    pub fn is_guest(&self, name: &Units) -> bool
        ensures { result ≡ is_a_guest (found self.now name.now) }
    {
        match self.find(name) {
            Some(Actor::Guest(_)) => true,
            _ => false,
        }
    }

    pub fn is_client(&self, name: &Units) -> bool
        ensures { result ≡ is_a_client (found self.now name.now) }
    {
        match self.find(name) {
            Some(Actor::Named(_)) => true,
            _ => false,
        }
    }

    /// Takes out whom a name stands for, to be put back.
    pub fn take(&mut self, name: &Units) -> Option<Actor>
        ensures actor { result ≡ found self.old name.now }
        ensures others { IsWithout self.old name.now self.new }
    {
        let place = self.place(name)?;
        replace(&mut self.slots[place].actor, None)
    }

    /// The name stands for this one from now on.
    pub fn put(&mut self, alloc: Global, name: &Units, actor: Actor) -> Result<(), NoMemory>
        ensures { OnOk result (PutsActor self.old name.now actor self.new) }
    {
        match self.place(name) {
            Some(place) => self.slots[place].put(actor),
            None => self.slots.push(Slot {
                name: name.copy(alloc)?,
                actor: Some(actor),
            })?,
        }
        Ok(())
    }

    /// A client is put back.
    pub fn seat(&mut self, alloc: Global, name: &Units, member: Member) -> Result<(), NoMemory>
        ensures { OnOk result (PutsActor self.old name.now (actor.Named member) self.new) }
    {
        self.put(alloc, name, Actor::Named(member))
    }

    /// The client of a name, where there is one, to be changed where it stands.
    pub fn client(&mut self, name: &Units) -> Option<&mut Member>
        ensures* lends { sem 𝓛 (LendsClient self.entry name.now result) }
        ensures told { option_map (λ m. m.now) result ≡ client_of (found self.old name.now) }
    {
        let place = self.place(name)?;
        self.slots[place].client()
    }

    /// All connections are gone.
    pub fn cut_off(&mut self)
        ensures { (n : Text) → found self.new n ≡ option_map kept_cut_off (found self.old n) }
    {
        for place in 0..self.slots.len() {
            self.slots[place].cut_off();
        }
    }
}

impl Slot {
    /// Whether it is this name's: names mostly begin alike, so it is compared from its end.
    fn is_called(&self, name: &Units) -> bool
        ensures { result ≡ text_eq name.now self.now.name }
    {
        let (own, sought) = (self.name.as_slice(), name.as_slice());
        if own.len() != sought.len() {
            return false;
        }
        let mut left = own.len();
        'units: while left > 0 {
            left -= 1;
            if own[left] != sought[left] {
                return false;
            }
        }
        true
    }

    fn put(&mut self, actor: Actor)
        ensures { self.new ≡ record self.old { actor = Some actor } }
    {
        self.actor = Some(actor);
    }

    fn client(&mut self) -> Option<&mut Member>
        ensures* lends { sem 𝓛 (LendsSlot self.entry result) }
        ensures told { option_map (λ m. m.now) result ≡ client_of self.old.actor }
    {
        match &mut self.actor {
            Some(actor) => actor.client(),
            None => None,
        }
    }

    fn cut_off(&mut self)
        ensures { self.new ≡ record self.old { actor = option_map kept_cut_off self.old.actor } }
    {
        match &mut self.actor {
            None => {}
            Some(Actor::Guest(conn)) => conn.cut(),
            Some(Actor::Named(member)) => member.cut_off(),
        }
    }
}

impl Actor {
    fn client(&mut self) -> Option<&mut Member>
        ensures* lends { sem 𝓛 (LendsNamed self.entry result) }
        ensures told { option_map (λ m. m.now) result ≡ client_in self.old }
    {
        match self {
            Actor::Named(member) => Some(member),
            Actor::Guest(_) => None,
        }
    }

    /// The server takes the first message of the queue up, where there is one; with its session.
    pub fn first_sent(&mut self) -> Option<(Session, Sent)>
        ensures { TakesFirst self.old result self.new }
    {
        match self {
            Actor::Guest(conn) => first_of(conn),
            Actor::Named(member) => first_of(&mut member.conn),
        }
    }
}

fn first_of(conn: &mut Conn) -> Option<(Session, Sent)>
    ensures { TakesSent conn.old result conn.new }
{
    let sent = conn.take()?;
    Some((conn.session, sent))
}

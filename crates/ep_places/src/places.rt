//! The places of revisions.

ghost use Rattle.std.specs.Prelude.{◌≡◌, ◌↔◌, ◌+◌, ◌≤◌, ◌<◌, [], ◌∷◌, ◌++◌, length, slice_get, Some, OnOk, IsOk, IsTrue};
ghost use Rattle.ep_places.specs.Places.{kept};

use crate::place::{Place, packed, unpacked};
use ep_units::NoMemory;
use std::alloc::Global;
use std::marker::Model;

/// Of each revision, from revision 0 on, its place or none.
#[derive(Drop)]
pub struct Places {
    slots: Vec<u32>,
}

impl Model for Places {
    ghost use Rattle.ep_places.specs.Places.{KeptPlaces, place_in};
    ghost use Rattle.std.specs.Prelude.{◌-◌, map, vec_len, vec_capacity};

    ghost Value = { KeptPlaces };

    ghost view = { λ p. record { places = map place_in p.slots.items; room = vec_capacity p.slots - vec_len p.slots } };
}

impl Places {
    /// No places.
    pub fn new(alloc: Global) -> Places
        ensures { result.places ≡ [] }
    {
        Places {
            slots: Vec::new(alloc),
        }
    }

    /// Makes room for so many more.
    pub fn reserve(&mut self, more: usize) -> Result<(), NoMemory>
        ensures same { self.new.places ≡ self.old.places }
        ensures room { OnOk result (more ≤ self.new.room) }
        ensures keeps_room { self.old.room ≤ self.new.room }
        ensures enough { more ≤ self.old.room → IsOk result }
    {
        if self.slots.capacity() - self.slots.len() < more {
            self.slots.reserve(more)?;
        }
        Ok(())
    }

    /// One more revision's. It takes no memory.
    pub fn push(&mut self, place: Option<Place>)
        requires room { 1 ≤ self.old.room }
        ensures pushed { self.new.places ≡ self.old.places ++ kept place ∷ [] }
        ensures room { self.new.room + 1 ≡ self.old.room }
    {
        self.slots.push_reserved(packed(place));
    }

    /// Of how many revisions there are places.
    pub fn len(&self) -> usize
        ensures { result ≡ length self.now.places }
    {
        self.slots.len()
    }

    /// Whether there are no revisions.
    pub fn is_empty(&self) -> bool
        ensures { IsTrue result ↔ (self.now.places ≡ []) }
    {
        self.slots.is_empty()
    }

    /// The place of a revision, where it has one.
    pub fn get(&self, rev: usize) -> Option<Place>
        requires there { rev < length self.now.places }
        ensures place { slice_get self.now.places rev ≡ Some result }
    {
        unpacked(self.slots[rev])
    }
}

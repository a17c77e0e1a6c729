//! The bells of all pads.

use crate::bell::Bell;
use ep_link::Ear;
use ep_units::{NoMemory, Units};
use std::alloc::Global;
use std::collections::BTreeMap;
use std::sync::{Arc, Mutex, Wait};

/// The bell of each pad for which somebody waits, and how many ears were hung so far.
#[derive(Drop)]
struct Tower<E: Ear> {
    by_pad: BTreeMap<Units, Arc<Bell<E>>>,
    hung: u64,
}

impl<E: Ear> Tower<E> {
    // A bell with one ear, for a pad that has none.
    fn put<R: Wait>(
        &mut self,
        rt: &R,
        alloc: Global,
        pad: &Units,
        number: u64,
        ear: E,
    ) -> Result<(), NoMemory> {
        let bell = Bell::new(alloc);
        bell.hang(rt, number, ear)?;
        let bell = Arc::new(alloc, bell)?;
        match self.by_pad.insert(pad.copy(alloc)?, bell) {
            Ok(_) => Ok(()),
            Err(_) => Err(NoMemory),
        }
    }

    fn hang<R: Wait>(
        &mut self,
        rt: &R,
        alloc: Global,
        pad: &Units,
        ear: E,
    ) -> Result<u64, NoMemory> {
        let Some(number) = self.hung.checked_add(1) else {
            return Err(NoMemory);
        };
        match self.by_pad.get(pad) {
            Some(bell) => bell.hang(rt, number, ear)?,
            None => self.put(rt, alloc, pad, number, ear)?,
        }
        self.hung = number;
        Ok(number)
    }

    fn take_down<R: Wait>(&mut self, rt: &R, pad: &Units, number: u64) {
        let is_bare = match self.by_pad.get(pad) {
            Some(bell) => bell.take_down(rt, number),
            None => false,
        };
        if is_bare {
            let _gone = self.by_pad.remove(pad);
        }
    }
}

/// The bells of the pads for which somebody waits. A pad for which nobody does has none.
#[derive(Drop)]
pub struct Bells<E: Ear> {
    alloc: Global,
    tower: Mutex<Tower<E>>,
}

impl<E: Ear> Bells<E> {
    /// Nobody waits for a pad.
    pub fn new(alloc: Global) -> Bells<E> {
        let tower = Tower {
            by_pad: BTreeMap::new(alloc),
            hung: 0,
        };
        Bells {
            alloc,
            tower: Mutex::new(tower),
        }
    }

    pub(crate) fn alloc(&self) -> Global {
        self.alloc
    }

    /// An ear waits for the pad of this name from now on, until the number that is answered is taken down.
    pub fn hang<R: Wait>(&self, rt: &R, pad: &Units, ear: E) -> Result<u64, NoMemory> {
        let mut tower = self.tower.lock(rt);
        tower.hang(rt, self.alloc, pad, ear)
    }

    /// Who hung an ear for the pad under this number waits no more.
    pub fn take_down<R: Wait>(&self, rt: &R, pad: &Units, number: u64) {
        let mut tower = self.tower.lock(rt);
        tower.take_down(rt, pad, number);
    }

    // The lock is given back before the bell rings.
    fn bell<R: Wait>(&self, rt: &R, pad: &Units) -> Option<Arc<Bell<E>>> {
        let tower = self.tower.lock(rt);
        let bell = tower.by_pad.get(pad)?;
        Arc::try_clone(bell).ok()
    }

    /// Wakes all that wait for the pad but who rings, whose number is given, or `NOBODY`.
    pub fn ring<R: Wait>(&self, rt: &R, pad: &Units, ringer: u64) {
        if let Some(bell) = self.bell(rt, pad) {
            bell.ring(rt, ringer);
        }
    }

    /// For how many pads somebody waits.
    pub fn count<R: Wait>(&self, rt: &R) -> usize {
        let tower = self.tower.lock(rt);
        tower.by_pad.len()
    }
}

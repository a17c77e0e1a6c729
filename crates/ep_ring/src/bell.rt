//! A bell, and the ears that hang on it.

use ep_link::Ear;
use ep_units::NoMemory;
use std::alloc::Global;
use std::sync::{Mutex, Wait};

/// Who rings and has no ear on the bell.
pub const NOBODY: u64 = 0;

/// An ear, and the number by which it is taken down.
#[derive(Drop)]
struct Hung<E: Ear> {
    number: u64,
    ear: E,
}

/// The ears of those that wait for one pad.
#[derive(Drop)]
pub struct Bell<E: Ear> {
    ears: Mutex<Vec<Hung<E>>>,
}

impl<E: Ear> Bell<E> {
    /// Nobody waits.
    pub fn new(alloc: Global) -> Bell<E> {
        Bell {
            ears: Mutex::new(Vec::new(alloc)),
        }
    }

    /// One more ear hangs on it, under a number.
    pub fn hang<R: Wait>(&self, rt: &R, number: u64, ear: E) -> Result<(), NoMemory> {
        let mut ears = self.ears.lock(rt);
        ears.push(Hung { number, ear })?;
        Ok(())
    }

    /// The ear of the number hangs there no more. The answer is whether none does.
    pub fn take_down<R: Wait>(&self, rt: &R, number: u64) -> bool {
        let mut ears = self.ears.lock(rt);
        ears.retain(|hung| hung.number != number);
        ears.is_empty()
    }

    /// Wakes all that wait but who rings, and forgets those that listen no more.
    pub fn ring<R: Wait>(&self, rt: &R, ringer: u64) {
        let mut ears = self.ears.lock(rt);
        ears.retain(|hung| hung.number == ringer || hung.ear.ring());
    }
}

//! Where the last revision of a session may stand.

use ep_units::{NoMemory, Session};
use std::alloc::Global;

/// For how many sessions there is a guess.
const MOST: usize = 64;

/// For the sessions that wrote last, in which revision each did. A guess may be wrong, and nothing may rest on it.
///
/// They stand apart from the birth, which is moved often.
pub struct Guesses {
    revs: Vec<u64>,
}

impl Drop for Guesses {
    fn drop(self) {
        let Guesses { revs: _ } = self;
    }
}

/// The place of a session.
fn place(session: Session) -> usize {
    session.count as usize % MOST
}

impl Guesses {
    pub fn none(alloc: Global) -> Result<Guesses, NoMemory> {
        Ok(Guesses {
            revs: Vec::from_elem(alloc, 0, MOST)?,
        })
    }

    pub fn rev(&self, session: Session) -> u64 {
        match self.revs.get(place(session)) {
            Some(rev) => *rev,
            None => 0,
        }
    }

    pub fn put(&mut self, session: Session, rev: u64) {
        if let Some(guess) = self.revs.get_mut(place(session)) {
            *guess = rev;
        }
    }
}

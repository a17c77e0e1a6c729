//! What goes between a far keeper and its desk.

ghost use Rattle.std.specs.Prelude.{◌≡◌, IsTrue};
ghost use Rattle.ep_keep_far.specs.Told.{IsOf};

use crate::puts::{are_same, copy_of};
use ep_outside::{KeepBad, Keeper, Pairs, Put, Text};
use ep_units::NoMemory;
use rtrb::Protocol;
use std::alloc::Global;
use std::snapshot::Snapshot;

/// A call, with what it is given.
#[derive(Drop)]
pub enum Asked {
    Value(Text),
    Puts(Vec<Put>),
    Pairs(Text),
}

impl Asked {
    pub(crate) fn copy(&self, alloc: Global) -> Result<Asked, NoMemory> {
        Ok(match self {
            Asked::Value(key) => Asked::Value(key.copy(alloc)?),
            Asked::Puts(puts) => Asked::Puts(copy_of(alloc, puts.as_slice())?),
            Asked::Pairs(prefix) => Asked::Pairs(prefix.copy(alloc)?),
        })
    }
}

/// A call with what it came to; `Begun` is no call: the desk has its keeper.
#[derive(Drop)]
pub enum Said {
    Begun,
    Value(Text, Result<Option<Text>, KeepBad>),
    Puts(Vec<Put>, Result<(), KeepBad>),
    Pairs(Text, Result<Pairs, KeepBad>),
}

impl Said {
    /// Whether it is the answer to this call.
    pub(crate) fn is_of(&self, asked: &Asked) -> bool
        ensures { IsTrue result → IsOf asked.now self.now }
    {
        match (asked, self) {
            (Asked::Value(key), Said::Value(of, _)) => of.as_str() == key.as_str(),
            (Asked::Puts(puts), Said::Puts(of, _)) => are_same(of.as_slice(), puts.as_slice()),
            (Asked::Pairs(prefix), Said::Pairs(of, _)) => of.as_str() == prefix.as_str(),
            _ => false,
        }
    }
}

/// What comes back. For contracts it has the keeper as it was before the call and behind it.
pub struct Answer<K> {
    pub said: Said,
    pub before: Snapshot<K>,
    pub after: Snapshot<K>,
}

// SAFETY: of the keeper it has snapshots alone, which have no bytes.
unsafe impl<K> Send for Answer<K> {}

impl<K> Answer<K> {
    pub(crate) fn into_said(self) -> Said
        ensures { result ≡ self.said }
    {
        let Answer {
            said,
            before: _,
            after: _,
        } = self;
        said
    }
}

impl<K> Drop for Answer<K> {
    fn drop(self) {
        let Answer {
            said: _,
            before: _,
            after: _,
        } = self;
    }
}

/// Nothing is done to the keeper between two answers.
pub struct Chain;

impl<K: Keeper> Protocol<Answer<K>> for Chain {
    ghost use Rattle.ep_keep_far.specs.Told.{Continues};

    ghost allows = { λ before answer. Continues K.told before answer };
}

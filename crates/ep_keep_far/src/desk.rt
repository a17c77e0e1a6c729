//! Where the calls of a far keeper are made.

ghost use Rattle.std.specs.Prelude.{◌≡◌, Some, IsTrue};
ghost use Rattle.rtrb.specs.Ring.{sent};
ghost use Rattle.ep_keep_far.specs.Told.{Hears, IsOf, IsSaid, last_left};
ghost use Rattle.ep_keep_far.specs.declared.asked.Said.{Said};

use crate::asked::{Answer, Asked, Chain, Said};
use crossbeam_channel::{Receiver, Sender};
use ep_outside::Keeper;
use rtrb::Producer;
use std::alloc::Global;
use std::snapshot::Snapshot;
use std::sync::Wait;

/// The other end of a far keeper, with the keeper that its calls are made on.
pub struct Desk<K: Keeper> {
    pub(crate) keeper: K,
    pub(crate) asked: Receiver<Asked>,
    pub(crate) answers: Producer<Answer<K>, Global, Chain>,
    pub(crate) bell: Sender<()>,
    ghost left: { last_left (sent answers) ≡ Some keeper },
}

impl<K: Keeper + Drop> Drop for Desk<K> {
    fn drop(self) {
        let Desk {
            keeper: _,
            asked: _,
            answers: _,
            bell: _,
        } = self;
    }
}

// Makes a call.
fn call<K: Keeper>(keeper: &mut K, asked: Asked) -> Said
    ensures asked { IsOf asked result }
    ensures said { IsSaid (K.told keeper.old) (K.told keeper.new) result }
{
    match asked {
        Asked::Value(key) => {
            let came = keeper.get(key.as_str());
            Said::Value(key, came)
        }
        Asked::Puts(puts) => {
            let came = keeper.put_all(puts.as_slice());
            Said::Puts(puts, came)
        }
        Asked::Pairs(prefix) => {
            let came = keeper.list_prefix(prefix.as_str());
            Said::Pairs(prefix, came)
        }
    }
}

impl<K: Keeper> Desk<K> {
    // Makes a call, and hands its answer back.
    fn answer<R: Wait>(&mut self, rt: &R, asked: Asked) -> bool
        ensures { IsTrue result → (said : Said) × IsOf asked said × Hears (sent self.old.answers) (sent self.new.answers) said }
    {
        if self.answers.is_full() {
            return false;
        }
        let before = Snapshot::of(&self.keeper);
        let said = call(&mut self.keeper, asked);
        let after = Snapshot::of(&self.keeper);
        self.answers.push_reserved(Answer {
            said,
            before,
            after,
        });
        self.bell.send(rt, ()).is_ok()
    }

    /// Makes each call that comes on this keeper, until the far keeper is gone.
    pub fn answer_all<R: Wait>(&mut self, rt: &R) {
        for _ in rt.forever() {
            let Ok(asked) = self.asked.recv(rt) else {
                return;
            };
            if !self.answer(rt, asked) {
                return;
            }
        }
    }
}
